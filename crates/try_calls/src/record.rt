// A record that compares two sides: its parts, and the calls on them.
use crate::calls::State;
use crate::fault::Fault;
use crate::hex;
use asking::ask;
use columns::Table;
use goals::Run;

// As many rows as a column may have.
const ROWS: usize = 65540;

// Takes a record apart, its head of eight numbers, the nodes of both sides, and the calls, and makes these. Not inlined, so that
// no other record has its columns on the stack.
#[inline(never)]
fn parts(rt: &impl Print, numbers: &[u32]) -> Result<(), Fault> {
    let [first, second, high, low, p, s, q, x, rest @ ..] = numbers else {
        return Err(Fault::NoRecord);
    };
    let [ls, rs, n1, n0] = first.to_be_bytes();
    let n = u16::from_be_bytes([n1, n0]) as usize;
    let (left, rest) = rest.split_at_checked(n).ok_or(Fault::NoRecord)?;
    let m = (*second % 65536) as usize;
    let (right, rest) = rest.split_at_checked(m).ok_or(Fault::NoRecord)?;
    let (calls, []) = rest.as_chunks() else {
        return Err(Fault::NoRecord);
    };
    let mut places = [0xee; ROWS];
    let mut sets = [0xeeeeeeeeeeeeeeee; ROWS];
    let mut parents = [0xeeee; ROWS];
    let mut letters = [0xeeee; ROWS];
    let mut table = Table {
        lent: hex::eight(*high, *low) as usize,
        places: places.get_mut(..*p as usize).ok_or(Fault::NoRecord)?,
        sets: sets.get_mut(..*s as usize).ok_or(Fault::NoRecord)?,
        parents: parents.get_mut(..*q as usize).ok_or(Fault::NoRecord)?,
        letters: letters.get_mut(..*x as usize).ok_or(Fault::NoRecord)?,
    };
    let mut state = State {
        asked: ask(ls, left, rs, right),
        run: Run {
            settled: 0,
            used: 0,
            outcome: 0,
        },
    };
    for call in calls {
        state.make(rt, &mut table, *call)?;
    }
    Ok(())
}

// Makes the calls of a record.
pub(crate) fn call(rt: &impl Print, record: &[u8]) -> Result<(), Fault> {
    let numbers = hex::numbers::<1024>(record).ok_or(Fault::NoRecord)?;
    parts(rt, &numbers)
}
