// Runs the calls that the records of standard input ask for, and prints what each answers, with all that
// was lent as it stands afterwards. A record is a line: a letter that says whose it is, and hexadecimal
// digits. Numbers are big-endian, and white space behind the letter is passed over.
//
// s, sheets and nodes, a line for each:
//
//     00 LLLL TTTT sheet     read a sheet of L bytes into a table lent with T entries
//     01 SS NNNN OOOO nodes  write s and N nodes to an output lent with O bytes
//     02 SS NNNN nodes       check s and N nodes
//     03 XXXXXXXX            decode a node's number, and number the node again
//     04 KK AAAA BBBB        number the node of kind K with a and b
//
// Entry k of a lent table is c0de0000 + k beforehand, and each byte of a lent output is ee.
//
// p, places:
//
//     00 SS NNNN nodes   the side of s and N nodes, or the refusal
//     01 SS NNNN nodes   for each letter, ascending, the set of that side's places that match it
//
// Bit j of a set is place j. `rest` is all that a side holds in entries of no place, joined. With a
// refusal the side of nothing is printed too, which has to be all zeros.
//
// g, goals. A record has the sides, what is lent, and the calls, which are made one after the other on the
// same columns and the same record of a run:
//
//     LL RR NNNN 0000MMMM lent(16) places(8) sets(8) parents(8) letters(8) nodes calls
//
// L and R are the sides' s, N and M their numbers of nodes; then how many rows are lent, and how long each
// column is. Each call is four numbers of eight digits:
//
//     00000000 0 0 0              start
//     01000000 BUDGET(16) 0       run
//     0200LLLL 0 0 0              trace, into a buffer of L bytes, each ee beforehand
//     03OO0000 SETTLED USED 0     no call: forges the record, OO being the outcome
//     04PPIIII SET(16) QQQQXXXX   no call: forges row I, with place, set, parent and letter
//     05000000 FROM TO 0          no call: the rows from FROM on, below TO, become what the row before is
//     06000000 LENT(16) 0         no call: from here on so many rows are lent
//     07000000 FROM TO 0          no call: shows the rows from FROM on, below TO
//     0bFF0SJJ VALUE(16) 0        no call: forges number F of the left (S = 0) or the right side: s, count, accepting places, or
//                                 present mask, absent mask or follow set of place J (F = 0 to 5)
//     0cNN000S 0 0 0              no call: forges why there are no sides: number N, naming left, right or both (S = 1, 2, 3)
//
// Start, run and trace are made on the columns. With 08, 09 and 0a for 00, 01 and 02 they are made on a table
// of rows: of what is lent in every column, and no more than 65,536 rows.
//
// A row that nothing wrote is ee in each byte, and the record is all zeros beforehand. A call that is none
// of these, or asks for a buffer of more than 512 bytes, is answered by the line `bad call`.
//
// A line that begins with '#' is printed as it is. A line that is no record, or has more than 8,192 digits,
// or asks for more than 300 nodes or 700 bytes (s and p) or for columns of more than 65,540 rows (g), ends
// the run with the line `bad record`. No more than 131,072 bytes of input are read.
#![tactic(auto)]

mod calls;
mod fault;
mod forge;
mod hex;
mod print;
mod record;
mod rows;
mod sheets;
mod side;
mod tables;

ghost use Rattle.std.specs.Prelude.{IfOk, ◌≤◌, length};

use fault::Fault;
use std::io::{self, Read};

// Reads until the room or the input ends, and says how many bytes there were. Each read asks for all that there is room for, and one that
// fails, also since a signal interrupts it, is handed on.
fn read_full(from: &mut impl Read, room: &mut [u8]) -> io::Result<usize>
    ensures { IfOk result (λ n. n ≤ length room.new) }
{
    let mut n: usize = 0;
    for _ in 0..room.len() {
        let read = from.read(&mut room[n..])?;
        if read == 0 {
            return Ok(n);
        }
        n += read;
    }
    Ok(n)
}

// Hands a record's bytes to the part that its letter names. Not inlined, as what this holds would take up main's stack on every input
// then.
#[inline(never)]
fn call(rt: &impl Print, letter: u8, digits: &[u8]) -> Result<(), Fault> {
    let record = hex::bytes(digits).ok_or(Fault::NoRecord)?;
    match letter {
        b's' => sheets::call(rt, &record),
        b'p' => tables::call(rt, &record),
        b'g' => record::call(rt, &record),
        _ => Err(Fault::NoRecord),
    }
}

// Answers a line.
fn answer(rt: &impl Print, line: &[u8]) -> Result<(), Fault> {
    match line {
        [] => Err(Fault::NoRecord),
        [b'#', ..] => {
            rt.write_all(line)?;
            println!(rt)?;
            Ok(())
        },
        [letter, digits @ ..] => call(rt, *letter, digits),
    }
}

// Answers line after line, up to the first that is no record.
fn answer_all(rt: &impl Print, input: &[u8]) -> Result<(), Fault> {
    for line in input.split_inclusive(|c| *c == b'\n') {
        answer(rt, line.strip_suffix(b"\n").unwrap_or(line))?;
    }
    Ok(())
}

fn main(rt: HostRuntime) -> io::Result<()> {
    let mut input = [0; 131072];
    let n = read_full(&mut rt.stdin(), &mut input)?;
    match answer_all(&rt, &input[..n]) {
        Err(Fault::NoRecord) => println!(rt; "bad record"),
        Err(Fault::Io(why)) => Err(why),
        Ok(()) => Ok(()),
    }
}
