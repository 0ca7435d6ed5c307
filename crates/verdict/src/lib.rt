// The program's answer: from the bytes of the input to the bytes of the output.
#![tactic(auto)]

ghost use Rattle.std.specs.Prelude.{◌≡◌, ◌+◌, ◌*◌, ◌<◌, ◌≤◌, [], length};
ghost use Rattle.goals.specs.Refusals.{Given, given, side_number, against, against_of};
ghost use Rattle.asking.specs.Asked.{asked_of};
ghost use Rattle.columns.specs.Calls.{lent_in};
ghost use Rattle.columns.specs.Tables.{of_table, Same};
ghost use Rattle.program.specs.Lines.{decimal, letter, letters, outcome_line, counts_line, trace_line, side_text, refused_line};
ghost use Rattle.verdict.specs.Prints.{Prints};
ghost use Rattle.verdict.specs.Core.{of_text, with_text, Decides, comparison_lines, reading_number};

use asking::{Asked, ask};
use columns::{Table, run_on, start_on, trace_on};
use effect::Refusal;
use goals::{Outcome, Run, SideRefusal, Which};
use sheet::Header;

// How many rows a run has room for, and how many steps it gets. As many steps as rows end any run.
const ROOM: usize = 1024;

const STEPS: u64 = 1024;

// What is printed: the first `len` of the bytes. (An array with its length, since `Prints` and `VerdictSays` speak of both.)
#[derive(Clone, Copy)]
pub struct Lines {
    pub bytes: [u8; 4096],
    pub len: usize,
}

// `write!` is not used: it may answer an error, no contract says when, and each input has its lines. So the library's texts are put.
impl Lines {
    // Nothing printed yet.
    fn new() -> Lines
        ensures { result ≡ of_text [] }
    {
        Lines {
            bytes: [0; 4096],
            len: 0,
        }
    }

    // Puts a text behind what stands there, as all functions here do that put something.
    fn put(&mut self, text: &[u8])
        requires { self.old.len + length text.now ≤ 4096 }
        ensures { self.new ≡ with_text text.now self.old }
    {
        for byte in text {
            self.bytes[self.len] = *byte;
            self.len += 1;
        }
    }

    // A number in decimal.
    #[tactic(auto, using(crate::proofs::Laws::texts))]
    fn put_decimal(&mut self, n: u32)
        requires { self.old.len + length (decimal n) ≤ 4096 }
        ensures { self.new ≡ with_text (decimal n) self.old }
    {
        self.put(itoa::Buffer::new().format(n).as_bytes());
    }

    // A letter of a trace.
    fn put_letter(&mut self, x: u8)
        requires { self.old.len + 3 ≤ 4096 }
        ensures { self.new ≡ with_text (letter x) self.old }
    {
        let mut digits = [0; 2];
        hex::encode_to_slice([x], &mut digits).unwrap();
        self.put(b" ");
        self.put(&digits);
    }

    // All letters of a trace.
    fn put_letters(&mut self, word: &[u8])
        requires { self.old.len + 3 * length word.now ≤ 4096 }
        ensures { self.new ≡ with_text (letters word.now) self.old }
    {
        for x in word {
            self.put_letter(*x);
        }
    }

    // Line 1 of a run that has ended.
    #[tactic(auto, unfolding(program::specs::Lines::outcome_line, program::specs::Lines::ascii))]
    fn put_outcome(&mut self, outcome: u8)
        requires { self.old.len + 9 ≤ 4096 }
        ensures { self.new ≡ with_text (outcome_line outcome) self.old }
    {
        if outcome == Outcome::Included as u8 {
            self.put(b"included\n");
        } else if outcome == Outcome::Refuted as u8 {
            self.put(b"refuted\n");
        } else {
            self.put(b"no room\n");
        }
    }

    // Line 2.
    #[tactic(auto, using(crate::proofs::Laws::texts))]
    fn put_counts(&mut self, settled: u32, used: u32)
        requires { (settled < 10000) × (used < 10000) × (self.old.len + 26 ≤ 4096) }
        ensures { self.new ≡ with_text (counts_line settled used) self.old }
    {
        self.put(b"settled ");
        self.put_decimal(settled);
        self.put(b" of ");
        self.put_decimal(used);
        self.put(b" rows\n");
    }

    // Line 3.
    #[tactic(auto, using(crate::proofs::Laws::texts))]
    fn put_trace(&mut self, word: &[u8])
        requires { self.old.len + 6 + 3 * length word.now ≤ 4096 }
        ensures { self.new ≡ with_text (trace_line word.now) self.old }
    {
        self.put(b"trace");
        self.put_letters(word);
        self.put(b"\n");
    }

    // The side that a refusal names.
    #[tactic(auto, unfolding(program::specs::Lines::side_text, program::specs::Lines::ascii, goals::specs::Refusals::side_number))]
    fn put_side(&mut self, side: Which)
        requires { self.old.len + 5 ≤ 4096 }
        ensures { self.new ≡ with_text (side_text (side_number side)) self.old }
    {
        match side {
            Which::Left => self.put(b"left"),
            Which::Right => self.put(b"right"),
            Which::Both => self.put(b"both"),
        }
    }
}

// The one line of a refusal. Not inlined, so that a comparison has no second output on the stack.
#[inline(never)]
#[tactic(auto, using(crate::proofs::Laws::texts))]
fn refused(why: SideRefusal) -> Lines
    ensures { result ≡ of_text (refused_line (against_of why)) }
{
    let mut out = Lines::new();
    out.put(b"refused ");
    out.put_side(why.side);
    out.put(b" ");
    out.put_decimal(u32::from(why.number));
    out.put(b"\n");
    out
}

// Begins a run and goes on with it to its end.
fn decide(asked: Asked, table: &mut Table<'_>) -> Result<Run, SideRefusal>
    requires { (table.old.lent ≡ ROOM) × (lent_in ROOM (of_table table.old) ≡ ROOM) }
    ensures decides { (g : Given) → asked ≡ asked_of g → Decides g (of_table table.old) result (of_table table.new) }
    ensures same { Same table.old table.new }
{
    let held = start_on(asked, table)?;
    run_on(asked, table, held, STEPS)
}

// The lines of a comparison of two node tables. Not inlined, so that an input that is refused has no columns on the stack.
#[inline(never)]
fn compared(ls: u8, left: &[u32], rs: u8, right: &[u32]) -> Lines
    ensures { result ≡ of_text (comparison_lines (given ls left.now rs right.now)) }
{
    let asked = ask(ls, left, rs, right);
    let mut places = [0; ROOM];
    let mut sets = [0; ROOM];
    let mut parents = [0; ROOM];
    let mut letters = [0; ROOM];
    let mut table = Table {
        lent: ROOM,
        places: &mut places,
        sets: &mut sets,
        parents: &mut parents,
        letters: &mut letters,
    };
    let held = match decide(asked, &mut table) {
        Err(why) => return refused(why),
        Ok(held) => held,
    };
    let mut out = Lines::new();
    out.put_outcome(held.outcome);
    out.put_counts(held.settled, held.used);
    if held.outcome == Outcome::Refuted as u8 {
        let mut word = [0; ROOM];
        // The trace of a run that ended refuted is never refused.
        if let Ok(n) = trace_on(asked, &table.view(), held, &mut word) {
            out.put_trace(&word[..n]);
        }
    }
    out
}

// The refusal of one side's sheet.
#[tactic(auto, unfolding(sheet::specs::Sheet::reading))]
fn unread(side: Which, reading: Result<Header, Refusal>) -> Lines
    ensures { result ≡ of_text (refused_line (against (side_number side) (reading_number reading))) }
{
    let number = sheet::refusal_of(reading.map_err(|refusal| refusal.number())).unwrap_or(0);
    refused(SideRefusal { side, number })
}

// What the program prints for an input: reads both sheets, the left before the right, and answers the lines of their comparison.
pub fn verdict(input: &[u8]) -> Lines
    ensures { Prints input.now result }
{
    let end = goals::lesser(sheet::length_by_header(input), input.len());
    let mut left = [0; 255];
    let on_left = sheet::read(&input[..end], &mut left);
    let Ok(Header { s: ls, nodes: n }) = on_left else {
        return unread(Which::Left, on_left);
    };
    let mut right = [0; 255];
    let on_right = sheet::read(&input[end..], &mut right);
    let Ok(Header { s: rs, nodes: m }) = on_right else {
        return unread(Which::Right, on_right);
    };
    compared(ls, &left[..n], rs, &right[..m])
}
