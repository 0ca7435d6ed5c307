// Pieces of an answer, written to standard output. Each piece, such as a name or the number behind it, is a write of its own: where
// one fails, all that stood before it is written.
use goals::{Run, SideRefusal, Which};
use std::fmt::{Display, Radix};
use std::io;

// A name, and x behind it.
pub(crate) fn named(rt: &impl Print, name: &str, x: impl Display + Drop) -> io::Result<()> {
    rt.write_all(name.as_bytes())?;
    print!(rt; "{x}")
}

// The same with x in so many hexadecimal digits.
pub(crate) fn digits<T: Copy + Radix>(
    rt: &impl Print,
    name: &str,
    x: T,
    width: usize,
) -> io::Result<()> {
    rt.write_all(name.as_bytes())?;
    print!(rt; "{x:0width$x}")
}

// All of it, each in so many hexadecimal digits. Ends the line.
pub(crate) fn hex<T: Copy + Radix>(rt: &impl Print, all: &[T], width: usize) -> io::Result<()> {
    for x in all {
        digits(rt, " ", *x, width)?;
    }
    println!(rt)
}

pub(crate) fn run(rt: &impl Print, run: Run) -> io::Result<()> {
    let Run {
        settled,
        used,
        outcome,
    } = run;
    named(rt, " settled ", settled)?;
    named(rt, " used ", used)?;
    named(rt, " outcome ", outcome)
}

fn name(side: Which) -> &'static str {
    match side {
        Which::Left => "left",
        Which::Right => "right",
        Which::Both => "both",
    }
}

pub(crate) fn refused(rt: &impl Print, why: SideRefusal) -> io::Result<()> {
    named(rt, " refused ", name(why.side))?;
    named(rt, " ", why.number)
}
