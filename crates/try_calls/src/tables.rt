// A record's call on a node table, and its answer in print.
use crate::fault::Fault;
use crate::{hex, print, side};
use effect::Refusal;
use places::Side;
use std::io;

// With a refusal the side of nothing is printed too, which is all zeros.
fn show_side(rt: &impl Print, answer: Result<Side, Refusal>) -> io::Result<()> {
    if let Err(why) = answer {
        print::named(rt, "refused ", why.number())?;
        println!(rt)?;
    }
    side::show(rt, &answer.unwrap_or(places::no_side()))
}

// For each letter; a side has at most 8 signals.
fn show_letters(rt: &impl Print, side: Side) -> io::Result<()> {
    let naming = places::naming_of(side);
    for x in 0..1 << side.s.min(8) {
        print::digits(rt, " ", places::matching(naming, side.s, x), 16)?;
    }
    Ok(())
}

fn show_matching(rt: &impl Print, answer: Result<Side, Refusal>) -> io::Result<()> {
    print!(rt; "matching")?;
    match answer {
        Ok(side) => show_letters(rt, side)?,
        Err(why) => print::named(rt, " refused ", why.number())?,
    }
    println!(rt)
}

// Makes the call of a record, XX SS NNNN nodes.
pub(crate) fn call(rt: &impl Print, record: &[u8]) -> Result<(), Fault> {
    match record {
        [0, s, n1, n0, rest @ ..] => {
            let nodes = hex::nodes([*n1, *n0], rest)?;
            show_side(rt, places::prepare(*s, &nodes))?;
        }
        [1, s, n1, n0, rest @ ..] => {
            let nodes = hex::nodes([*n1, *n0], rest)?;
            show_matching(rt, places::prepare(*s, &nodes))?;
        }
        _ => return Err(Fault::NoRecord),
    }
    Ok(())
}
