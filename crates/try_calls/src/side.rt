// A side in print: all that it holds.
use crate::print;
use places::Side;
use std::io;

fn show_head(rt: &impl Print, side: &Side) -> io::Result<()> {
    let Side {
        s,
        count,
        accepts,
        follow,
        ..
    } = side;
    let empty = accepts % 2;
    let first = follow[0];
    print::named(rt, "s ", s)?;
    print::named(rt, " places ", count)?;
    print::named(rt, " empty ", empty)?;
    print::digits(rt, " accepts ", *accepts, 16)?;
    print::digits(rt, " first ", first, 16)?;
    println!(rt)
}

fn show_places(rt: &impl Print, side: &Side) -> io::Result<()> {
    let masks = side.present.iter().zip(side.absent.iter());
    let entries = masks.zip(side.follow.iter()).enumerate();
    for (j, ((present, absent), follow)) in entries.skip(1).take(side.count as usize) {
        print::named(rt, "place ", j)?;
        print::digits(rt, " present ", *present, 4)?;
        print::digits(rt, " absent ", *absent, 4)?;
        print::digits(rt, " follow ", *follow, 16)?;
        println!(rt)?;
    }
    Ok(())
}

// All entries of no place, joined: place 0 has no masks, and above the last there is nothing.
fn rest(side: &Side) -> u64 {
    let mut all = u64::from(side.present[0] | side.absent[0]);
    let masks = side.present.iter().zip(side.absent.iter());
    let entries = masks.zip(side.follow.iter());
    for ((present, absent), follow) in entries.skip(side.count as usize + 1) {
        all |= u64::from(*present | *absent) | *follow;
    }
    all
}

pub(crate) fn show(rt: &impl Print, side: &Side) -> io::Result<()> {
    show_head(rt, side)?;
    show_places(rt, side)?;
    print::digits(rt, "rest ", rest(side), 16)?;
    println!(rt)
}
