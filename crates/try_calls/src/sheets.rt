// A record's call on sheets and nodes, and the line of its answer.
use crate::fault::Fault;
use crate::{hex, print};
use effect::{Node, Refusal};
use sheet::Header;
use std::fmt::Display;
use std::io;

// What a call answered, if it is one thing, or why it refused.
fn show(rt: &impl Print, answer: Result<impl Display + Drop, Refusal>) -> io::Result<()> {
    match answer {
        Ok(x) => print::named(rt, " accepted ", x),
        Err(why) => print::named(rt, " refused ", why.number()),
    }
}

// Reads into a table, each entry of which is made one that no sheet has, so that an entry that was written shows.
fn read(rt: &impl Print, sheet: &[u8], table: &mut [u32]) -> io::Result<()> {
    for (entry, mark) in table.iter_mut().zip(0xC0DE0000..0xC0DF0000) {
        *entry = mark;
    }
    let answer = sheet::read(sheet, table);
    print!(rt; "read")?;
    match answer {
        Ok(Header { s, nodes }) => {
            print::named(rt, " accepted ", s)?;
            print::named(rt, " ", nodes)?;
        }
        Err(why) => print::named(rt, " refused ", why.number())?,
    }
    print!(rt; " table")?;
    print::hex(rt, table, 8)
}

fn write(rt: &impl Print, s: u8, nodes: &[u32], sheet: &mut [u8]) -> io::Result<()> {
    let answer = sheet::write(s, nodes, sheet);
    print!(rt; "write")?;
    show(rt, answer)?;
    print!(rt; " out")?;
    print::hex(rt, sheet, 2)
}

fn check(rt: &impl Print, s: u8, nodes: &[u32]) -> io::Result<()> {
    let answer = effect::check(s, nodes);
    print!(rt; "check")?;
    show(rt, answer)?;
    println!(rt)
}

// A kind, by document 01's number, and the two fields.
fn fields(node: Node) -> (u8, u16, u16) {
    match node {
        Node::Nil => (0, 0, 0),
        Node::Empty => (1, 0, 0),
        Node::Instant(a, b) => (2, a, b),
        Node::Seq(a, b) => (3, a, b),
        Node::Choice(a, b) => (4, a, b),
        Node::Repeat(a) => (5, a, 0),
    }
}

// Ends the line.
fn number(rt: &impl Print, node: Node) -> io::Result<()> {
    match effect::number(node) {
        Some(x) => print::digits(rt, " ", x, 8)?,
        None => print!(rt; " none")?,
    }
    println!(rt)
}

fn decode(rt: &impl Print, x: u32) -> io::Result<()> {
    print!(rt; "decode")?;
    match effect::decode(x) {
        Some(node) => {
            let (kind, a, b) = fields(node);
            print::named(rt, " ", kind)?;
            print::named(rt, " ", a)?;
            print::named(rt, " ", b)?;
            print!(rt; " number")?;
            number(rt, node)
        }
        None => {
            print!(rt; " none")?;
            println!(rt)
        }
    }
}

fn node_of(kind: u8, a: u16, b: u16) -> Node {
    match kind {
        0 => Node::Nil,
        1 => Node::Empty,
        2 => Node::Instant(a, b),
        3 => Node::Seq(a, b),
        4 => Node::Choice(a, b),
        _ => Node::Repeat(a),
    }
}

fn pair(high: u8, low: u8) -> u16 {
    u16::from_be_bytes([high, low])
}

// Makes the call of a record; main.rt says what each is. No table may have more entries than 300, and no output more
// bytes than 700: document 01's longest sheet has 608.
pub(crate) fn call(rt: &impl Print, record: &[u8]) -> Result<(), Fault> {
    let mut room = [0; 300];
    let mut output = [0xee; 700];
    match record {
        [0, l1, l0, t1, t0, sheet @ ..] if sheet.len() == pair(*l1, *l0) as usize => {
            let table = room
                .get_mut(..pair(*t1, *t0) as usize)
                .ok_or(Fault::NoRecord)?;
            read(rt, sheet, table)?;
        }
        [1, s, n1, n0, o1, o0, rest @ ..] => {
            let nodes = hex::nodes([*n1, *n0], rest)?;
            let sheet = output
                .get_mut(..pair(*o1, *o0) as usize)
                .ok_or(Fault::NoRecord)?;
            write(rt, *s, &nodes, sheet)?;
        }
        [2, s, n1, n0, rest @ ..] => {
            let nodes = hex::nodes([*n1, *n0], rest)?;
            check(rt, *s, &nodes)?;
        }
        [3, a, b, c, d] => decode(rt, u32::from_be_bytes([*a, *b, *c, *d]))?,
        [4, kind, a1, a0, b1, b0] => {
            print!(rt; "number")?;
            number(rt, node_of(*kind, pair(*a1, *a0), pair(*b1, *b0)))?;
        }
        _ => return Err(Fault::NoRecord),
    }
    Ok(())
}
