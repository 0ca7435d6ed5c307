// A record as bytes: its line's hexadecimal digits, and the numbers that the bytes make.
use crate::fault::Fault;
use arrayvec::ArrayVec;

fn is_space(c: u8) -> bool {
    matches!(c, b' ' | b'\t' | b'\r')
}

// The value of a hexadecimal digit.
fn value(c: u8) -> Option<u8> {
    match c {
        b'0'..=b'9' => Some(c - b'0'),
        b'a'..=b'f' => Some(c - b'a' + 10),
        _ => None,
    }
}

// The bytes of a line's digits, where they are whole bytes, and no more than a record may have. The longest records are those
// of goals: a head, 300 nodes a side and a hundred calls.
pub(crate) fn bytes(line: &[u8]) -> Option<ArrayVec<u8, 4096>> {
    let mut bytes = ArrayVec::new();
    let mut digits = line.iter().filter(|c| !is_space(**c));
    while let Some(high) = digits.next() {
        let low = digits.next()?;
        bytes.try_push(value(*high)? << 4 | value(*low)?).ok()?;
    }
    Some(bytes)
}

// The numbers of four bytes each, where there are whole numbers, and no more than N.
pub(crate) fn numbers<const N: usize>(bytes: &[u8]) -> Option<ArrayVec<u32, N>> {
    let (fours, []) = bytes.as_chunks() else {
        return None;
    };
    let mut numbers = ArrayVec::new();
    for four in fours {
        numbers.try_push(u32::from_be_bytes(*four)).ok()?;
    }
    Some(numbers)
}

// The nodes of a record of sheets or places, where there are as many as its head says. It may ask for 300: document 01's largest
// table has 255.
pub(crate) fn nodes(said: [u8; 2], bytes: &[u8]) -> Result<ArrayVec<u32, 300>, Fault> {
    match numbers(bytes) {
        Some(nodes) if nodes.len() == u16::from_be_bytes(said) as usize => Ok(nodes),
        _ => Err(Fault::NoRecord),
    }
}

// Two numbers of four bytes, as one.
pub(crate) fn eight(high: u32, low: u32) -> u64 {
    u64::from(high) << 32 | u64::from(low)
}
