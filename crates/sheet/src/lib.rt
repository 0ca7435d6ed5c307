// The packed effect sheet: its reader and its writer.
#![tactic(auto)]

ghost use Rattle.std.specs.Prelude.{ℕ, ◌≡◌, List, [], ◌∷◌, ◌*◌, ◌<◌, ◌≤◌, ltb, length, get_or, take};
ghost use Rattle.effect.specs.Refusals.{rule, answered};
ghost use Rattle.sheet.specs.Bits.{each, field, fields};
ghost use Rattle.sheet.specs.Sheet.{sheet_length, sheet_bits, signals_in, count_in, header_refusal, exit, left, sheet_of, reading, writing, Reads, Writes};
ghost use Rattle.sheet.specs.Promises.{LengthByHeaderIs, RefusalOfIs};

use effect::Refusal;

// What stands in a sheet's header: s and the number of nodes.
#[derive(Clone, Copy, PartialEq, Eq, Debug)]
pub struct Header {
    pub s: u8,
    pub nodes: usize,
}

// The number that the w bits from bit o on write, the most significant first. `bit` gives bit i.
fn number_of<F: Fn(usize) -> u32>(bit: F, o: usize, w: usize) -> u32
    requires bounds { (w ≤ 19) × (o < 65536) }
    requires can { F.IsAlwaysCallable bit }
    requires bits { (i b : ℕ) → F.post bit i b → b < 2 }
    ensures { (bs : List ℕ) → ((i b : ℕ) → F.post bit i b → b ≡ get_or bs i 0) → result ≡ field bs o w }
{
    let mut v = 0;
    for k in 0..w {
        v = v * 2 + bit(o + k);
    }
    v
}

// Bit i of the sheet, the most significant bit of a byte first; 0 past the end.
fn bit_at(sheet: &[u8], i: usize) -> u32
    ensures { result ≡ get_or (each 8 sheet.now) i 0 }
{
    let byte = sheet.get(i / 8).copied().unwrap_or(0);
    (byte as u32 >> (7 - i % 8)) % 2
}

// The number that the w bits from bit o on of the sheet write.
fn field_at(sheet: &[u8], o: usize, w: usize) -> u32
    requires { (w ≤ 19) × (o < 65536) }
    ensures { result ≡ field (each 8 sheet.now) o w }
{
    number_of(|i| bit_at(sheet, i), o, w)
}

// The length in bytes of the sheet of n nodes.
fn length_of(n: usize) -> usize
    requires { n ≤ 255 }
    ensures { result ≡ sheet_length n }
{
    (12 + 19 * n).div_ceil(8)
}

// The length in bytes that a sheet's header gives, however long what follows is. Bits past the end count as zeros.
pub fn length_by_header(sheet: &[u8]) -> usize
    ensures { LengthByHeaderIs sheet.now result }
{
    length_of(field_at(sheet, 4, 8) as usize)
}

// The header, or one of refusals 1 to 6.
fn read_header(sheet: &[u8], lent: usize) -> Result<Header, Refusal>
    ensures { reading result ≡ answered (header_refusal sheet.now lent) (signals_in sheet.now ∷ count_in sheet.now ∷ []) }
{
    if sheet.len() < 2 {
        return Err(Refusal::SheetTooShort);
    }
    let s = field_at(sheet, 0, 4) as u8;
    if 8 < s {
        return Err(Refusal::SignalsAboveEight);
    }
    let n = field_at(sheet, 4, 8) as usize;
    if n == 0 {
        return Err(Refusal::NodeCount);
    }
    let length = length_of(n);
    if sheet.len() != length {
        return Err(Refusal::SheetLength);
    }
    let used = 12 + 19 * n;
    if field_at(sheet, used, 8 * length - used) != 0 {
        return Err(Refusal::FillingBit);
    }
    if lent < n {
        return Err(Refusal::TableTooShort);
    }
    Ok(Header { s, nodes: n })
}

// The first n nodes of the sheet, at the front of a table.
fn take_nodes(sheet: &[u8], n: usize) -> [u32; 255]
    requires { n ≤ 255 }
    ensures { take n result ≡ fields (each 8 sheet.now) 12 19 n }
{
    let mut nodes = [0; 255];
    for (k, node) in nodes[..n].iter_mut().enumerate() {
        *node = field_at(sheet, 12 + 19 * k, 19);
    }
    nodes
}

// Reads a sheet into the table lent. The nodes are judged aside first, so that a refusal changes nothing.
pub fn read(sheet: &[u8], nodes: &mut [u32]) -> Result<Header, Refusal>
    ensures { Reads sheet.now nodes.old result nodes.new }
{
    let header = read_header(sheet, nodes.len())?;
    let taken = take_nodes(sheet, header.nodes);
    let aside = &taken[..header.nodes];
    effect::check(header.s, aside)?;
    nodes[..header.nodes].copy_from_slice(aside);
    Ok(header)
}

// The number of a reading's refusal, if it was refused. Anybody may give any number.
pub fn refusal_of(answer: Result<Header, u8>) -> Option<u8>
    ensures { RefusalOfIs answer result }
{
    answer.err()
}

// What a sheet packs: s, and nodes that its count of 8 bits can tell.
#[derive(Clone, Copy)]
struct Packed<'a> {
    s: u8,
    nodes: &'a [u32],
    ghost few: { length nodes.now ≤ 255 },
}

impl Packed<'_> {
    // Bit i of the sheet; 0 past the last node.
    fn bit(&self, i: usize) -> u32
        ensures { result ≡ get_or (sheet_bits self.now.s self.now.nodes.now) i 0 }
    {
        if i < 4 {
            return (self.s as u32 >> (3 - i)) % 2;
        }
        if i < 12 {
            return (self.nodes.len() as u32 >> (11 - i)) % 2;
        }
        let node = self.nodes.get((i - 12) / 19).copied().unwrap_or(0);
        (node >> (18 - (i - 12) % 19)) % 2
    }

    // Byte k of the sheet.
    fn byte(&self, k: usize) -> u8
        requires { k < 8192 }
        ensures { result ≡ field (sheet_bits self.now.s self.now.nodes.now) (8 * k) 8 }
    {
        number_of(|i| self.bit(i), 8 * k, 8) as u8
    }

    // Puts the sheet at the front of the output, or refuses it as too short (13).
    fn put(&self, out: &mut [u8]) -> Result<usize, Refusal>
        ensures { let size = sheet_length (length self.now.nodes.now) in
            let short = rule 13 (ltb (length out.old) size) in
            exit (writing result) out.new ≡ left short (size ∷ []) (sheet_of self.now.s self.now.nodes.now) out.old }
    {
        let length = length_of(self.nodes.len());
        if out.len() < length {
            return Err(Refusal::OutputTooShort);
        }
        for (k, byte) in out[..length].iter_mut().enumerate() {
            *byte = self.byte(k);
        }
        Ok(length)
    }
}

// Writes the sheet of s and the nodes to the output.
pub fn write(s: u8, nodes: &[u32], out: &mut [u8]) -> Result<usize, Refusal>
    ensures { Writes s nodes.now out.old result out.new }
{
    effect::check(s, nodes)?;
    Packed { s, nodes }.put(out)
}
