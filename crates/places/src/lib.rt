// Places: a side of a comparison, made of an accepted node table.
#![tactic(auto)]

ghost use Rattle.std.specs.Prelude.{ℕ, ◌≡◌, Bool, cond, ◌+◌, ◌≤◌, min, length, get_or};
ghost use Rattle.bits.specs.Bit.{has};
ghost use Rattle.effect.specs.Node.{node_of, decode_of, decodings};
ghost use Rattle.effect.specs.Meaning.{at};
ghost use Rattle.effect.specs.Refusals.{one_if_instant};
ghost use Rattle.effect.specs.WellFormed.{WellFormed};
ghost use Rattle.places.specs.Places.{numbered_node};
ghost use Rattle.places.specs.Side.{present_in, absent_in, side_of};
ghost use Rattle.places.specs.Walk.{table_of, Walkable, ends_by, ends_of, sequence_ends, choice_ends, grown, link_at, linked_to};
ghost use Rattle.places.specs.Walk.{Adds, Holds, Numbers, Surveyable};
ghost use Rattle.places.specs.Matching.{masked_to, naming_to, by_signal};
ghost use Rattle.places.specs.Promises.{NoSideIs, PrepareIs, NamingOfIs, MatchingIs};

use effect::{Node, Refusal};
use std::array;

// What a comparison needs of a side, by place: s, the number of instants, their masks, the places that accept (bit j for
// place j), and for each place those that may follow. Where a table made it, entries of no place are 0.
#[derive(Clone, Copy, PartialEq, Eq, Debug)]
pub struct Side {
    pub s: u8,
    pub count: u8,
    pub present: [u16; 64],
    pub absent: [u16; 64],
    pub accepts: u64,
    pub follow: [u64; 64],
}

// The places that name present no signal which no letter has; and for each signal, those that name it present and those that name it absent.
#[derive(Clone, Copy, PartialEq, Eq, Debug)]
pub struct Naming {
    pub alive: u64,
    pub present: [u64; 16],
    pub absent: [u64; 16],
}

// Of a node: whether it has the empty trace, and its first and last places.
#[derive(Clone, Copy)]
struct Ends {
    empty: bool,
    first: u64,
    last: u64,
}

// The masks of the instants so far, by place, and how many there are.
#[derive(Clone, Copy)]
struct Masks {
    count: u8,
    present: [u16; 64],
    absent: [u16; 64],
}

// The node that a number of a table stands for; nil, where it stands for none.
fn node_of(x: u32) -> Node
    ensures { result ≡ node_of (decode_of x) }
{
    effect::decode(x).unwrap_or(Node::Nil)
}

// x, if b; else the empty set.
fn only_if(b: bool, x: u64) -> u64
    ensures { result ≡ cond b x 0 }
{
    if b { x } else { 0 }
}

// The ends of a node without an instant: no place is first or last.
fn no_places(empty: bool) -> Ends
    ensures { result ≡ ends_by empty 0 0 }
{
    Ends {
        empty,
        first: 0,
        last: 0,
    }
}

// The ends of a sequence, given those of its 1st and of its 2nd part.
fn sequence_ends(x: Ends, y: Ends) -> Ends
    ensures { result ≡ sequence_ends x y }
{
    Ends {
        empty: x.empty & y.empty,
        first: x.first | only_if(x.empty, y.first),
        last: y.last | only_if(y.empty, x.last),
    }
}

// The ends of a choice, given those of its two parts.
fn choice_ends(x: Ends, y: Ends) -> Ends
    ensures { result ≡ choice_ends x y }
{
    Ends {
        empty: x.empty | y.empty,
        first: x.first | y.first,
        last: x.last | y.last,
    }
}

// The follow sets, and after each place of `last` the places of `first` too.
fn joined(follow: [u64; 64], last: u64, first: u64) -> [u64; 64]
    ensures { result ≡ grown follow (λ j. cond (has last j) first 0) }
{
    array::from_fn(|j| follow[j] | only_if(bits::has(last, j as u64), first))
}

// A numbered table: an instant is its number. Children are lower nodes, and places are below 64.
#[derive(Clone, Copy)]
struct Skeleton<'a> {
    nodes: &'a [Node],
    ghost walkable: { Walkable nodes.now },
}

impl<'a> Skeleton<'a> {
    // Node i; past the end, nil.
    fn node(&self, i: usize) -> Node
        ensures { result ≡ at self.now.nodes.now i }
    {
        self.nodes.get(i).copied().unwrap_or(Node::Nil)
    }

    // Whether node i has the empty trace, and its first and last places. Children are lower nodes, and so this ends. It
    // may be 255 nodes deep: the follow sets, half a kilobyte, are not handed down.
    fn ends_of(&self, i: usize) -> Ends
        ensures { result ≡ ends_of self.now.nodes.now i }
    {
        match self.node(i) {
            Node::Nil => no_places(false),
            Node::Empty => no_places(true),
            Node::Instant(j, _) => {
                let place = bits::single(j as u64);
                Ends {
                    empty: false,
                    first: place,
                    last: place,
                }
            },
            Node::Seq(a, b) => {
                let x = self.ends_of(a as usize);
                let y = self.ends_of(b as usize);
                sequence_ends(x, y)
            },
            Node::Choice(a, b) => {
                let x = self.ends_of(a as usize);
                let y = self.ends_of(b as usize);
                choice_ends(x, y)
            },
            Node::Repeat(a) => {
                let x = self.ends_of(a as usize);
                Ends { empty: true, ..x }
            },
        }
    }

    // The follow sets with what node i adds.
    fn linked(&self, follow: [u64; 64], i: usize) -> [u64; 64]
        ensures { result ≡ grown follow (link_at self.now.nodes.now i) }
    {
        match self.node(i) {
            Node::Seq(a, b) => {
                let x = self.ends_of(a as usize);
                let y = self.ends_of(b as usize);
                joined(follow, x.last, y.first)
            },
            Node::Repeat(a) => {
                let x = self.ends_of(a as usize);
                joined(follow, x.last, x.first)
            },
            _ => follow,
        }
    }

    // For each place those that may follow it, as every node adds them.
    fn follow_sets(&self) -> [u64; 64]
        ensures { result ≡ linked_to self.now.nodes.now (length self.now.nodes.now) }
    {
        let mut follow = [0; 64];
        for i in 0..self.nodes.len() {
            let more = self.linked(follow, i);
            follow = more;
        }
        follow
    }
}

// The masks with those of one node more.
#[tactic(auto, unfolding(effect::specs::Refusals::one_if_instant, crate::specs::Side::mask_in))]
fn with_masks(mut m: Masks, node: Node) -> Masks
    requires { m.count + one_if_instant node ≤ 63 }
    ensures count { result.count ≡ m.count + one_if_instant node }
    ensures present { Adds m.count m.present (present_in node) result.present }
    ensures absent { Adds m.count m.absent (absent_in node) result.absent }
{
    if let Node::Instant(p, q) = node {
        m.count += 1;
        m.present[m.count as usize] = p;
        m.absent[m.count as usize] = q;
    }
    m
}

// A node in the numbered table, j being its place: an instant is its number.
#[tactic(auto, unfolding(crate::specs::Places::numbered_node))]
fn numbered_node(j: u8, node: Node) -> Node
    ensures { result ≡ numbered_node j node }
{
    match node {
        Node::Instant(_, _) => Node::Instant(j as u16, 0),
        _ => node,
    }
}

// Numbers the instants: the masks by place, and in `skeleton` the numbered table.
fn survey(nodes: &[u32], skeleton: &mut [Node]) -> Masks
    requires { Surveyable nodes.now (length skeleton.old) }
    ensures masks { Holds (table_of nodes.now) (length nodes.now) result }
    ensures numbers { Numbers (table_of nodes.now) (length nodes.now) skeleton.new }
{
    let mut masks = Masks {
        count: 0,
        present: [0; 64],
        absent: [0; 64],
    };
    for (i, x) in nodes.iter().enumerate() {
        let node = node_of(*x);
        skeleton[i] = numbered_node(masks.count + 1, node);
        masks = with_masks(masks, node);
    }
    masks
}

// The side of an accepted table.
fn side_of(s: u8, nodes: &[u32]) -> Side
    requires { WellFormed s (decodings nodes.now) }
    ensures { result ≡ side_of s (table_of nodes.now) }
{
    let n = nodes.len();
    let mut skeleton = [Node::Nil; 255];
    let Masks {
        count,
        present,
        absent,
    } = survey(nodes, &mut skeleton);
    let numbered = Skeleton {
        nodes: &skeleton[..n],
    };
    let ends = numbered.ends_of(n - 1);
    let mut follow = numbered.follow_sets();
    follow[0] = ends.first;
    Side {
        s,
        count,
        present,
        absent,
        accepts: ends.last | only_if(ends.empty, 1),
        follow,
    }
}

// The side of nothing, which stands where there is a refusal.
#[tactic(auto, unfolding(crate::specs::Side::no_side))]
pub fn no_side() -> Side
    ensures { NoSideIs result }
{
    Side {
        s: 0,
        count: 0,
        present: [0; 64],
        absent: [0; 64],
        accepts: 0,
        follow: [0; 64],
    }
}

// Makes a side of a node table, or refuses it (2, 3, 7 to 12).
pub fn prepare(s: u8, nodes: &[u32]) -> Result<Side, Refusal>
    ensures { PrepareIs s nodes.now result }
{
    effect::check(s, nodes)?;
    Ok(side_of(s, nodes))
}

// Of the places 1 to count, of which there are 63 at most, those whose mask passes a test; where there is no mask, 0 is tested.
#[tactic(auto, unfolding(crate::specs::Matching::masked_to))]
fn masked<F: Fn(u64) -> bool>(masks: &[u16; 64], count: u8, test: F) -> u64
    requires { F.IsAlwaysCallable test }
    ensures { (passes : ℕ → Bool) → ((m : ℕ) (b : Bool) → F.post test m b → b ≡ passes m) → result ≡ masked_to passes masks.now (min count 63) }
{
    let mut r: u64 = 0;
    for j in 1..count.min(63) + 1 {
        let mask = masks.get(j as usize).copied().unwrap_or(0);
        r |= only_if(test(mask as u64), bits::single(j as u64));
    }
    r
}

// For each of 16 signals, the places among 1 to count whose mask names it.
fn by_signal(masks: &[u16; 64], count: u8) -> [u64; 16]
    ensures { result ≡ by_signal masks.now (min count 63) }
{
    array::from_fn(
        |i|
            ensures { result ≡ naming_to masks.entry.now i (min count 63) }
        { masked(masks, count, |mask| bits::has(mask, i as u64)) },
    )
}

// The places that name present no signal which no letter has; and for each signal, those that name it present and those that name it absent.
#[tactic(auto, unfolding(crate::specs::Matching::naming_of))]
pub fn naming_of(side: Side) -> Naming
    ensures { NamingOfIs side result }
{
    Naming {
        alive: masked(
            &side.present,
            side.count,
            |mask| bits::within(mask, side.s as u64),
        ),
        present: by_signal(&side.present, side.count),
        absent: by_signal(&side.absent, side.count),
    }
}

// The places that signal i takes away from those that match the letter x.
fn taken_away(naming: &Naming, x: u16, i: usize) -> u64
    ensures { result ≡ cond (has x i) (get_or naming.now.absent i 0) (get_or naming.now.present i 0) }
{
    let sets = if bits::has(x as u64, i as u64) {
        &naming.absent
    } else {
        &naming.present
    };
    sets.get(i).copied().unwrap_or(0)
}

// The places of a side of s signals that match the letter x.
#[tactic(auto, unfolding(crate::specs::Matching::left_to, crate::specs::Matching::matching_by))]
pub fn matching(naming: Naming, s: u8, x: u16) -> u64
    ensures { MatchingIs naming s x result }
{
    let mut left = naming.alive;
    for i in 0..s as usize {
        left ^= left & taken_away(&naming, x, i);
    }
    left
}
