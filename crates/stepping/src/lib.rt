// The goals of a row, one after the other, by value: no column in sight.
#![tactic(auto)]

ghost use Rattle.std.specs.Prelude.{◌≡◌, ℕ, ◌-◌, ◌<◌};
ghost use Rattle.bits.specs.Bit.{Mem};
ghost use Rattle.stepping.specs.Next.{letters_in, lowest_member, at_letter, at_goal};
ghost use Rattle.stepping.specs.Rest.{rest, rest_of};
ghost use Rattle.stepping.specs.Promises.{NextGoalIs};

use goals::Row;
use places::Naming;

// What the goals of a row are made of: of the call s, how many letters there are (a caller's 2^s) and for each side which places name a
// signal; of the row what follows it on the left and on the right, and its number.
#[derive(Clone, Copy)]
pub struct Source {
    pub s: u8,
    pub letters: u32,
    pub left: Naming,
    pub right: Naming,
    pub follow: u64,
    pub spread: u64,
    pub parent: u16,
}

// Where the goals of a row stand: the letters from x on are still to come, and these members of the letter before.
#[derive(Clone, Copy, PartialEq, Eq, Debug)]
pub struct Cursor {
    pub x: u32,
    pub letter: u16,
    pub set: u64,
    pub members: u64,
}

// The lowest member of a set; 64 where it has none.
fn lowest(set: u64) -> u8
    ensures is { result ≡ lowest_member set }
    ensures member { (set ≡ 0 → ⊥) → (result < 64) × Mem set result × ((j : ℕ) → j < result → Mem set j → ⊥) }
{
    set.trailing_zeros() as u8
}

// The cursor at the letter x. Where no follower matches it, the right side is not looked at.
#[tactic(auto, unfolding(crate::specs::Next::at_letter))]
fn at_letter(from: Source, x: u32) -> Cursor
    requires { x < 65536 }
    ensures { result ≡ at_letter from x }
{
    let letter = x as u16;
    let members = from.follow & places::matching(from.left, from.s, letter);
    let set = if members == 0 {
        0
    } else {
        from.spread & places::matching(from.right, from.s, letter)
    };
    Cursor {
        x: x + 1,
        letter,
        set,
        members,
    }
}

// Passes the letters that have no goal. A letter has 16 bits.
fn at_goal(from: Source, at: Cursor) -> Cursor
    ensures { result ≡ at_goal from (letters_in from - at.x) at }
{
    let n = from.letters.min(65536);
    let mut cur = at;
    while cur.members == 0 && cur.x < n {
        cur = at_letter(from, cur.x);
    }
    cur
}

// The next goal of a row and where the goals then stand, or none; and that it is the first of those to come: this follows from the whole
// answer, and is what callers need.
#[tactic(auto, using(crate::proofs::Laws::rest_none), unfolding(crate::specs::Next::taken, crate::specs::Rest::rest_of))]
pub fn next_goal(from: Source, at: Cursor) -> Option<(Row, Cursor)>
    ensures whole { NextGoalIs from at result }
    ensures first { rest_of from result ≡ rest from at }
{
    let here = at_goal(from, at);
    let members = here.members;
    if members == 0 {
        return None;
    }
    let j = lowest(members);
    let goal = Row {
        set: here.set,
        parent: from.parent,
        letter: here.letter,
        place: j,
    };
    let next = Cursor {
        members: members ^ (members & bits::single(j as u64)),
        ..here
    };
    Some((goal, next))
}
