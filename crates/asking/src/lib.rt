// Both sides of a comparison by value, as every call takes them: made of two tables, or handed in by anybody.
#![tactic(auto)]

ghost use Rattle.std.specs.Prelude.{◌≡◌, not, eqb};
ghost use Rattle.effect.specs.Refusals.{number_in, rule, some_below};
ghost use Rattle.places.specs.Readings.{followers};
ghost use Rattle.goals.specs.Refusals.{given, left_of, right_of, first, side_rules};
ghost use Rattle.asking.specs.Asked.{unless_refused, naming, strays, side_impossible};
ghost use Rattle.asking.specs.Promises.{BothIs, AskIs, SideImpossibleIs, WhyNotIs};

use effect::Refusal;
use goals::{SideRefusal, Which};
use places::Side;

// Both sides as a call takes them, or why there are none (number 0: there are).
#[derive(Clone, Copy)]
pub struct Asked {
    pub why: SideRefusal,
    pub left: Side,
    pub right: Side,
}

// A refusal that names both sides.
#[tactic(auto, unfolding(crate::specs::Asked::which_of))]
pub fn both(number: u8) -> SideRefusal
    ensures { BothIs number result }
{
    SideRefusal {
        side: Which::Both,
        number,
    }
}

// The answer of one side, or of both: its refusal names it.
fn naming<T>(side: Which, answer: Result<T, Refusal>) -> Result<T, SideRefusal>
    ensures { result ≡ naming side answer }
{
    answer.map_err(|why| SideRefusal {
        side,
        number: why.number(),
    })
}

// Refusal 14: the two s differ.
fn same_signals(ls: u8, rs: u8) -> Result<(), Refusal>
    ensures { number_in result ≡ rule 14 (not (eqb ls rs)) }
{
    if ls != rs {
        return Err(Refusal::SignalsDiffer);
    }
    Ok(())
}

// Both sides of two tables, or why not (2, 3, 7 to 12 of the left, then of the right; 14).
fn sides_of(ls: u8, left: &[u32], rs: u8, right: &[u32]) -> Result<(Side, Side), SideRefusal>
    ensures { let g = given ls left.now rs right.now in result ≡ unless_refused (first (side_rules g)) (left_of g, right_of g) }
{
    let on_left = naming(Which::Left, places::prepare(ls, left))?;
    let on_right = naming(Which::Right, places::prepare(rs, right))?;
    naming(Which::Both, same_signals(ls, rs))?;
    Ok((on_left, on_right))
}

// Makes both sides of two tables, or says why not. With a refusal both are the side of nothing, so that no call can take a side of tables
// that do not go together.
pub fn ask(ls: u8, left: &[u32], rs: u8, right: &[u32]) -> Asked
    ensures { AskIs (given ls left.now rs right.now) result }
{
    match sides_of(ls, left, rs, right) {
        Ok((left, right)) => Asked {
            why: both(0),
            left,
            right,
        },
        Err(why) => Asked {
            why,
            left: places::no_side(),
            right: places::no_side(),
        },
    }
}

// Whether a follow set names 0 or a place above the count.
fn strays(count: u8, set: u64) -> bool
    ensures { result ≡ strays count set }
{
    bits::has(set, 0) | !bits::within(set, count as u64 + 1)
}

// Whether one of the follow sets does. Each is looked at, with no branch: that takes less time than to stop at the first.
fn some_strays(side: &Side) -> bool
    ensures { result ≡ some_below 64 (λ j. strays side.now.count (followers side.now j)) }
{
    let mut found = false;
    for set in &side.follow {
        found |= strays(side.count, *set);
    }
    found
}

// Refusal 24 of a side that anybody may have made.
#[tactic(auto, unfolding(crate::specs::Asked::side_impossible))]
pub fn side_impossible(side: Side) -> bool
    ensures { SideImpossibleIs side result }
{
    8 < side.s
        || 63 < side.count
        || !bits::within(side.accepts, side.count as u64 + 1)
        || some_strays(&side)
}

// The same as an answer.
fn refusal_24(side: Side) -> Result<(), Refusal>
    ensures { number_in result ≡ rule 24 (side_impossible side) }
{
    if side_impossible(side) {
        return Err(Refusal::SideImpossible);
    }
    Ok(())
}

// Why a call refuses its two sides: what is known of them already, then 24 of the left and of the right, then 14.
pub fn why_not(asked: Asked) -> Result<(), SideRefusal>
    ensures { WhyNotIs asked result }
{
    if asked.why.number != 0 {
        return Err(asked.why);
    }
    naming(Which::Left, refusal_24(asked.left))?;
    naming(Which::Right, refusal_24(asked.right))?;
    naming(Which::Both, same_signals(asked.left.s, asked.right.s))
}
