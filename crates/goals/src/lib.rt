// Goals: the row and the record of a run, and what the rules ask of one goal, one row and one record.
#![tactic(auto)]

ghost use Rattle.goals.specs.Promises.{SameGoalIs, BadIs, FollowersAtIs, SpreadOfIs, RecordImpossibleIs, RowZeroImpossibleIs, RowImpossibleIs};
ghost use Rattle.goals.specs.Promises.{LesserIs, ShortestIs, RoomOfIs};

use places::Side;

// A goal: a left place and a set of right places (bit j for place j). Two goals are one where both are.
#[derive(Clone, Copy, PartialEq, Eq, Debug)]
pub struct Goal {
    pub place: u8,
    pub set: u64,
}

// A row of the goal table: a left place, a set of right places (bit j for place j), the row that it was entered from and
// the letter that led here.
#[derive(Clone, Copy, PartialEq, Eq, Debug)]
pub struct Row {
    pub set: u64,
    pub parent: u16,
    pub letter: u16,
    pub place: u8,
}

// How a run stands. A record holds the number, since anybody may hand in any record.
#[derive(Clone, Copy, PartialEq, Eq, Debug)]
pub enum Outcome {
    Open = 0,
    Included = 1,
    Refuted = 2,
    NoRoom = 3,
}

// The record of a run. Its outcome is the number of an `Outcome`; another is refusal 16.
#[derive(Clone, Copy, PartialEq, Eq, Debug)]
pub struct Run {
    pub settled: u32,
    pub used: u32,
    pub outcome: u8,
}

// The side that a refusal names.
#[derive(Clone, Copy, PartialEq, Eq, Debug)]
pub enum Which {
    Left,
    Right,
    Both,
}

// Why a comparison was refused: document 01's number, and the side that it names.
#[derive(Clone, Copy, PartialEq, Eq, Debug)]
pub struct SideRefusal {
    pub side: Which,
    pub number: u8,
}

// Whether two goals are one.
pub fn same_goal(a: Goal, b: Goal) -> bool
    ensures { SameGoalIs a b result }
{
    a == b
}

// Whether a goal is bad: its left place accepts and no member of its set does. `left` and `right` are the places that accept.
#[tactic(auto, unfolding(crate::specs::Goals::bad_goal))]
pub fn is_bad(left: u64, right: u64, goal: Goal) -> bool
    ensures { BadIs left right goal result }
{
    bits::has(left, goal.place as u64) && goal.set & right == 0
}

// The places that may follow place j; none past the end.
pub fn followers_at(follow: [u64; 64], j: usize) -> u64
    ensures { FollowersAtIs follow j result }
{
    follow.get(j).copied().unwrap_or(0)
}

// The places that follow a member of the set.
pub fn spread_of(side: Side, set: u64) -> u64
    ensures { SpreadOfIs side set result }
{
    let mut spread = 0;
    for (n, ahead) in side.follow.iter().enumerate() {
        if bits::has(set, n as u64) {
            spread |= *ahead;
        }
    }
    spread
}

// Refusal 16 of a record in a room: its counts and its outcome.
#[tactic(auto, unfolding(crate::specs::Refusals::record_impossible))]
pub fn record_impossible(room: usize, held: Run) -> bool
    ensures { RecordImpossibleIs room held result }
{
    let Run {
        settled,
        used,
        outcome,
    } = held;
    used == 0
        || room < used as usize
        || used < settled
        || outcome > Outcome::NoRoom as u8
        || settled == used && outcome != Outcome::Included as u8
        || settled < used && outcome == Outcome::Included as u8
}

// Refusal 16 of row 0: it is not as start wrote it.
#[tactic(auto, unfolding(crate::specs::Refusals::row_zero_impossible))]
pub fn row_zero_impossible(w: Row) -> bool
    ensures { RowZeroImpossibleIs w result }
{
    w != Row {
        set: 1,
        parent: 0,
        letter: 0,
        place: 0,
    }
}

// Refusal 16 of another row i: s signals, m instants on the left and k on the right.
#[tactic(auto, unfolding(crate::specs::Refusals::row_impossible))]
pub fn row_impossible(s: u8, m: u8, k: u8, i: usize, w: Row) -> bool
    ensures { RowImpossibleIs s m k i w result }
{
    w.place == 0
        || m < w.place
        || bits::has(w.set, 0)
        || !bits::within(w.set, k as u64 + 1)
        || i <= w.parent as usize
        || !bits::within(w.letter as u64, s as u64)
}

// The lesser of two numbers.
pub fn lesser(a: usize, b: usize) -> usize
    ensures { LesserIs a b result }
{
    a.min(b)
}

// How many rows are lent: as many as the caller says, and no more than the shortest column has.
pub fn shortest(lent: usize, places: usize, sets: usize, parents: usize, letters: usize) -> usize
    ensures { ShortestIs lent places sets parents letters result }
{
    lent.min(places).min(sets).min(parents).min(letters)
}

// The room of that many rows lent.
#[tactic(auto, unfolding(crate::specs::Refusals::room_of))]
pub fn room_of(lent: usize) -> usize
    ensures { RoomOfIs lent result }
{
    lent.min(65535)
}
