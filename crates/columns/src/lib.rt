// The run on number slices: start, run and trace on parallel columns of rows.
#![tactic(auto)]

ghost use Rattle.std.specs.Prelude.{◌≡◌, ◌&&◌, not, cond, [], ℕ, ◌+◌, ◌<◌, ◌≤◌, eqb, length, get_or, min, take};
ghost use Rattle.bits.specs.Bit.{has};
ghost use Rattle.effect.specs.Refusals.{some_below, front};
ghost use Rattle.goals.specs.Goals.{enter, enter_all, known};
ghost use Rattle.goals.specs.Run.{step, steps, run};
ghost use Rattle.goals.specs.Refusals.{room_of, row_impossible, impossible};
ghost use Rattle.stepping.specs.Rest.{all_goals};
ghost use Rattle.columns.specs.Calls.{row_at, rows_in, put, lent_in, state_of, Starts, Runs, Traces};
ghost use Rattle.columns.specs.Tables.{of_table, of_view, Same, ViewIs, RowsIs, with_row, in_all, TakesRows, GivesRows};
ghost use Rattle.columns.specs.Core.{Fits, Enters, entering, used_of, full_of, sides_of, source_of, Ready, Steps, Runnable, Rooted, climb, MayRun};

use asking::{Asked, both};
use effect::Refusal;
use goals::{Goal, Outcome, Row, Run, SideRefusal};
use places::{Naming, Side};
use stepping::{Cursor, Source, next_goal};

// The rows as a caller lends them: a column for each of place, set, parent and letter, and how many rows of them are lent.
#[derive(Drop)]
pub struct Table<'a> {
    pub lent: usize,
    pub places: &'a mut [u8],
    pub sets: &'a mut [u64],
    pub parents: &'a mut [u16],
    pub letters: &'a mut [u16],
}

// The same to read.
#[derive(Clone, Copy)]
pub struct View<'a> {
    pub lent: usize,
    pub places: &'a [u8],
    pub sets: &'a [u64],
    pub parents: &'a [u16],
    pub letters: &'a [u16],
}

impl Table<'_> {
    // The table to read.
    pub fn view(&self) -> View<'_>
        ensures { ViewIs self.now.lent (of_table self.now) result.lent (of_view result) }
    {
        View {
            lent: self.lent,
            places: self.places,
            sets: self.sets,
            parents: self.parents,
            letters: self.letters,
        }
    }

    // Writes row i.
    fn set(&mut self, i: usize, row: Row)
        requires { in_all i (of_table self.old) }
        ensures row { of_table self.new ≡ with_row (of_table self.old) i row }
        ensures same { Same self.old self.new }
    {
        self.places[i] = row.place;
        self.sets[i] = row.set;
        self.parents[i] = row.parent;
        self.letters[i] = row.letter;
    }

    // Puts rows at the front, as many as there are and the table has.
    pub fn take_rows(&mut self, rows: &[Row])
        ensures rows { TakesRows self.old.lent (of_table self.old) rows.now (of_table self.new) }
        ensures same { Same self.old self.new }
    {
        let n = self.view().rows().min(rows.len());
        for (i, row) in rows[..n].iter().enumerate() {
            self.set(i, *row);
        }
    }
}

impl View<'_> {
    // How many rows are lent: as many as the caller says, and no more than the shortest column has.
    pub fn rows(&self) -> usize
        ensures { RowsIs self.now.lent (of_view self.now) result }
    {
        goals::shortest(
            self.lent,
            self.places.len(),
            self.sets.len(),
            self.parents.len(),
            self.letters.len(),
        )
    }

    // Row i.
    fn row(&self, i: usize) -> Row
        requires { in_all i (of_view self.now) }
        ensures { result ≡ row_at (of_view self.now) i }
    {
        Row {
            set: self.sets[i],
            parent: self.parents[i],
            letter: self.letters[i],
            place: self.places[i],
        }
    }

    // Puts the first n rows at the front of a list of rows, and no more than are lent or it has.
    pub fn give_rows(&self, n: usize, rows: &mut [Row])
        ensures { GivesRows n self.now.lent (of_view self.now) rows.old rows.new }
    {
        let n = n.min(self.rows()).min(rows.len());
        for (i, row) in rows[..n].iter_mut().enumerate() {
            *row = self.row(i);
        }
    }

    // Whether one of the first `used` rows has the place and set of this row.
    fn is_known(&self, used: usize, row: Row) -> bool
        requires { (used ≤ length self.now.places.now) × (used ≤ length self.now.sets.now) }
        ensures { result ≡ known row (rows_in (of_view self.now) used) }
    {
        let wanted = Goal {
            place: row.place,
            set: row.set,
        };
        for i in 0..used {
            let goal = Goal {
                place: self.places[i],
                set: self.sets[i],
            };
            if goals::same_goal(goal, wanted) {
                return true;
            }
        }
        false
    }
}

// What is left of a goal that finds no room: how many rows are used.
#[derive(Clone, Copy)]
struct NoRoom {
    used: usize,
}

// The letters of a call, worked out once: s signals, and for each side which places name a signal.
#[derive(Clone, Copy)]
struct Letters {
    s: u8,
    left: Naming,
    right: Naming,
}

// Both sides of a call, and its letters.
#[derive(Clone, Copy)]
struct Sides {
    left: Side,
    right: Side,
    letters: Letters,
}

// Enters a goal: a used row has it, or it is added at the end, or there is no room. Answers how many rows are used then.
fn enter_goal(table: &mut Table<'_>, used: usize, room: usize, goal: Row) -> Result<usize, NoRoom>
    requires { Fits (of_table table.old) used room }
    ensures entered { let c = of_table table.old in Enters c (of_table table.new) (enter room goal (entering (rows_in c used))) result }
    ensures same { Same table.old table.new }
{
    if table.view().is_known(used, goal) {
        return Ok(used);
    }
    if used == room {
        return Err(NoRoom { used });
    }
    table.set(used, goal);
    Ok(used + 1)
}

// Enters the goals of a row, one after the other, until one finds no room.
fn enter_goals(
    table: &mut Table<'_>,
    used: usize,
    room: usize,
    from: Source,
) -> Result<usize, NoRoom>
    requires { Fits (of_table table.old) used room }
    ensures entered { let c = of_table table.old in Enters c (of_table table.new) (enter_all room (all_goals from) (entering (rows_in c used))) result }
    ensures same { Same table.old table.new }
{
    let mut u = used;
    let mut cur = Cursor {
        x: 0,
        letter: 0,
        set: 0,
        members: 0,
    };
    while let Some((goal, next)) = next_goal(from, cur) {
        u = enter_goal(table, u, room, goal)?;
        cur = next;
    }
    Ok(u)
}

// The record once the goals of row r are entered.
fn settled(r: u32, entered: Result<usize, NoRoom>) -> Run
    requires { (used_of entered < 65536) × (r < 65536) }
    ensures { let settled : ℕ = cond (full_of entered) r (r + 1) in
        let outcome : ℕ = cond (full_of entered) 3 (cond (eqb (r + 1) (used_of entered)) 1 0) in
        (result.used ≡ used_of entered) × (result.settled ≡ settled) × (result.outcome ≡ outcome) }
{
    match entered {
        Err(NoRoom { used }) => Run {
            settled: r,
            used: used as u32,
            outcome: Outcome::NoRoom as u8,
        },
        Ok(used) => Run {
            settled: r + 1,
            used: used as u32,
            outcome: if r + 1 == used as u32 {
                Outcome::Included as u8
            } else {
                Outcome::Open as u8
            },
        },
    }
}

// Both sides with the letters of a call on them.
fn sides_of(left: Side, right: Side) -> Sides
    ensures { result ≡ sides_of left right }
{
    Sides {
        left,
        right,
        letters: Letters {
            s: left.s,
            left: places::naming_of(left),
            right: places::naming_of(right),
        },
    }
}

// What the goals of row r are made of, whose place and set these are.
fn source_of(sides: &Sides, place: u8, set: u64, r: usize) -> Source
    requires { (sides.now.letters.s ≤ 16) × (r < 65536) }
    ensures { result ≡ source_of sides.now.left sides.now.right sides.now.letters place set r }
{
    let letters = sides.letters;
    Source {
        s: letters.s,
        letters: 1 << (letters.s as u32),
        left: letters.left,
        right: letters.right,
        follow: goals::followers_at(sides.left.follow, place as usize),
        spread: goals::spread_of(sides.right, set),
        parent: r as u16,
    }
}

// One step of a run: row `settled` is bad, or its goals are entered.
fn step_on(table: &mut Table<'_>, room: usize, sides: &Sides, run: Run) -> Run
    requires { Ready (of_table table.old) room sides.now.left sides.now.right sides.now.letters run }
    ensures steps { let c = of_table table.old in Steps c (of_table table.new) (step sides.now.left sides.now.right room (state_of c run)) result }
    ensures same { Same table.old table.new }
{
    let r = run.settled as usize;
    let w = table.view().row(r);
    let goal = Goal {
        place: w.place,
        set: w.set,
    };
    if goals::is_bad(sides.left.accepts, sides.right.accepts, goal) {
        return Run {
            outcome: Outcome::Refuted as u8,
            ..run
        };
    }
    let from = source_of(sides, w.place, w.set, r);
    let entered = enter_goals(table, run.used as usize, room, from);
    settled(run.settled, entered)
}

// At most `budget` steps, up to the first that leaves the run other than open.
fn steps_on(table: &mut Table<'_>, room: usize, sides: &Sides, run: Run, budget: u64) -> Run
    requires { Ready (of_table table.old) room sides.now.left sides.now.right sides.now.letters run }
    ensures steps { let c = of_table table.old in Steps c (of_table table.new) (steps sides.now.left sides.now.right room budget (state_of c run)) result }
    ensures same { Same table.old table.new }
{
    let mut cur = run;
    for _b in 0..budget {
        let next = step_on(table, room, sides, cur);
        if next.outcome != Outcome::Open as u8 {
            return next;
        }
        cur = next;
    }
    cur
}

// A run call on two sides: a decided run stays, and any other goes on.
fn run_sides(
    table: &mut Table<'_>,
    room: usize,
    left: Side,
    right: Side,
    held: Run,
    budget: u64,
) -> Run
    requires { Runnable (of_table table.old) room left right held }
    ensures steps { let c = of_table table.old in Steps c (of_table table.new) (run left right room budget (state_of c held)) result }
    ensures same { Same table.old table.new }
{
    if held.outcome == Outcome::Included as u8 {
        return held;
    }
    if held.outcome == Outcome::Refuted as u8 {
        return held;
    }
    let sides = sides_of(left, right);
    steps_on(table, room, &sides, held, budget)
}

// Refusal 16 of the used rows but row 0.
fn some_row_impossible(view: &View<'_>, used: usize, s: u8, m: u8, k: u8) -> bool
    requires { Fits (of_view view.now) 1 used }
    ensures { result ≡ some_below used (λ i. not (eqb i 0) && row_impossible s m k i (row_at (of_view view.now) i)) }
{
    for i in 1..used {
        if goals::row_impossible(s, m, k, i, view.row(i)) {
            return true;
        }
    }
    false
}

// Refusal 16 of a record and its rows.
fn is_impossible(view: &View<'_>, room: usize, s: u8, m: u8, k: u8, held: Run) -> bool
    requires { Fits (of_view view.now) 0 room }
    ensures { result ≡ impossible s m k room (rows_in (of_view view.now) held.used) held }
{
    if goals::record_impossible(room, held) {
        return true;
    }
    if goals::row_zero_impossible(view.row(0)) {
        return true;
    }
    some_row_impossible(view, held.used as usize, s, m, k)
}

// Begins a run: writes row 0 and answers the record.
pub fn start_on(asked: Asked, table: &mut Table<'_>) -> Result<Run, SideRefusal>
    ensures starts { Starts asked table.old.lent (of_table table.old) result (of_table table.new) }
    ensures same { Same table.old table.new }
{
    asking::why_not(asked)?;
    if table.view().rows() == 0 {
        return Err(both(Refusal::NoRows as u8));
    }
    table.set(
        0,
        Row {
            place: 0,
            set: 1,
            parent: 0,
            letter: 0,
        },
    );
    Ok(Run {
        settled: 0,
        used: 1,
        outcome: Outcome::Open as u8,
    })
}

// Whether run and trace go on: not with sides that are refused, nor with a record or rows that are impossible (16).
fn may_run(sides: Asked, view: &View<'_>, held: Run) -> Result<(), SideRefusal>
    ensures { MayRun sides (lent_in view.now.lent (of_view view.now)) (rows_in (of_view view.now) held.used) held result }
{
    asking::why_not(sides)?;
    let room = goals::room_of(view.rows());
    if is_impossible(
        view,
        room,
        sides.left.s,
        sides.left.count,
        sides.right.count,
        held,
    ) {
        return Err(both(Refusal::RunImpossible as u8));
    }
    Ok(())
}

// Goes on with a run for at most `budget` steps.
pub fn run_on(
    asked: Asked,
    table: &mut Table<'_>,
    run: Run,
    budget: u64,
) -> Result<Run, SideRefusal>
    ensures runs { Runs asked table.old.lent (of_table table.old) run budget result (of_table table.new) }
    ensures same { Same table.old table.new }
{
    may_run(asked, &table.view(), run)?;
    let room = goals::room_of(table.view().rows());
    Ok(run_sides(table, room, asked.left, asked.right, run, budget))
}

// How many rows the way from row 0 to a row has, itself counted and row 0 not.
fn trace_length(parents: &[u16], used: usize, row: usize) -> usize
    requires { (row < used) × (used ≤ 65535) × (used ≤ length parents.now) × Rooted parents.now used }
    ensures { result ≡ length (climb parents.now [] row row) }
{
    let mut i = row;
    let mut n: usize = 0;
    while i != 0 {
        i = parents[i] as usize;
        n += 1;
    }
    n
}

// Writes the n letters from row 0 to a row at the front of the buffer, the last letter first.
fn put_trace(parents: &[u16], letters: &[u16], used: usize, row: usize, n: usize, out: &mut [u8])
    requires rows { (row < used) × (used ≤ length parents.now) × (used ≤ length letters.now) × Rooted parents.now used }
    requires bytes { (i : ℕ) → i < used → get_or letters.now i 0 < 256 }
    requires long { (n ≡ length (climb parents.now letters.now row row)) × (n ≤ length out.old) }
    ensures { out.new ≡ front (climb parents.now letters.now row row) out.old }
{
    let mut i = row;
    let mut k = n;
    while i != 0 {
        k -= 1;
        out[k] = letters[i] as u8;
        i = parents[i] as usize;
    }
}

// Writes the letters from row 0 to the refuted row, and answers how many.
pub fn trace_on(
    asked: Asked,
    view: &View<'_>,
    run: Run,
    out: &mut [u8],
) -> Result<usize, SideRefusal>
    ensures { Traces asked view.now.lent (of_view view.now) run out.old result out.new }
{
    may_run(asked, view, run)?;
    if run.outcome != Outcome::Refuted as u8 {
        return Err(both(Refusal::NotRefuted as u8));
    }
    let used = run.used as usize;
    let row = run.settled as usize;
    let n = trace_length(view.parents, used, row);
    if out.len() < n {
        return Err(both(Refusal::BufferTooShort as u8));
    }
    put_trace(view.parents, view.letters, used, row, n, out);
    Ok(n)
}
