// The calls as a caller makes them, on a lent table of rows and a lent record: thin functions above the calls on columns. The used
// rows are loaded into columns, the core is called, and the rows that are then used are stored again at the front of the table.
#![tactic(auto)]

ghost use Rattle.std.specs.Prelude.{◌≡◌, min};
ghost use Rattle.goals.specs.Refusals.{given, room_of};
ghost use Rattle.columns.specs.Calls.{tracing};
ghost use Rattle.columns.specs.Tables.{of_table, Same};
ghost use Rattle.demands.specs.Calls.{lent, Starts, Runs, Traces};
ghost use Rattle.compare.specs.Calls.{answered, Works, TracesAsked};
ghost use Rattle.compare.specs.Core.{to_load, WorksIn};

use asking::{Asked, ask};
use columns::{Table, run_on, start_on, trace_on};
use goals::{Row, Run, SideRefusal};

// What a call is to do: begin a run, or go on with one for at most so many steps.
#[derive(Clone, Copy, PartialEq, Eq, Debug)]
pub enum Work {
    Start,
    Run(u64),
}

// How many rows are used: those that the record says are, and no more than the room has.
fn used_within(used: u32, lent: usize) -> usize
    ensures { result ≡ min (room_of lent) used }
{
    goals::lesser(goals::room_of(lent), used as usize)
}

// How many rows are loaded: none for start; else those that the record says are used, and no more than the room has.
fn to_load(work: Work, used: u32, lent: usize) -> usize
    ensures { result ≡ to_load work used lent }
{
    match work {
        Work::Start => 0,
        Work::Run(_) => used_within(used, lent),
    }
}

// The call on columns.
fn call_columns(
    asked: Asked,
    table: &mut Table<'_>,
    held: Run,
    work: Work,
) -> Result<Run, SideRefusal>
    ensures works { WorksIn work asked table.old.lent (of_table table.old) held result (of_table table.new) }
    ensures same { Same table.old table.new }
{
    match work {
        Work::Start => start_on(asked, table),
        Work::Run(budget) => run_on(asked, table, held, budget),
    }
}

// One call on lent rows and a lent record: loads the rows that it needs, makes the call on columns, and stores the rows then used.
pub fn call(asked: Asked, rows: &mut [Row], held: &mut Run, work: Work) -> Result<(), SideRefusal>
    ensures { Works work asked (lent rows.old held.old) (answered result) (lent rows.new held.new) }
{
    let mut places: [u8; 65535] = [0; 65535];
    let mut sets: [u64; 65535] = [0; 65535];
    let mut parents: [u16; 65535] = [0; 65535];
    let mut letters: [u16; 65535] = [0; 65535];
    let n = to_load(work, held.used, rows.len());
    let mut table = Table {
        lent: rows.len(),
        places: &mut places,
        sets: &mut sets,
        parents: &mut parents,
        letters: &mut letters,
    };
    table.take_rows(&rows[..n]);
    let called = call_columns(asked, &mut table, *held, work);
    let run = called?;
    table.view().give_rows(run.used as usize, rows);
    *held = run;
    Ok(())
}

// Trace on lent rows and a lent record: loads the used rows, and makes the call on columns.
pub fn trace_asked(
    asked: Asked,
    rows: &[Row],
    held: &Run,
    out: &mut [u8],
) -> Result<usize, SideRefusal>
    ensures { TracesAsked asked (lent rows.now held.now) out.old (tracing result) out.new }
{
    let mut places: [u8; 65535] = [0; 65535];
    let mut sets: [u64; 65535] = [0; 65535];
    let mut parents: [u16; 65535] = [0; 65535];
    let mut letters: [u16; 65535] = [0; 65535];
    let n = used_within(held.used, rows.len());
    let mut table = Table {
        lent: rows.len(),
        places: &mut places,
        sets: &mut sets,
        parents: &mut parents,
        letters: &mut letters,
    };
    table.take_rows(&rows[..n]);
    trace_on(asked, &table.view(), *held, out)
}

// Begins a run: writes row 0 and the record.
pub fn start(
    ls: u8,
    left: &[u32],
    rs: u8,
    right: &[u32],
    rows: &mut [Row],
    held: &mut Run,
) -> Result<(), SideRefusal>
    ensures { Starts (given ls left.now rs right.now) (lent rows.old held.old) (answered result) (lent rows.new held.new) }
{
    let asked = ask(ls, left, rs, right);
    call(asked, rows, held, Work::Start)
}

// Goes on with a run for at most `budget` steps.
pub fn run(
    ls: u8,
    left: &[u32],
    rs: u8,
    right: &[u32],
    rows: &mut [Row],
    held: &mut Run,
    budget: u64,
) -> Result<(), SideRefusal>
    ensures { Runs (given ls left.now rs right.now) (lent rows.old held.old) budget (answered result) (lent rows.new held.new) }
{
    let asked = ask(ls, left, rs, right);
    call(asked, rows, held, Work::Run(budget))
}

// Writes the letters from row 0 to the refuted row, and answers how many.
pub fn trace(
    ls: u8,
    left: &[u32],
    rs: u8,
    right: &[u32],
    rows: &[Row],
    held: &Run,
    out: &mut [u8],
) -> Result<usize, SideRefusal>
    ensures { Traces (given ls left.now rs right.now) (lent rows.now held.now) out.old (tracing result) out.new }
{
    let asked = ask(ls, left, rs, right);
    trace_asked(asked, rows, held, out)
}
