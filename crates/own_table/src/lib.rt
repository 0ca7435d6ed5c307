// The calls on rows for a program: on a table of its own, which is made of columns and put back into them.
#![tactic(auto)]

ghost use Rattle.std.specs.Prelude.{◌≡◌, ◌≤◌, min, length, take};
ghost use Rattle.columns.specs.Calls.{lent_in, rows_in};
ghost use Rattle.columns.specs.Tables.{of_table, of_view, Same};
ghost use Rattle.own_table.specs.Tables.{CallsTable, TracesTable};

use asking::Asked;
use columns::{Table, View};
use compare::{Work, call, trace_asked};
use goals::{Row, Run, SideRefusal};

// As many rows as a table of one's own has.
const ROWS: usize = 65536;

// A table of one's own before any row is written.
const NO_ROWS: [Row; ROWS] = [Row {
    set: 0,
    parent: 0,
    letter: 0,
    place: 0,
}; ROWS];

// Start, or a run call, on a table that is made of the columns, and put back into them.
pub fn call_table(
    asked: Asked,
    table: &mut Table<'_>,
    held: &mut Run,
    work: Work,
) -> Result<(), SideRefusal>
    ensures calls { CallsTable work asked table.old.lent (of_table table.old) held.old result held.new (of_table table.new) }
    ensures same { Same table.old table.new }
{
    let mut rows = NO_ROWS;
    let n = table.view().rows().min(ROWS);
    table.view().give_rows(n, &mut rows);
    let answer = call(asked, &mut rows[..n], held, work);
    table.take_rows(&rows[..n]);
    answer
}

// Trace on a table that is made of the columns.
pub fn trace_table(
    asked: Asked,
    view: &View<'_>,
    held: &Run,
    out: &mut [u8],
) -> Result<usize, SideRefusal>
    ensures { TracesTable asked view.now.lent (of_view view.now) held.now out.old result out.new }
{
    let mut rows = NO_ROWS;
    let n = view.rows().min(ROWS);
    view.give_rows(n, &mut rows);
    trace_asked(asked, &rows[..n], held, out)
}
