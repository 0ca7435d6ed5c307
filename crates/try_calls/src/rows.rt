// The columns of a table, row by row. A row may lie beyond the end of some column.
use crate::print;
use columns::Table;
use goals::Row;
use std::ops::Range;
use std::{fmt, io};

// Entry i of a column, 0 past its end.
fn at<T: Copy + Default>(column: &[T], i: usize) -> T {
    column.get(i).copied().unwrap_or_default()
}

// A set of places, in print.
#[derive(Clone, Copy)]
struct Set(u64);

impl fmt::Display for Set {
    fn fmt<W: fmt::Write>(&self, f: &mut fmt::Formatter<W>) -> fmt::Result {
        write!(f, "{:016x}", self.0)
    }
}

// A row's number in a column; '-' where the column has no such row.
fn show_entry(rt: &impl Print, x: Option<impl fmt::Display + Drop>) -> io::Result<()> {
    match x {
        Some(x) => print::named(rt, " ", x),
        None => print!(rt; " -"),
    }
}

// Makes these entries of a column x, where it has them.
fn fill_column<T: Copy>(column: &mut [T], rows: &Range<usize>, x: T) {
    for entry in column.iter_mut().take(rows.end).skip(rows.start) {
        *entry = x;
    }
}

// Makes these rows this one.
pub(crate) fn fill(table: &mut Table<'_>, rows: Range<usize>, row: Row) {
    fill_column(table.places, &rows, row.place);
    fill_column(table.sets, &rows, row.set);
    fill_column(table.parents, &rows, row.parent);
    fill_column(table.letters, &rows, row.letter);
}

// The row before row i, 0 where a column has none. Row 0 is its own.
pub(crate) fn before(table: &Table<'_>, i: usize) -> Row {
    let j = i.saturating_sub(1);
    Row {
        set: at(table.sets, j),
        parent: at(table.parents, j),
        letter: at(table.letters, j),
        place: at(table.places, j),
    }
}

fn show_row(rt: &impl Print, table: &Table<'_>, i: usize) -> io::Result<()> {
    print::named(rt, "row ", i)?;
    print!(rt; ":")?;
    show_entry(rt, table.places.get(i))?;
    show_entry(rt, table.sets.get(i).map(|set| Set(*set)))?;
    show_entry(rt, table.parents.get(i))?;
    show_entry(rt, table.letters.get(i))?;
    println!(rt)
}

// These rows, a line each.
pub(crate) fn show(rt: &impl Print, table: &Table<'_>, rows: Range<usize>) -> io::Result<()> {
    for i in rows {
        show_row(rt, table, i)?;
    }
    Ok(())
}
