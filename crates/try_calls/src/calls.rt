// The calls of a record, and the line of each answer.
use crate::forge::{self, Field};
use crate::{hex, print, rows};
use asking::Asked;
use columns::{Table, run_on, start_on, trace_on};
use compare::Work;
use goals::{Row, Run, SideRefusal};
use own_table::{call_table, trace_table};
use std::io;
use std::ops::Range;

// What a call is made on besides the table: both sides, and the record of the run.
#[derive(Clone, Copy)]
pub(crate) struct State {
    pub(crate) asked: Asked,
    pub(crate) run: Run,
}

// Whether a call is made on the columns, or on a table of rows that is made of them.
#[derive(Clone, Copy)]
enum On {
    Columns,
    Rows,
}

// What a call of a record is; main.rt says what each does.
#[derive(Drop)]
enum Call {
    Work(On, Work),
    Trace(On, u16),
    ForgeRecord(Run),
    ForgeRow(u16, Row),
    RepeatRow(Range<usize>),
    Lend(usize),
    Show(Range<usize>),
    ForgeLeft(Option<Field>),
    ForgeRight(Option<Field>),
    ForgeWhy(SideRefusal),
    Bad,
}

// The row that is forged: parent and letter stand in one number.
fn row_of(place: u8, set: u64, both: u32) -> Row {
    let [p1, p0, x1, x0] = both.to_be_bytes();
    Row {
        set,
        parent: u16::from_be_bytes([p1, p0]),
        letter: u16::from_be_bytes([x1, x0]),
        place,
    }
}

// The call of four numbers.
fn call_of([head, a, b, c]: [u32; 4]) -> Call {
    let [kind, byte, high, low] = head.to_be_bytes();
    let short = u16::from_be_bytes([high, low]);
    let ab = hex::eight(a, b);
    let rows = a as usize..b as usize;
    match kind {
        0 => Call::Work(On::Columns, Work::Start),
        1 => Call::Work(On::Columns, Work::Run(ab)),
        2 => Call::Trace(On::Columns, short),
        3 => Call::ForgeRecord(Run {
            settled: a,
            used: b,
            outcome: byte,
        }),
        4 => Call::ForgeRow(short, row_of(byte, ab, c)),
        5 => Call::RepeatRow(rows),
        6 => Call::Lend(ab as usize),
        7 => Call::Show(rows),
        8 => Call::Work(On::Rows, Work::Start),
        9 => Call::Work(On::Rows, Work::Run(ab)),
        10 => Call::Trace(On::Rows, short),
        11 if high == 0 => Call::ForgeLeft(Field::of(byte, low, ab)),
        11 => Call::ForgeRight(Field::of(byte, low, ab)),
        12 => Call::ForgeWhy(forge::why(short, byte)),
        _ => Call::Bad,
    }
}

impl State {
    // Starts, or goes on with a run. With a refusal the record stays as it is.
    fn work(&mut self, table: &mut Table<'_>, on: On, work: Work) -> Result<(), SideRefusal> {
        match (on, work) {
            (On::Columns, Work::Start) => self.run = start_on(self.asked, table)?,
            (On::Columns, Work::Run(budget)) => {
                self.run = run_on(self.asked, table, self.run, budget)?;
            }
            (On::Rows, _) => call_table(self.asked, table, &mut self.run, work)?,
        }
        Ok(())
    }

    fn show_work(
        &mut self,
        rt: &impl Print,
        table: &mut Table<'_>,
        on: On,
        work: Work,
    ) -> io::Result<()> {
        let answer = self.work(table, on, work);
        match work {
            Work::Start => print!(rt; "start")?,
            Work::Run(_) => print!(rt; "run")?,
        }
        match answer {
            Ok(()) => print::run(rt, self.run)?,
            Err(why) => print::refused(rt, why)?,
        }
        println!(rt)
    }

    // The letters are written to a buffer of so many bytes, ee in each beforehand. None has more than 512.
    fn show_trace(&self, rt: &impl Print, table: &Table<'_>, on: On, room: u16) -> io::Result<()> {
        let mut buffer = [0xee; 512];
        let Some(out) = buffer.get_mut(..room as usize) else {
            return println!(rt; "bad call");
        };
        let view = table.view();
        let answer = match on {
            On::Columns => trace_on(self.asked, &view, self.run, out),
            On::Rows => trace_table(self.asked, &view, &self.run, out),
        };
        print!(rt; "trace")?;
        match answer {
            Ok(length) => print::named(rt, " length ", length)?,
            Err(why) => print::refused(rt, why)?,
        }
        print!(rt; " out")?;
        print::hex(rt, out, 2)
    }

    // Makes the call of four numbers on this table.
    pub(crate) fn make(
        &mut self,
        rt: &impl Print,
        table: &mut Table<'_>,
        numbers: [u32; 4],
    ) -> io::Result<()> {
        match call_of(numbers) {
            Call::Work(on, work) => self.show_work(rt, table, on, work)?,
            Call::Trace(on, room) => self.show_trace(rt, table, on, room)?,
            Call::ForgeRecord(run) => self.run = run,
            Call::ForgeRow(i, row) => rows::fill(table, i as usize..i as usize + 1, row),
            Call::RepeatRow(rows) => {
                let row = rows::before(table, rows.start);
                rows::fill(table, rows, row);
            }
            Call::Lend(lent) => table.lent = lent,
            Call::Show(rows) => rows::show(rt, table, rows)?,
            Call::ForgeLeft(field) => forge::side(&mut self.asked.left, field),
            Call::ForgeRight(field) => forge::side(&mut self.asked.right, field),
            Call::ForgeWhy(why) => self.asked.why = why,
            Call::Bad => println!(rt; "bad call")?,
        }
        Ok(())
    }
}
