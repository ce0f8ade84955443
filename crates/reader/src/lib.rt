// The reader: one value that keeps the lent table bytes and its own place in them. The methods of the place do the work;
// the functions over the reader are thin, and those of plain parameters serve the sections and every other caller.
// The calls for a task, a signal and an access stay three: a public function takes no type of its caller's choice (`.ci/surface`).
#![tactic(auto)]

ghost use Rattle.records.specs.Gives.{TaskGives, SignalGives, AccessGives, EndGives};
ghost use Rattle.reader.specs.Gives.{ReaderGives};

use records::{Cursor, Step};
use rules::{Access, Refusal, Task};

#[derive(Clone, Copy)]
pub struct Reader<'a> {
    pub table: &'a [u8],
    pub place: Cursor,
}

// A reader at the table's first byte.
pub fn new<'a>(table: &'a [u8]) -> Reader<'a>
    ensures { ReaderGives table.entry (record { at = 0 }) result }
{
    Reader {
        table,
        place: Cursor { at: 0 },
    }
}

// The reader with its place moved on.
pub fn moved<'a>(reader: Reader<'a>, place: Cursor) -> Reader<'a>
    ensures { ReaderGives reader.entry.table place result }
{
    let table = reader.table;
    Reader { table, place }
}

// Asked for the next task, after `count` tasks.
pub fn next_task<'a>(reader: Reader<'a>, count: usize) -> Step<Task>
    ensures { TaskGives reader.entry.table.now count reader.entry.place result }
{
    reader.place.task(reader.table, count)
}

// Asked for the next signal, after `count` signals.
pub fn next_signal<'a>(reader: Reader<'a>, count: usize) -> Step<u32>
    ensures { SignalGives reader.entry.table.now count reader.entry.place result }
{
    reader.place.signal(reader.table, count)
}

// Asked for the next access to one of `tasks` tasks and `signals` signals, after `count` accesses that `last` is the last of.
pub fn next_access<'a>(
    reader: Reader<'a>,
    tasks: usize,
    signals: usize,
    count: usize,
    last: Access,
) -> Step<Access>
    ensures { AccessGives reader.entry.table.now tasks signals count last reader.entry.place result }
{
    reader
        .place
        .access(reader.table, tasks, signals, count, last)
}

// Asked for the end.
pub fn next_end<'a>(reader: Reader<'a>) -> Result<Cursor, Refusal>
    ensures { EndGives reader.entry.table.now reader.entry.place result }
{
    reader.place.end(reader.table)
}

// A reader of the table at any place.
pub fn placed<'a>(table: &'a [u8], place: Cursor) -> Reader<'a>
    ensures { ReaderGives table.entry place result }
{
    moved(new(table), place)
}

// The task at a place of the table: a reader is placed there and asked.
pub fn task_at(table: &[u8], place: Cursor, count: usize) -> Step<Task>
    ensures { TaskGives table.now count place result }
{
    next_task(placed(table, place), count)
}

// The signal there.
pub fn signal_at(table: &[u8], place: Cursor, count: usize) -> Step<u32>
    ensures { SignalGives table.now count place result }
{
    next_signal(placed(table, place), count)
}

// The access there.
pub fn access_at(
    table: &[u8],
    place: Cursor,
    tasks: usize,
    signals: usize,
    count: usize,
    last: Access,
) -> Step<Access>
    ensures { AccessGives table.now tasks signals count last place result }
{
    next_access(placed(table, place), tasks, signals, count, last)
}

// The end there.
pub fn end_at(table: &[u8], place: Cursor) -> Result<Cursor, Refusal>
    ensures { EndGives table.now place result }
{
    next_end(placed(table, place))
}
