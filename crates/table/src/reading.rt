// Numbers 1 to 11: the sections one after the other, then the table as a whole.
ghost use Rattle.table.specs.Gives.{TableGives};

use crate::judging::judge;
use rules::{Refusal, Signals, Tasks};
use sections::grid::read_grid;
use sections::{read_accesses, read_end, read_signals, read_tasks};
use windows::WindowedTasks;

// What was read, and the hyper-period of a table that is accepted, or the rule that broke. A value beside a Result: `TableGives` says what was read before a
// refusal too.
#[derive(Clone, Copy)]
pub struct TableRead {
    pub tasks: Tasks,
    pub signals: Signals,
    pub hyper: Result<u32, Refusal>,
}

pub fn read_table(bytes: &[u8]) -> TableRead
    ensures { TableGives bytes.now result }
{
    let tasks_read = read_tasks(bytes);
    let tasks = tasks_read.read;
    let signals_read = read_signals(bytes, tasks_read.end);
    let signals = signals_read.read;
    let accesses_read = read_accesses(bytes, tasks.count, signals.count, signals_read.end);
    let hyper = match read_end(bytes, accesses_read.end) {
        Ok(_) => judge(WindowedTasks { tasks }, signals.count, &read_grid(bytes)),
        Err(refusal) => Err(refusal),
    };
    TableRead {
        tasks,
        signals,
        hyper,
    }
}
