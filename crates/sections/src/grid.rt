// The grid of the accesses, 16 rows of tasks by 32 columns of signals: 0 none, 1 read, 2 write, 3 both. Numbers, since `GridGives` has them so.
ghost use Rattle.sections.specs.Gives.{GridGives};

use crate::kinds::{AccessRecords, no_accesses};
use crate::marks::{Marked, Marks};
use crate::section::read_after;
use crate::{read_signals, read_tasks};
use rules::{MOST_SIGNALS, MOST_TASKS};

// The accesses are read once more, up to their end or to the first that is refused.
pub fn read_grid(bytes: &[u8]) -> [[u8; MOST_SIGNALS]; MOST_TASKS]
    ensures { GridGives bytes.now result }
{
    let tasks = read_tasks(bytes);
    let signals = read_signals(bytes, tasks.end);
    let accesses = AccessRecords {
        tasks: tasks.read.count,
        signals: signals.read.count,
    };
    let none = Marked {
        grid: [[0u8; MOST_SIGNALS]; MOST_TASKS],
        accesses: no_accesses(),
    };
    read_after(&Marks { accesses }, bytes, none, signals.end)
        .read
        .grid
}
