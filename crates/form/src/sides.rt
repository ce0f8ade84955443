// The writer records and the reader records of a signal: they differ in their mark and in the right that a task needs.
ghost use Rattle.std.specs.Prelude.{◌≡◌, ◌<◌};
ghost use Rattle.rules.specs.Table.{most_tasks, most_signals};
ghost use Rattle.form.specs.Records.{mark_of, permits, Instances};

use rules::{MOST_SIGNALS, MOST_TASKS, RI, Side, WI};
use windows::WindowedTasks;

// One of those records: its mark, and the signal, the task and the instance that it is of.
#[derive(Clone, Copy)]
pub struct Use {
    pub mark: [u8; 2],
    pub signal: usize,
    pub task: usize,
    pub instance: usize,
}

pub fn mark_of(side: Side) -> [u8; 2]
    ensures { result ≡ mark_of side }
{
    match side {
        Side::Writers => WI,
        Side::Readers => RI,
    }
}

// Whether the task has a record for the signal on this side.
pub fn permitted(
    grid: &[[u8; MOST_SIGNALS]; MOST_TASKS],
    task: usize,
    signal: usize,
    side: Side,
) -> bool
    requires { (task < most_tasks) × (signal < most_signals) }
    ensures { result ≡ permits grid.now side signal task }
{
    match side {
        Side::Writers => signals::writes(grid, task, signal),
        Side::Readers => signals::reads(grid, task, signal),
    }
}

// The instances of each task in a hyper-period, divided once here so that no walk over records divides. One index for both arrays: tried by `zip` of the
// places and the tasks, whose items are not known to be the table's, so that the divisor's goal (`nonzero_div-n`) does not close. The cast to usize keeps
// the number; std has no From for it, and `try_from` would add a case that never comes.
#[tactic(auto, using(windows::proofs::Windows::period_pos))]
pub fn instances_of(windowed: WindowedTasks, hyper: u32) -> [usize; MOST_TASKS]
    ensures { Instances windowed.tasks hyper result }
{
    let mut instances = [0usize; MOST_TASKS];
    for k in 0..windowed.tasks.count {
        instances[k] = (hyper / windowed.tasks.list[k].period) as usize;
    }
    instances
}
