// The next publication of a signal, and until when a value of it is live.
ghost use Rattle.std.specs.Prelude.{◌≡◌, ◌<◌, ◌≤◌};
ghost use Rattle.rules.specs.Table.{most_signals, longest};
ghost use Rattle.rules.specs.Reading.{writes_in, reads_in};
ghost use Rattle.windows.specs.Windowed.{Windowed};
ghost use Rattle.signals.specs.Forms.{next_of, reach_of, until_of};

use crate::rights::{reads, writes};
use rules::{MOST_SIGNALS, MOST_TASKS, Task};
use windows::WindowedTasks;

// The first publication after a tick, or the hyper-period where there is none.
#[tactic(auto, using(crate::proofs::Passes::passes), unfolding(crate::specs::Forms::next_of))]
pub fn next_publication(
    windowed: WindowedTasks,
    grid: &[[u8; MOST_SIGNALS]; MOST_TASKS],
    signal: usize,
    hyper: u32,
    tick: u32,
) -> u32
    requires { (signal < most_signals) × (tick ≤ longest) }
    ensures { result ≡ next_of windowed.tasks (writes_in grid.now signal) hyper tick }
{
    let mut next = hyper;
    for k in 0..windowed.tasks.count {
        if writes(grid, k, signal) {
            next = windows::next_closing(windowed.tasks.list[k], tick, next);
        }
    }
    next
}

// The later of what was reached so far and the closing of the task's last instance that opens at or after one tick and before another.
#[tactic(auto, using(crate::proofs::Steps::reaches))]
pub fn reach(task: Task, from: u32, before: u32, reached: u32) -> u32
    requires { Windowed task × (before ≤ longest) }
    ensures { result ≡ reach_of task from before reached }
{
    let Some(i) = windows::last_opened(task, before) else {
        return reached;
    };
    if i * task.period + task.start < from {
        return reached;
    }
    let closed = i * task.period + task.end;
    reached.max(closed)
}

// Until when the value that was published at a tick, 0 for the carried one, is live: the next publication, or the last closing of a reader bound to it.
#[tactic(auto, using(crate::proofs::Lives::lives))]
pub fn until(
    windowed: WindowedTasks,
    grid: &[[u8; MOST_SIGNALS]; MOST_TASKS],
    signal: usize,
    hyper: u32,
    published: u32,
) -> u32
    requires { (signal < most_signals) × (published ≤ longest) × (hyper ≤ longest) }
    ensures { result ≡ until_of windowed.tasks (writes_in grid.now signal) (reads_in grid.now signal) hyper published }
{
    let next = next_publication(windowed, grid, signal, hyper, published);
    let mut reached = next;
    for k in 0..windowed.tasks.count {
        if reads(grid, k, signal) {
            reached = reach(windowed.tasks.list[k], published, next, reached);
        }
    }
    reached
}
