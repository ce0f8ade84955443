// How many instances and uses a table has in a hyper-period. The sums are loops: tried as `.map(..).sum()`, which leaves `sum-requires-clause-can` open, the
// divisor, and `sum-requires-clause-fits`, the bound of the sum.
ghost use Rattle.std.specs.Prelude.{◌≡◌, ◌<◌, ◌≤◌};
ghost use Rattle.rules.specs.Table.{most_tasks, most_signals, longest};
ghost use Rattle.table.specs.Forms.{instances_in, accesses_in, uses_in};

use rules::{MOST_SIGNALS, MOST_TASKS};
use signals::{reads, writes};
use windows::WindowedTasks;

// How many instances all tasks have.
#[tactic(auto, using(crate::proofs::Totals::instance_sums))]
pub fn all_instances(windowed: WindowedTasks, hyper: u32) -> u32
    requires { hyper ≤ longest }
    ensures { result ≡ instances_in windowed.tasks hyper windowed.tasks.count }
{
    let mut sum: u32 = 0;
    for task in &windowed.tasks.list[..windowed.tasks.count] {
        sum += hyper / task.period;
    }
    sum
}

// How many accesses a task has: one for reading a signal, one for writing it.
#[tactic(auto, using(crate::proofs::Totals::access_sums))]
pub fn accesses(grid: &[[u8; MOST_SIGNALS]; MOST_TASKS], signals: usize, task: usize) -> u32
    requires { (task < most_tasks) × (signals ≤ most_signals) }
    ensures { result ≡ accesses_in grid.now task signals }
{
    let mut sum: u32 = 0;
    for s in 0..signals {
        sum += u32::from(reads(grid, task, s)) + u32::from(writes(grid, task, s));
    }
    sum
}

// Each access counted once for each instance of its task.
#[tactic(auto, using(crate::proofs::Totals::use_sums))]
pub fn all_uses(
    windowed: WindowedTasks,
    signals: usize,
    grid: &[[u8; MOST_SIGNALS]; MOST_TASKS],
    hyper: u32,
) -> u32
    requires { (signals ≤ most_signals) × (hyper ≤ longest) }
    ensures { result ≡ uses_in windowed.tasks signals grid.now hyper windowed.tasks.count }
{
    let mut sum: u32 = 0;
    for k in 0..windowed.tasks.count {
        sum += accesses(grid, signals, k) * (hyper / windowed.tasks.list[k].period);
    }
    sum
}
