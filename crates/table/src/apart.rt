// Rule 11: whether two writers of a signal publish at one tick of the hyper-period.
ghost use Rattle.std.specs.Prelude.{◌≡◌, ◌<◌, ◌≤◌};
ghost use Rattle.rules.specs.Table.{most_signals};
ghost use Rattle.rules.specs.Reading.{writes_in};
ghost use Rattle.windows.specs.Windowed.{Windowed};
ghost use Rattle.table.specs.Forms.{meets, apart_below, publish_apart, first_clash};

use rules::{MOST_SIGNALS, MOST_TASKS, Task};
use signals::writes;
use windows::WindowedTasks;

// Whether an instance of the one closes when one of the other does: their ends have one remainder by the greatest common divisor of the periods.
#[tactic(auto, using(theory::proofs::Euclid::gcd_pos, windows::proofs::Windows::period_pos), unfolding(crate::specs::Forms::meets))]
pub fn meet(one: Task, other: Task) -> bool
    requires { Windowed one }
    ensures { result ≡ meets one other }
{
    let common = euclid::gcd(one.period, other.period);
    one.end % common == other.end % common
}

// Whether a task meets no writer of the signal that has a lower number.
pub fn apart_below(
    windowed: WindowedTasks,
    grid: &[[u8; MOST_SIGNALS]; MOST_TASKS],
    signal: usize,
    task: usize,
) -> bool
    requires { (signal < most_signals) × (task < windowed.tasks.count) }
    ensures { result ≡ apart_below windowed.tasks (writes_in grid.now signal) task }
{
    // Read once, not for each pair.
    let own = windowed.tasks.list[task];
    (0..task).all(|lower| !writes(grid, lower, signal) || !meet(windowed.tasks.list[lower], own))
}

// Whether no two writers of the signal meet.
pub fn publish_apart(
    windowed: WindowedTasks,
    grid: &[[u8; MOST_SIGNALS]; MOST_TASKS],
    signal: usize,
) -> bool
    requires { signal < most_signals }
    ensures { result ≡ publish_apart windowed.tasks (writes_in grid.now signal) }
{
    (0..windowed.tasks.count).all(|task| !writes(grid, task, signal)
        || apart_below(windowed, grid, signal, task))
}

// The lowest signal of which two writers meet.
pub fn first_clash(
    windowed: WindowedTasks,
    signals: usize,
    grid: &[[u8; MOST_SIGNALS]; MOST_TASKS],
) -> Option<usize>
    requires { signals ≤ most_signals }
    ensures { result ≡ first_clash windowed.tasks signals grid.now }
{
    (0..signals).find(|signal| !publish_apart(windowed, grid, *signal))
}
