// Who writes and who reads a signal, by the grid: 1 for reading and 2 for writing, 3 for both. Two functions of one expression each, as `writes_in` and
// `reads_in` are two definitions; by the side they are one in `form::permitted`.
ghost use Rattle.std.specs.Prelude.{◌≡◌, ◌<◌};
ghost use Rattle.rules.specs.Table.{most_tasks, most_signals};
ghost use Rattle.rules.specs.Reading.{writes_in, reads_in};

use rules::{MOST_SIGNALS, MOST_TASKS, WRITE};

#[tactic(auto, unfolding(rules::specs::Reading::writes_in))]
pub fn writes(grid: &[[u8; MOST_SIGNALS]; MOST_TASKS], task: usize, signal: usize) -> bool
    requires { (task < most_tasks) × (signal < most_signals) }
    ensures { result ≡ writes_in grid.now signal task }
{
    grid[task][signal] / WRITE % 2 == 1
}

#[tactic(auto, unfolding(rules::specs::Reading::reads_in))]
pub fn reads(grid: &[[u8; MOST_SIGNALS]; MOST_TASKS], task: usize, signal: usize) -> bool
    requires { (task < most_tasks) × (signal < most_signals) }
    ensures { result ≡ reads_in grid.now signal task }
{
    grid[task][signal] % 2 == 1
}
