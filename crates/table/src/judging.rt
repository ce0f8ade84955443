// Rules 7 to 11 in their order. The tasks, the number of signals and the grid are one table for `timed` in specs/Forms; here they go one by one, since each
// function takes those of them that its definition there names.
ghost use Rattle.std.specs.Prelude.{◌≡◌, ◌<◌, ◌≤◌};
ghost use Rattle.rules.specs.Windows as rules-windows;
ghost use Rattle.rules.specs.Table.{most_signals, longest};
ghost use Rattle.rules.specs.Numbers.{told};
ghost use Rattle.rules.specs.Answers.{table_says};
ghost use Rattle.rules.specs.Reading.{accepted_hyper};
ghost use Rattle.table.specs.Forms.{timed};
ghost use Rattle.table.specs.Said.{answer_of, hyper_or_0};

use crate::apart::first_clash;
use crate::sums::{all_instances, all_uses};
use rules::{MOST_SIGNALS, MOST_TASKS, Refusal};
use windows::WindowedTasks;

// As wide as the sum it bounds; a constant takes `as`, since From is no const call.
const MOST_USES: u32 = rules::MOST_USES as u32;

// 9 to 11, where the hyper-period is known.
pub fn judge_within(
    windowed: WindowedTasks,
    signals: usize,
    grid: &[[u8; MOST_SIGNALS]; MOST_TASKS],
    hyper: u32,
) -> Result<u32, Refusal>
    requires { (signals ≤ most_signals) × (0 < windowed.tasks.count) × (hyper ≤ longest) × (hyper ≡ rules-windows.hyper (timed windowed.tasks signals grid.now)) }
    ensures { (told (answer_of result) ≡ table_says (timed windowed.tasks signals grid.now)) × (hyper_or_0 result ≡ accepted_hyper (timed windowed.tasks signals grid.now)) }
{
    if rules::MOST_INSTANCES < all_instances(windowed, hyper) {
        return Err(Refusal::ManyInstances);
    }
    if MOST_USES < all_uses(windowed, signals, grid, hyper) {
        return Err(Refusal::ManyUses);
    }
    match first_clash(windowed, signals, grid) {
        Some(clash) => Err(Refusal::TwoPublish(clash)),
        None => Ok(hyper),
    }
}

// 7 to 11: the hyper-period of a table that is accepted, or the rule that broke.
pub fn judge(
    windowed: WindowedTasks,
    signals: usize,
    grid: &[[u8; MOST_SIGNALS]; MOST_TASKS],
) -> Result<u32, Refusal>
    requires { signals ≤ most_signals }
    ensures { (told (answer_of result) ≡ table_says (timed windowed.tasks signals grid.now)) × (hyper_or_0 result ≡ accepted_hyper (timed windowed.tasks signals grid.now)) }
{
    if windowed.tasks.count == 0 {
        return Err(Refusal::NoTask);
    }
    let hyper = windows::hyper_period(windowed).ok_or(Refusal::LongHyper)?;
    judge_within(windowed, signals, grid, hyper)
}
