// Windows of one task in closed form: which instance closes or opens last, which closes next; and the hyper-period of all tasks.
#![tactic(auto)]

ghost use Rattle.std.specs.Prelude.{◌≡◌, ◌<◌, ◌≤◌};
ghost use Rattle.rules.specs.Table.{longest, most_tasks};
ghost use Rattle.windows.specs.Windowed.{Windowed, AllWindowed};
ghost use Rattle.windows.specs.Forms.{last_closed, next_closing, last_opened, hyper_of};

use rules::{Task, Tasks};

// The tasks of a table whose records were read: each has its window inside its period.
#[derive(Clone, Copy)]
pub struct WindowedTasks {
    pub tasks: Tasks,
    ghost few: { tasks.count ≤ most_tasks },
    ghost windowed: { AllWindowed tasks },
}

// The last instance that closes at or before a tick. This and `last_opened` differ in the instant and in whether it counts itself: one function for both would
// be a third beside them, with a period above 0 in its `requires`, and each would still name its instant: no plainer.
#[tactic(auto, using(crate::proofs::Windows::last))]
pub fn last_closed(task: Task, tick: u32) -> Option<u32>
    requires { Windowed task }
    ensures { result ≡ last_closed task tick }
{
    let since = tick.checked_sub(task.end)?;
    Some(since / task.period)
}

// The first closing after a tick, or `limit` where that is not later.
#[tactic(auto, using(crate::proofs::Windows::next))]
pub fn next_closing(task: Task, tick: u32, limit: u32) -> u32
    requires { Windowed task × (tick ≤ longest) }
    ensures { result ≡ next_closing task tick limit }
{
    let next = match last_closed(task, tick) {
        None => task.end,
        Some(last) => (last + 1) * task.period + task.end,
    };
    limit.min(next)
}

// The last instance that opens before a tick.
#[tactic(auto, using(crate::proofs::Windows::last))]
pub fn last_opened(task: Task, tick: u32) -> Option<u32>
    requires { Windowed task }
    ensures { result ≡ last_opened task tick }
{
    let since = tick.checked_sub(task.start + 1)?;
    Some(since / task.period)
}

// The least common multiple of all periods, or none as soon as that is above the longest.
#[tactic(auto, using(crate::proofs::Periods::periods))]
pub fn hyper_period(windowed: WindowedTasks) -> Option<u32>
    ensures { result ≡ hyper_of windowed.tasks }
{
    let mut hyper: u32 = 1;
    for task in &windowed.tasks.list[..windowed.tasks.count] {
        hyper = euclid::lcm(hyper, task.period);
        if rules::LONGEST < hyper {
            return None;
        }
    }
    Some(hyper)
}
