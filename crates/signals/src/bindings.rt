// The value of a signal that stands at a tick.
ghost use Rattle.std.specs.Prelude.{◌≡◌, ◌<◌};
ghost use Rattle.rules.specs.Table.{most_signals};
ghost use Rattle.rules.specs.Reading.{writes_in};
ghost use Rattle.windows.specs.Windowed.{Windowed};
ghost use Rattle.signals.specs.Forms.{later_of, binding_of};

use crate::Publication;
use crate::rights::writes;
use rules::{CARRIED, MOST_SIGNALS, MOST_TASKS, Task};
use windows::WindowedTasks;

// The later of what was found so far and the last publication of task number k at or before a tick.
#[tactic(auto, using(crate::proofs::Steps::laters))]
pub fn later(task: Task, k: usize, tick: u32, found: Publication) -> Publication
    requires { Windowed task }
    ensures { result ≡ later_of task k tick found }
{
    let Some(instance) = windows::last_closed(task, tick) else {
        return found;
    };
    let closed = instance * task.period + task.end;
    if closed <= found.tick {
        return found;
    }
    Publication {
        tick: closed,
        task: k,
        instance,
    }
}

// The value that a reader opening at the tick is bound to: the latest published at or before it, else the carried one.
#[tactic(auto, using(crate::proofs::Passes::passes), unfolding(crate::specs::Forms::binding_of))]
pub fn binding_at(
    windowed: WindowedTasks,
    grid: &[[u8; MOST_SIGNALS]; MOST_TASKS],
    signal: usize,
    tick: u32,
) -> Publication
    requires { signal < most_signals }
    ensures { result ≡ binding_of windowed.tasks (writes_in grid.now signal) tick }
{
    let mut found = Publication {
        tick: 0,
        task: CARRIED,
        instance: 0,
    };
    for k in 0..windowed.tasks.count {
        if writes(grid, k, signal) {
            found = later(windowed.tasks.list[k], k, tick, found);
        }
    }
    found
}
