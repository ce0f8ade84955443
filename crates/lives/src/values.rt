// The values of one signal in plan order, each with its life and its element: one until-tick for each element.
// Each `as` to a narrower number is proved to keep it: `try_from` would add a refusal that never comes. usize has no From of u32.
ghost use Rattle.std.specs.Prelude.{◌≡◌, ◌<◌, ◌≤◌, length, set};
ghost use Rattle.rules.specs.Table.{most_signals, most_values, most_elements};
ghost use Rattle.rules.specs.Reading.{writes_in};
ghost use Rattle.accept.specs.Accepts.{its_table};
ghost use Rattle.elements.specs.Steps.{free_in};
ghost use Rattle.lives.specs.Lives.{live_values};
ghost use Rattle.lives.specs.Values.{shown, padded, writes_at, life_by, Opening};

use crate::{BLANK, CARRIED, LiveValue, Lives};
use accept::Accepted;
use elements::first_free;
use events::{is_opening, order_events, task_in, tick_in};
use rules::{MOST_ELEMENTS, MOST_SIGNALS, MOST_TASKS, MOST_VALUES};
use signals::writes;

// Whether the event opens a window of a task that writes the signal.
fn is_written(grid: &[[u8; MOST_SIGNALS]; MOST_TASKS], signal: usize, event: u32) -> bool
    requires { signal < most_signals }
    ensures { result ≡ writes_at (writes_in grid.now signal) event }
{
    is_opening(event) && writes(grid, task_in(event), signal)
}

// The value written in that window takes the lowest free element, and holds it while it is live.
fn written(
    accepted: &Accepted,
    signal: usize,
    event: u32,
    held: &mut [u32; MOST_ELEMENTS],
) -> LiveValue
    requires { Opening accepted.now.tasks signal event }
    ensures value { result ≡ shown (record { life = life_by accepted.now signal event; element = free_in held.old (life_by accepted.now signal event).from }) }
    ensures holds { held.new ≡ set held.old (free_in held.old (life_by accepted.now signal event).from) (life_by accepted.now signal event).until }
{
    let k = task_in(event);
    let from = tick_in(event);
    let task = accepted.tasks.list[k];
    let i = from / task.period;
    let last = accepted.live_until(signal, i * task.period + task.end);
    let e = first_free(held, from);
    held[e] = last;
    LiveValue {
        task: k as u8,
        instance: i as u16,
        from,
        until: last,
        element: e as u8,
    }
}

// The carried value first, then each writer instance as its window opens.
pub fn values_of(accepted: &Accepted, signal: usize) -> Lives
    requires { signal < accepted.now.signals.count }
    ensures count { (result.count ≡ length (live_values (its_table accepted.now) signal)) × (result.count ≤ most_values) }
    ensures values { result.values ≡ padded (live_values (its_table accepted.now) signal) }
{
    let events = order_events(accepted.tasks, accepted.hyper);
    let carried = accepted.live_until(signal, 0);
    let mut held = [0u32; MOST_ELEMENTS];
    held[0] = carried;
    let mut values = [BLANK; MOST_VALUES];
    values[0] = LiveValue {
        task: CARRIED,
        instance: 0,
        from: 0,
        until: carried,
        element: 0,
    };
    let mut count: usize = 1;
    let turns = events.numbers();
    for &event in turns {
        if is_written(&accepted.grid, signal, event) {
            values[count] = written(accepted, signal, event, &mut held);
            count += 1;
        }
    }
    Lives { values, count }
}
