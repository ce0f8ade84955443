// The check of one signal's elements in one pass over the openings and closings of the hyper-period.
// usize has no From of u32, and `try_from` would add a case that never comes: `as` keeps each number.
#![tactic(auto)]

mod swept;

ghost use Rattle.std.specs.Prelude.{suc, ◌<◌, ◌≤◌, ◌≡◌};
ghost use Rattle.rules.specs.Words.{total};
ghost use Rattle.rules.specs.Table.{most_signals};
ghost use Rattle.rules.specs.Bytes.{size_of, schedule_in};
ghost use Rattle.theory.specs.Sweep.{sweep};
ghost use Rattle.accept.specs.Accepts.{its_table};
ghost use Rattle.accept.specs.declared.Accepted.{Accepted};
ghost use Rattle.sweep.specs.Pass.{grid_table, has, element_at, Inside, Inspects, longest_bytes, AreUsers, ArePlaces, InspectsAll, all_swept, AreActs};

use crate::swept::{Swept, Turn};
use accept::Accepted;
use events::{KIND, TICK};
use form::Users;
use rules::{BF_BYTES, ELEMENT_AT, MOST_TASKS, READ, Side, USE_BYTES, WRITE};

// A closing and an opening for each task.
pub const KINDS: usize = TICK as usize;

// Where the element of the first instance of each task stands, as a reader and as a writer of the signal.
#[derive(Clone, Copy)]
pub struct Places {
    pub readers: [usize; MOST_TASKS],
    pub writers: [usize; MOST_TASKS],
}

// The element of instance i.
pub fn element_at(schedule: &[u8], first: usize, i: u32) -> usize
    requires { Inside schedule.now first i }
    ensures { result ≡ element_at schedule.now first i }
{
    usize::from(schedule[first + USE_BYTES * i as usize])
}

// Whether the cell of a task lets it be on this side of the signal.
fn has(cell: u8, side: Side) -> bool
    ensures { result ≡ has side cell }
{
    match side {
        Side::Writers => cell / WRITE % 2 == 1,
        Side::Readers => cell / READ % 2 == 1,
    }
}

// For each task whether its closing, and its opening, is anything for the signal.
fn acts_of(accepted: &Accepted, signal: usize) -> [bool; KINDS]
    requires { signal < most_signals }
    ensures { AreActs accepted.now.grid signal accepted.now.tasks.count result }
{
    let mut acts = [false; KINDS];
    for k in 0..accepted.tasks.count {
        let cell = accepted.grid[k][signal];
        acts[k] = has(cell, Side::Writers);
        acts[MOST_TASKS + k] = has(cell, Side::Readers) | has(cell, Side::Writers);
    }
    acts
}

// One pass over the openings and closings.
#[tactic(auto, using(crate::proofs::Inspected::pass_right, crate::proofs::Alone::sweep_alone))]
pub fn signal_passes(
    events: &[u32],
    accepted: &Accepted,
    signal: usize,
    places: Places,
    schedule: &[u8],
) -> bool
    requires { Inspects accepted.now signal events.now places schedule.now }
    ensures own { result ≡ (sweep (its_table accepted.now) (schedule_in (its_table accepted.now) schedule.now) signal).right }
    ensures alone { result ≡ (sweep (grid_table accepted.now.tasks accepted.now.grid) (schedule_in (grid_table accepted.now.tasks accepted.now.grid) schedule.now) signal).right }
{
    let acts = acts_of(accepted, signal);
    let mut swept = Swept::first();
    for &event in events {
        if acts[(event % TICK) as usize] {
            // Not by `events::task_in` and `tick_in`: tried, and `handle-requires` does not close.
            let k = (event % KIND) as usize;
            let turn = Turn {
                cell: accepted.grid[k][signal],
                tick: event / TICK,
                task: accepted.tasks.list[k],
                readers: places.readers[k],
                writers: places.writers[k],
            };
            swept.handle(schedule, event, turn);
        }
    }
    swept.clean
}

// The places of a signal whose records begin at `next`, which moves on past them all.
#[tactic(auto, using(crate::proofs::Placed::below_few))]
pub fn places_at(users: &Users, signal: usize, next: &mut usize) -> Places
    requires { (signal < most_signals) × (next.old ≤ longest_bytes) }
    ensures { (a : Accepted) → AreUsers a users.now → next.old ≡ total (size_of (its_table a)) signal → ArePlaces a signal result × (next.new ≡ total (size_of (its_table a)) (suc signal)) }
{
    let mut at = *next + BF_BYTES + ELEMENT_AT;
    let places = Places {
        writers: users.starts::<USE_BYTES>(signal, Side::Writers, &mut at),
        readers: users.starts::<USE_BYTES>(signal, Side::Readers, &mut at),
    };
    *next = at - ELEMENT_AT;
    places
}

// So many signals, the table's own or another number, one by one until one does not pass.
#[tactic(auto, using(form::proofs::Steps::total_none, crate::proofs::Placed::users_are, crate::proofs::Whole::swept_none, crate::proofs::Whole::swept_more, crate::proofs::Whole::swept_fails, crate::proofs::Alone::all_alone))]
pub fn signals_pass(events: &[u32], accepted: &Accepted, signals: usize, schedule: &[u8]) -> bool
    requires { InspectsAll accepted.now signals events.now schedule.now }
    ensures own { result ≡ all_swept (its_table accepted.now) schedule.now signals }
    ensures alone { result ≡ all_swept (grid_table accepted.now.tasks accepted.now.grid) schedule.now signals }
{
    let users = Users::new(accepted);
    let mut next = 0;
    for s in 0..signals {
        let places = places_at(&users, s, &mut next);
        if !signal_passes(events, accepted, s, places, schedule) {
            return false;
        }
    }
    true
}
