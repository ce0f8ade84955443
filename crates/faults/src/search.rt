// Record by record, signal after signal, until one is wrong.
// Loops and no `find_map`: tried on first_wrong, where `returns` did not close: no lemma of std leads from FindsMapped to a walk such as first_in.
// Between usize and u32 there is no From, and `try_from` would add a case that never comes: `as` keeps each number.
ghost use Rattle.std.specs.Prelude.{◌≡◌, Bool, ℕ, ◌+◌, ◌*◌, ◌-◌, ◌≤◌, ◌<◌, length};
ghost use Rattle.rules.specs.Table.{most_tasks};
ghost use Rattle.rules.specs.Bytes.{Part, parts, schedule_length, schedule_in};
ghost use Rattle.rules.specs.Numbers.{Told};
ghost use Rattle.rules.specs.Answers.{first_says};
ghost use Rattle.accept.specs.Accepts.{its_table};
ghost use Rattle.form.specs.Records.{instance_parts};
ghost use Rattle.sweep.specs.Pass.{longest_bytes};
ghost use Rattle.faults.specs.Faults.{view_table, view_schedule, CanJudge, Judges, first_of, view_records, view_side, wrong_of, first_in, placed};

use crate::untils::Untils;
use crate::view::View;
use accept::Accepted;
use form::Users;
use rules::{ELEMENT_AT, MOST_VALUES, Side, USE_BYTES};
use sweep::places_at;

// Where the first wrong record starts: Side::Readers for 21, Side::Writers for 22.
#[tactic(auto, using(form::proofs::Steps::total_none, form::proofs::Walks::walked_none, form::proofs::Walks::walked_turn, sweep::proofs::Placed::users_are, sweep::proofs::Whole::start_low, crate::proofs::Searched::nowhere))]
pub fn first_fault(accepted: &Accepted, side: Side, schedule: &[u8]) -> Option<usize>
    requires { schedule_length (its_table accepted.now) ≤ length schedule.now }
    ensures { (n : ℕ) (rest : Told) → placed result n rest ≡ first_says (its_table accepted.now) (wrong_of (its_table accepted.now) (schedule_in (its_table accepted.now) schedule.now) side) n (parts (its_table accepted.now)) rest }
{
    let users = Users::new(accepted);
    let mut next = 0;
    for signal in 0..accepted.signals.count {
        let view = View {
            accepted,
            users: &users,
            schedule,
            signal,
            places: places_at(&users, signal, &mut next),
        };
        if let Some(at) = signal_fault(&view, side) {
            return Some(at);
        }
    }
    None
}

// One signal: what makes a record wrong depends on the side. 22 asks until when each value is live, worked out once.
fn signal_fault(view: &View, side: Side) -> Option<usize>
    ensures { result ≡ first_in (view_table view.now) (wrong_of (view_table view.now) (view_schedule view.now) side) (view_side view.now side view.now.accepted.now.tasks.count) }
{
    match side {
        Side::Readers => first_wrong(view, side, |task, instance| {
            view.sent_wrong(task, instance)
        }),
        Side::Writers => {
            let mut ticks = [0; MOST_VALUES];
            view.keep_all(&mut ticks);
            let untils = Untils {
                view: *view,
                ticks: &ticks,
            };
            first_wrong(view, side, |task, instance| untils.shares(task, instance))
        }
    }
}

// The first record of a signal for which the test holds, task by task.
#[tactic(auto, using(form::proofs::Walks::walked_none, form::proofs::Walks::walked_turn, crate::proofs::Searched::nowhere), unfolding(crate::specs::Faults::side_of))]
fn first_wrong<F: Fn(usize, u32) -> bool>(view: &View, side: Side, is_wrong: F) -> Option<usize>
    requires { CanJudge view.now side (F.pre is_wrong) }
    ensures { (wrong : Part → Bool) → Judges view.now side (F.post is_wrong) wrong → result ≡ first_in (view_table view.now) wrong (view_side view.now side view.now.accepted.now.tasks.count) }
{
    for task in 0..view.accepted.tasks.count {
        if let Some(at) = first_wrong_of(view, side, task, &is_wrong) {
            return Some(at);
        }
    }
    None
}

// One task, instance by instance.
#[tactic(auto, using(form::proofs::Walks::walked_none))]
fn first_wrong_of<F: Fn(usize, u32) -> bool>(
    view: &View,
    side: Side,
    task: usize,
    is_wrong: &F,
) -> Option<usize>
    requires { CanJudge view.now side (F.pre is_wrong.now) × (task < view.now.accepted.now.tasks.count) }
    ensures { (wrong : Part → Bool) → Judges view.now side (F.post is_wrong.now) wrong → result ≡ first_in (view_table view.now) wrong (instance_parts side view.now.signal task (view_records view.now side task)) }
{
    let records = view.records(side, task);
    for instance in 0..records {
        if is_wrong(task, instance) {
            return Some(view.start_of(side, task, instance));
        }
    }
    None
}

impl<'a> View<'a> {
    // Where a record starts, from the place of its task's first element.
    fn start_of(&self, side: Side, task: usize, instance: u32) -> usize
        requires { (task < most_tasks) × (6 ≤ first_of self.now.places side task + 7 * instance) × (first_of self.now.places side task + 7 * instance ≤ longest_bytes) }
        ensures { result ≡ first_of self.now.places side task + 7 * instance - 6 }
    {
        let first = match side {
            Side::Readers => self.places.readers[task],
            Side::Writers => self.places.writers[task],
        };
        first + USE_BYTES * instance as usize - ELEMENT_AT
    }

    // How many records the task has for the signal on this side.
    #[tactic(auto, using(crate::proofs::Viewed::records_are, crate::proofs::Viewed::records_few))]
    pub fn records(&self, side: Side, task: usize) -> u32
        requires { task < self.now.accepted.now.tasks.count }
        ensures { result ≡ view_records self.now side task }
    {
        self.users.records(task, self.signal, side) as u32
    }
}
