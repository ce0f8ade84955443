// The verdict on a schedule for an accepted table: its form, then its elements.
#![tactic(auto)]

ghost use Rattle.std.specs.Prelude.{◌≡◌, eqb};
ghost use Rattle.rules.specs.Numbers.{told, all_done};
ghost use Rattle.rules.specs.Answers.{check_says};
ghost use Rattle.accept.specs.Accepts.{its_table};
ghost use Rattle.form.specs.Form.{form_says};

use accept::Accepted;
use events::order_events;
use faults::first_fault;
use form::form;
use rules::{Answer, Refusal, Side};
use sweep::signals_pass;

// 15 to 22, for an accepted table.
#[tactic(auto, using(crate::proofs::Formed::done_said, crate::proofs::Formed::form_done))]
pub fn check_with(accepted: &Accepted, schedule: &[u8]) -> Answer
    ensures { told result ≡ check_says (its_table accepted.now) schedule.now }
{
    form(accepted, schedule)?;
    if passes(accepted, schedule) {
        return Ok(0);
    }
    refusal(accepted, schedule)
}

// Whether a schedule whose form is right passes, in one pass over the openings and closings of the hyper-period.
#[tactic(auto, using(crate::proofs::Formed::pass_says))]
pub fn passes(accepted: &Accepted, schedule: &[u8]) -> bool
    requires { (form_says (its_table accepted.now) schedule.now).number ≡ all_done }
    ensures { result ≡ eqb (check_says (its_table accepted.now) schedule.now).number all_done }
{
    let events = order_events(accepted.tasks, accepted.hyper);
    let turns = events.numbers();
    signals_pass(turns, accepted, accepted.signals.count, schedule)
}

// A reader sent wrong anywhere comes before a shared element anywhere.
#[tactic(auto, using(crate::proofs::Formed::whole))]
fn refusal(accepted: &Accepted, schedule: &[u8]) -> Answer
    requires { (form_says (its_table accepted.now) schedule.now).number ≡ all_done }
    ensures { told result ≡ check_says (its_table accepted.now) schedule.now }
{
    if let Some(at) = first_fault(accepted, Side::Readers, schedule) {
        return Err(Refusal::WrongReader(at));
    }
    if let Some(at) = first_fault(accepted, Side::Writers, schedule) {
        return Err(Refusal::Shared(at));
    }
    // Right for a schedule that passes, which `check_with` never gives: a `requires` that it does not pass would ask more than now.
    Ok(0)
}
