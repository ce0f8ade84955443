// What is at hand for one signal of an accepted table.
ghost use Rattle.std.specs.Prelude.{◌≤◌, ◌<◌, length};
ghost use Rattle.rules.specs.Bytes.{schedule_length};
ghost use Rattle.accept.specs.Accepts.{its_table};
ghost use Rattle.sweep.specs.Pass.{AreUsers, ArePlaces};

use accept::Accepted;
use form::Users;
use sweep::Places;

// The table with what decides its records, a schedule that reaches to its end, one of the table's signals, and where the signal's elements stand.
#[derive(Clone, Copy)]
pub struct View<'a> {
    pub accepted: &'a Accepted,
    pub users: &'a Users<'a>,
    pub schedule: &'a [u8],
    pub signal: usize,
    pub places: Places,
    pub ghost their: { AreUsers accepted.now users.now },
    pub ghost listed: { signal < accepted.now.signals.count },
    pub ghost placed: { ArePlaces accepted.now signal places },
    pub ghost whole: { schedule_length (its_table accepted.now) ≤ length schedule.now },
}
