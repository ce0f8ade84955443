// The elements of all uses of an accepted table, in the order of their records. A count is proved to fit its byte; try_from would add a refusal that never comes.
ghost use Rattle.std.specs.Prelude.{◌≡◌, ◌+◌, ◌<◌, ◌≤◌};
ghost use Rattle.rules.specs.Table.{most_signals, most_uses};
ghost use Rattle.elements.specs.Pass.{pass_table};
ghost use Rattle.plan.specs.Uses.{Numbered, users_in, uses_planned, counts_planned};

use accept::Accepted;
use elements::{Numbers, plan_signal};
use events::order_events;
use form::Users;
use rules::{MOST_SIGNALS, MOST_USES, Side};

// The numbers of each task's first uses of the signal: writers first, then readers, as their records stand. `next` moves on past them all.
fn number_uses(users: &Users, signal: usize, next: &mut usize) -> Numbers
    requires { (signal < most_signals) × (next.old + users_in users.now.grid.now users.now.instances signal users.now.tasks ≤ most_uses) }
    ensures numbered { Numbered users.now.grid.now users.now.instances signal next.old users.now.tasks result }
    ensures next { next.new ≡ next.old + users_in users.now.grid.now users.now.instances signal users.now.tasks }
{
    Numbers {
        writers: users.starts::<1>(signal, Side::Writers, next),
        readers: users.starts::<1>(signal, Side::Readers, next),
    }
}

// Signal by signal: the counts, and the elements of the uses. What stands beyond them stays.
pub fn plan_uses(accepted: &Accepted, counts: &mut [u8; MOST_SIGNALS], uses: &mut [u8; MOST_USES])
    ensures { (counts.new ≡ counts_planned (pass_table accepted.now.tasks accepted.now.grid) counts.old uses.old accepted.now.signals.count) × (uses.new ≡ uses_planned (pass_table accepted.now.tasks accepted.now.grid) uses.old accepted.now.signals.count) }
{
    let ordered = order_events(accepted.tasks, accepted.hyper);
    let events = ordered.numbers();
    let users = Users::new(accepted);
    let mut next = 0;
    for s in 0..accepted.signals.count {
        let numbers = number_uses(&users, s, &mut next);
        counts[s] = plan_signal(accepted, s, events, numbers, uses) as u8;
    }
}
