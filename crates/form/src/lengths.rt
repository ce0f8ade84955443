// The length of a schedule, which the table alone decides. The two sums are loops: tried as `(0..n).map(..).sum()`, which leaves `sum-requires-clause-fits`
// open, the bound of the sum, and then both clauses of the result.
ghost use Rattle.std.specs.Prelude.{◌≡◌, ◌<◌, ◌≤◌, ◌*◌, ◌+◌};
ghost use Rattle.rules.specs.Words.{total};
ghost use Rattle.rules.specs.Table.{most_signals, longest};
ghost use Rattle.rules.specs.Bytes.{schedule_length};
ghost use Rattle.accept.specs.Accepts.{its_table};
ghost use Rattle.form.specs.Records.{longest_signal, users_below, signal_bytes};

use crate::users::Users;
use accept::Accepted;
use rules::{BF_BYTES, EN_BYTES, Side, USE_BYTES};

// The bytes of a whole schedule.
pub fn length(accepted: &Accepted) -> usize
    ensures { result ≡ schedule_length (its_table accepted.now) }
{
    let users = Users::new(accepted);
    signals_length(&users, accepted.signals.count) + EN_BYTES
}

fn signals_length(users: &Users, signals: usize) -> usize
    requires { signals ≤ most_signals }
    ensures is { result ≡ total (signal_bytes users.now.grid.now users.now.instances users.now.tasks) signals }
    ensures short { result ≤ signals * longest_signal }
{
    let mut bytes = 0;
    for s in 0..signals {
        bytes += signal_length(users, s);
    }
    bytes
}

fn signal_length(users: &Users, signal: usize) -> usize
    requires { signal < most_signals }
    ensures is { result ≡ signal_bytes users.now.grid.now users.now.instances users.now.tasks signal }
    ensures short { result ≤ longest_signal }
{
    let writers = side_length(users, signal, Side::Writers);
    let readers = side_length(users, signal, Side::Readers);
    BF_BYTES + USE_BYTES * (writers + readers)
}

// The records of the signal on one side.
fn side_length(users: &Users, signal: usize, side: Side) -> usize
    requires { signal < most_signals }
    ensures is { result ≡ users_below users.now.grid.now users.now.instances side signal users.now.tasks }
    ensures short { result ≤ users.now.tasks * longest }
{
    let mut records = 0;
    for k in 0..users.tasks {
        records += users.records(k, signal, side);
    }
    records
}
