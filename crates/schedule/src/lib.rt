// A schedule written from its counts and elements, record by record at the front of a lent buffer. Numbers are proved to fit their bytes; try_from would add a
// refusal that never comes.
#![tactic(auto)]

ghost use Rattle.std.specs.Prelude.{◌≡◌, List, ◌++◌, ℕ, ◌<◌, ◌≤◌, ◌*◌, ◌+◌, length, get_or, drop};
ghost use Rattle.std.proofs.lemmas.List.Edits.{sets};
ghost use Rattle.rules.specs.Table.{most_tasks, most_signals, most_uses, longest};
ghost use Rattle.rules.specs.Bytes.{bytes_of, schedule_length};
ghost use Rattle.accept.specs.Accepts.{its_table};
ghost use Rattle.rules.specs.declared.Side as sides;
ghost use Rattle.form.specs.Records.{bf_bytes, use_bytes, mark_of, users_below, instance_parts, side_parts, signal_parts, parts_in};
ghost use Rattle.form.specs.Form.{walked};
ghost use Rattle.schedule.specs.Writing.{schedule_of, bf_put, use_put, put, uses_of, uses_below};

use accept::Accepted;
use form::{Use, Users, mark_of};
use rules::{BF, BF_BYTES, EN, MOST_SIGNALS, MOST_USES, Side, USE_BYTES};

// The schedule with these counts, whose WI and RI records have the elements `uses` in the order in which they stand; bytes after it stay.
pub fn write(
    accepted: &Accepted,
    counts: &[u8; MOST_SIGNALS],
    uses: &[u8; MOST_USES],
    out: &mut [u8],
)
    requires { schedule_length (its_table accepted.now) ≤ length out.old }
    ensures { out.new ≡ bytes_of (its_table accepted.now) (schedule_of (its_table accepted.now) counts.now uses.now) ++ drop (schedule_length (its_table accepted.now)) out.old }
{
    let users = Users::new(accepted);
    let signals = accepted.signals.count;
    let used = put_signals(&users, signals, counts, uses, out);
    put_bytes(&EN, BF_BYTES * signals + USE_BYTES * used, out);
}

// The bytes of a record at their place; the others stay.
fn put_bytes(record: &[u8], at: usize, out: &mut [u8])
    requires { at + length record.now ≤ length out.old }
    ensures { out.new ≡ sets out.old at record.now }
{
    out[at..at + record.len()].copy_from_slice(record);
}

// All signals; the number of uses written comes back.
fn put_signals(
    users: &Users,
    signals: usize,
    counts: &[u8; MOST_SIGNALS],
    uses: &[u8; MOST_USES],
    out: &mut [u8],
) -> usize
    requires few { (signals ≤ most_signals) × (uses_below users.now.grid.now users.now.instances users.now.tasks signals ≤ most_uses) }
    requires room { bf_bytes * signals + use_bytes * uses_below users.now.grid.now users.now.instances users.now.tasks signals ≤ length out.old }
    ensures is { record { out = out.exit.now; used = result } ≡ walked (put counts.now uses.now) (parts_in users.now.grid.now users.now.instances users.now.tasks signals) (record { out = out.entry.now; used = 0 }) }
    ensures many { result ≡ uses_below users.now.grid.now users.now.instances users.now.tasks signals }
{
    let mut used = 0;
    for s in 0..signals {
        used = put_signal(users, s, counts, uses, used, out);
    }
    used
}

// The signal's own record, then those of its writers, then those of its readers.
fn put_signal(
    users: &Users,
    signal: usize,
    counts: &[u8; MOST_SIGNALS],
    uses: &[u8; MOST_USES],
    used: usize,
    out: &mut [u8],
) -> usize
    requires few { (signal < most_signals) × (used + uses_of users.now.grid.now users.now.instances users.now.tasks signal ≤ most_uses) }
    requires room { bf_bytes * (signal + 1) + use_bytes * (used + uses_of users.now.grid.now users.now.instances users.now.tasks signal) ≤ length out.old }
    ensures is { record { out = out.exit.now; used = result } ≡ walked (put counts.now uses.now) (signal_parts users.now.grid.now users.now.instances users.now.tasks signal) (record { out = out.entry.now; used = used }) }
    ensures many { result ≡ used + uses_of users.now.grid.now users.now.instances users.now.tasks signal }
{
    put_bf(
        signal,
        counts[signal],
        BF_BYTES * signal + USE_BYTES * used,
        out,
    );
    let written = put_side(users, signal, Side::Writers, uses, used, out);
    put_side(users, signal, Side::Readers, uses, written, out)
}

// One side of the signal, task by task.
fn put_side(
    users: &Users,
    signal: usize,
    side: Side,
    uses: &[u8; MOST_USES],
    first: usize,
    out: &mut [u8],
) -> usize
    requires few { (signal < most_signals) × (first + users_below users.now.grid.now users.now.instances side signal users.now.tasks ≤ most_uses) }
    requires room { bf_bytes * (signal + 1) + use_bytes * (first + users_below users.now.grid.now users.now.instances side signal users.now.tasks) ≤ length out.old }
    ensures is { (counts : List ℕ) → record { out = out.exit.now; used = result } ≡ walked (put counts uses.now) (side_parts users.now.grid.now users.now.instances users.now.tasks side signal) (record { out = out.entry.now; used = first }) }
    ensures many { result ≡ first + users_below users.now.grid.now users.now.instances side signal users.now.tasks }
{
    let mark = mark_of(side);
    let mut used = first;
    for k in 0..users.tasks {
        let records = users.records(k, signal, side);
        used = put_instances(mark, signal, k, records, uses, used, out);
    }
    used
}

// One task of a side, instance by instance.
fn put_instances(
    mark: [u8; 2],
    signal: usize,
    task: usize,
    records: usize,
    uses: &[u8; MOST_USES],
    first: usize,
    out: &mut [u8],
) -> usize
    requires { (task < most_tasks) × (signal < most_signals) × (records ≤ longest) × (first + records ≤ most_uses) × (bf_bytes * (signal + 1) + use_bytes * (first + records) ≤ length out.old) }
    ensures is { (counts : List ℕ) (side : sides.Side) → mark ≡ mark_of side → record { out = out.exit.now; used = result } ≡ walked (put counts uses.now) (instance_parts side signal task records) (record { out = out.entry.now; used = first }) }
    ensures many { result ≡ first + records }
{
    let start = BF_BYTES * (signal + 1);
    for i in 0..records {
        let number = first + i;
        let at = start + USE_BYTES * number;
        let part = Use {
            mark,
            signal,
            task,
            instance: i,
        };
        put_use(part, uses[number], at, out);
    }
    first + records
}

#[tactic(auto, unfolding(crate::specs::Writing::bf_put))]
fn put_bf(signal: usize, count: u8, at: usize, out: &mut [u8])
    requires { (signal < most_signals) × (at + bf_bytes ≤ length out.old) }
    ensures { out.new ≡ bf_put out.old at signal count }
{
    let [first, second] = BF;
    put_bytes(&[first, second, signal as u8, count], at, out);
}

#[tactic(auto, unfolding(crate::specs::Writing::use_put))]
fn put_use(part: Use, element: u8, at: usize, out: &mut [u8])
    requires { (part.signal < most_signals) × (part.task < most_tasks) × (part.instance < longest) × (at + use_bytes ≤ length out.old) }
    ensures { out.new ≡ use_put out.old at part.mark part.signal part.task part.instance element }
{
    let [first, second] = part.mark;
    let [high, low] = (part.instance as u16).to_be_bytes();
    let signal = part.signal as u8;
    let task = part.task as u8;
    put_bytes(&[first, second, signal, task, high, low, element], at, out);
}
