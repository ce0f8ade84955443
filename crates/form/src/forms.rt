// The form of a schedule that was made elsewhere: every byte that the table fixes, every count and every element, in one pass. The writer in schedule walks
// the same parts, with a step that cannot fail: one walk for both would take a closure that carries the lent buffer, and would be no plainer.
ghost use Rattle.std.specs.Prelude.{◌≡◌, [], ◌∷◌, ◌<◌, ◌≤◌, ◌*◌, ◌+◌, length, Ok};
ghost use Rattle.rules.specs.Table.{most_signals, most_elements};
ghost use Rattle.rules.specs.Numbers.{told};
ghost use Rattle.accept.specs.Accepts.{its_table};
ghost use Rattle.rules.specs.declared.Side.{Side};
ghost use Rattle.form.specs.Records.{bf_bytes, use_bytes, mark_of, instance_parts, side_parts, signal_parts, parts_in};
ghost use Rattle.form.specs.Form.{form_says, bf_stands, instance_stands, use_stands, signal_step, use_step, walked, step, end_step};

use crate::sides::{Use, mark_of};
use crate::users::Users;
use accept::Accepted;
use fields::{holds, marked};
use rules::{
    Answer, BF, BF_BYTES, COUNT_AT, ELEMENT_AT, EN, EN_BYTES, INSTANCE_AT, LOW_AT, MOST_ELEMENTS,
    Refusal, SIGNAL_AT, Side, TASK_AT, USE_BYTES, WORDS,
};

// Where the next record starts, the count of the signal it belongs to, and the sum of the counts so far.
#[derive(Clone, Copy)]
pub struct Place {
    pub at: usize,
    pub count: u8,
    pub sum: usize,
}

// The first rule that the bytes break, 15 to 20, with its place. The bytes may be any.
pub fn form(accepted: &Accepted, bytes: &[u8]) -> Answer
    ensures { told result ≡ form_says (its_table accepted.now) bytes.now }
{
    let users = Users::new(accepted);
    let place = records(&users, accepted.signals.count, bytes)?;
    end(bytes, place)
}

// After the last record: EN, no byte more, and the sum of the counts.
fn end(bytes: &[u8], place: Place) -> Answer
    ensures { result ≡ end_step bytes.now place }
{
    let at = place.at;
    if !holds(bytes, at, EN_BYTES) {
        return Err(Refusal::ScheduleCut(at));
    }
    if !marked(bytes, at, EN) {
        return Err(Refusal::NotFixed(at));
    }
    if at + EN_BYTES < bytes.len() {
        return Err(Refusal::AfterSchedule(at + EN_BYTES));
    }
    if WORDS < place.sum {
        return Err(Refusal::SumAbove);
    }
    Ok(0)
}

// The records of all signals.
fn records(users: &Users, signals: usize, bytes: &[u8]) -> Result<Place, Refusal>
    requires { signals ≤ most_signals }
    ensures { result ≡ walked (step bytes.now) (parts_in users.now.grid.now users.now.instances users.now.tasks signals) (Ok (record { at = 0; count = 0; sum = 0 })) }
{
    let mut place = Place {
        at: 0,
        count: 0,
        sum: 0,
    };
    for s in 0..signals {
        place = signal_records(users, s, bytes, place)?;
    }
    Ok(place)
}

// The signal's own record, then those of its writers, then those of its readers.
fn signal_records(users: &Users, signal: usize, bytes: &[u8], from: Place) -> Result<Place, Refusal>
    requires { (signal < most_signals) × (from.sum ≤ most_elements * most_signals) }
    ensures { result ≡ walked (step bytes.now) (signal_parts users.now.grid.now users.now.instances users.now.tasks signal) (Ok from) }
{
    let own = signal_record(signal, bytes, from)?;
    let written = side_records(users, signal, Side::Writers, bytes, own)?;
    side_records(users, signal, Side::Readers, bytes, written)
}

// One side of the signal, task by task.
fn side_records(
    users: &Users,
    signal: usize,
    side: Side,
    bytes: &[u8],
    from: Place,
) -> Result<Place, Refusal>
    requires { signal < most_signals }
    ensures { result ≡ walked (step bytes.now) (side_parts users.now.grid.now users.now.instances users.now.tasks side signal) (Ok from) }
{
    let mark = mark_of(side);
    let mut place = from;
    for k in 0..users.tasks {
        let records = users.records(k, signal, side);
        place = instance_records(mark, signal, k, records, bytes, place)?;
    }
    Ok(place)
}

// One task of a side, instance by instance.
fn instance_records(
    mark: [u8; 2],
    signal: usize,
    task: usize,
    records: usize,
    bytes: &[u8],
    from: Place,
) -> Result<Place, Refusal>
    ensures { (side : Side) → mark ≡ mark_of side → result ≡ walked (step bytes.now) (instance_parts side signal task records) (Ok from) }
{
    let mut place = from;
    for i in 0..records {
        let part = Use {
            mark,
            signal,
            task,
            instance: i,
        };
        place = use_record(part, bytes, place)?;
    }
    Ok(place)
}

// A signal's record. Its count is known from here on, before any element is compared with it.
fn signal_record(signal: usize, bytes: &[u8], from: Place) -> Result<Place, Refusal>
    requires { from.sum ≤ most_elements * most_signals }
    ensures { result ≡ signal_step bytes.now signal from }
{
    let at = from.at;
    if !holds(bytes, at, BF_BYTES) {
        return Err(Refusal::ScheduleCut(at));
    }
    if !bf_stands(signal, bytes, at) {
        return Err(Refusal::NotFixed(at));
    }
    let count = bytes[at + COUNT_AT];
    if count < 1 {
        return Err(Refusal::BadCount(at));
    }
    if MOST_ELEMENTS < usize::from(count) {
        return Err(Refusal::BadCount(at));
    }
    Ok(Place {
        at: at + BF_BYTES,
        count,
        sum: from.sum + usize::from(count),
    })
}

// The record of one instance that writes or reads the signal.
fn use_record(part: Use, bytes: &[u8], from: Place) -> Result<Place, Refusal>
    ensures { result ≡ use_step bytes.now part.mark part.signal part.task part.instance from }
{
    let at = from.at;
    if !holds(bytes, at, USE_BYTES) {
        return Err(Refusal::ScheduleCut(at));
    }
    if !use_stands(part, bytes, at) {
        return Err(Refusal::NotFixed(at));
    }
    if from.count <= bytes[at + ELEMENT_AT] {
        return Err(Refusal::BadElement(at));
    }
    Ok(Place {
        at: at + USE_BYTES,
        count: from.count,
        sum: from.sum,
    })
}

fn bf_stands(signal: usize, bytes: &[u8], at: usize) -> bool
    requires { at + bf_bytes ≤ length bytes.now }
    ensures { result ≡ bf_stands bytes.now at signal }
{
    marked(bytes, at, BF) && usize::from(bytes[at + SIGNAL_AT]) == signal
}

fn use_stands(part: Use, bytes: &[u8], at: usize) -> bool
    requires { at + use_bytes ≤ length bytes.now }
    ensures { result ≡ use_stands bytes.now at part.mark part.signal part.task part.instance }
{
    marked(bytes, at, part.mark)
        && usize::from(bytes[at + SIGNAL_AT]) == part.signal
        && usize::from(bytes[at + TASK_AT]) == part.task
        && instance_stands(part.instance, bytes, at)
}

// The instance's two bytes, high byte first.
fn instance_stands(instance: usize, bytes: &[u8], at: usize) -> bool
    requires { at + use_bytes ≤ length bytes.now }
    ensures { result ≡ instance_stands bytes.now at instance }
{
    usize::from(u16::from_be_bytes([bytes[at + INSTANCE_AT], bytes[at + LOW_AT]])) == instance
}
