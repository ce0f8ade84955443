// Loading, a step, a read and a write over the machine's lists, lent where they lie: nothing of the machine is copied.
ghost use Rattle.std.specs.Prelude.{◌≡◌};
ghost use Rattle.state.specs.Sides.{part_of};
ghost use Rattle.machine.specs.Calls.{keeping, position_in, instance_in};
ghost use Rattle.machine.specs.Started.{given_of, started, Checked};
ghost use Rattle.machine.specs.Gives.{ListsLoadGives, ListsStepGives, ListsReadGives, ListsWriteGives, ListsOpenGives};

use crate::{InstanceRead, WordRead};
use accept::{Accepted, accept};
use form::Users;
use loading::Source;
use rules::{Answer, MOST_SIGNALS, MOST_TASKS, Refusal, Side, WORDS};
use state::NUMBERS;
use verdict::check_with;

#[tactic(auto, unfolding(crate::specs::Calls::step_in, rules::specs::Words::when))]
pub fn step(
    numbers: &mut [u16; NUMBERS],
    defaults: &[u32; MOST_SIGNALS],
    store: &mut [u32; WORDS],
) -> Answer
    ensures { ListsStepGives numbers.old defaults.now store.old result numbers.new store.new }
{
    if !state::is_fit(numbers) {
        return Err(Refusal::Unfit);
    }
    state::publish_all(numbers);
    state::advance(numbers, store);
    state::open_all(numbers, defaults, store);
    Ok(0)
}

// Where the state has a task's access to a signal now.
#[tactic(auto, unfolding(rules::specs::Words::when))]
fn position(
    numbers: &[u16; NUMBERS],
    side: Side,
    task: usize,
    signal: usize,
) -> Result<u16, Refusal>
    ensures { result ≡ position_in numbers.now (part_of side) task signal }
{
    if !state::is_fit(numbers) {
        return Err(Refusal::Unfit);
    }
    state::locate(numbers, side, task, signal)
}

#[tactic(auto, unfolding(crate::specs::Calls::read_in))]
pub fn read<'a>(
    numbers: &'a [u16; NUMBERS],
    store: &'a [u32; WORDS],
    task: usize,
    signal: usize,
) -> WordRead
    ensures { ListsReadGives numbers.now store.now task signal result }
{
    match position(numbers, Side::Readers, task, signal) {
        Ok(position) => WordRead {
            answer: Ok(0),
            word: state::load(store, position),
        },
        Err(refusal) => WordRead {
            answer: Err(refusal),
            word: 0,
        },
    }
}

#[tactic(auto, unfolding(crate::specs::Calls::write_in))]
pub fn write(
    numbers: &[u16; NUMBERS],
    store: &mut [u32; WORDS],
    task: usize,
    signal: usize,
    word: u32,
) -> Answer
    ensures { ListsWriteGives numbers.now store.old task signal word result store.new }
{
    let position = position(numbers, Side::Writers, task, signal)?;
    state::save(store, position, word);
    Ok(0)
}

// Which instance of a task is inside its window now. A task without instances is none of the table's.
#[tactic(auto, unfolding(crate::specs::Calls::instance_in, rules::specs::Words::when))]
fn instance(numbers: &[u16; NUMBERS], task: usize) -> Result<u16, Refusal>
    ensures { result ≡ instance_in numbers.now task }
{
    if !state::is_fit(numbers) {
        return Err(Refusal::Unfit);
    }
    if MOST_TASKS <= task || state::task_window(numbers, task).count == 0 {
        return Err(Refusal::NoAccess);
    }
    state::inside(numbers, task).ok_or(Refusal::Outside)
}

pub fn open_instance(numbers: &[u16; NUMBERS], task: usize) -> InstanceRead
    ensures { ListsOpenGives numbers.now task result }
{
    match instance(numbers, task) {
        Ok(instance) => InstanceRead {
            answer: Ok(0),
            instance,
        },
        Err(refusal) => InstanceRead {
            answer: Err(refusal),
            instance: 0,
        },
    }
}

// Loading: the table is checked, then the schedule. A refused loading leaves every list as it was.
pub fn load<'a, 'b>(
    numbers: &'b mut [u16; NUMBERS],
    defaults: &'b mut [u32; MOST_SIGNALS],
    store: &'b mut [u32; WORDS],
    table: &'a [u8],
    schedule: &'a [u8],
) -> Answer
    ensures { ListsLoadGives numbers.old defaults.old store.old table.now schedule.now result numbers.new defaults.new store.new }
{
    let accepted = accept(table)?;
    let done = check_with(&accepted, schedule)?;
    start(numbers, defaults, store, &accepted, schedule);
    Ok(done)
}

// Loading after its checks: the block zeroed, every element filled with its default, tick 0 opened.
fn start<'a, 'b>(
    numbers: &'b mut [u16; NUMBERS],
    defaults: &'b mut [u32; MOST_SIGNALS],
    store: &'b mut [u32; WORDS],
    accepted: &'a Accepted,
    schedule: &'a [u8],
)
    requires { Checked (given_of accepted.now schedule.now) }
    ensures { keeping numbers.new defaults.new store.new ≡ started (given_of accepted.now schedule.now) }
{
    let users = Users::new(accepted);
    loading::clear(numbers, accepted.hyper);
    let source = Source {
        tasks: &accepted.tasks,
        users: &users,
        schedule,
        defaults: &accepted.signals.defaults,
    };
    loading::load_windows(numbers, source);
    *defaults = accepted.signals.defaults;
    *store = [0; WORDS];
    loading::load_signals(numbers, store, source, accepted.signals.count);
    state::release_all(numbers);
    state::open_all(numbers, defaults, store);
}
