// The numbers and the store of a machine that is loaded: the tasks' windows, and signal by signal the accesses, the uses and the elements.
// A narrowing `as` keeps its number: each is proved to. `try_from` would add a refusal that never comes.
#![tactic(auto)]

ghost use Rattle.std.specs.Prelude.{◌≡◌, ℕ, ◌+◌, ◌*◌, ◌<◌, ◌≤◌, length, get_or};
ghost use Rattle.rules.specs.Words.{times, up_to};
ghost use Rattle.rules.specs.Table.{most_tasks, most_signals, most_uses, words};
ghost use Rattle.state.specs.Sides.{part_of, right_of};
ghost use Rattle.loading.specs.Laid.{blank, set_window, windows_laid, permits, uses_of, count_in, place_access, place_accesses, place_uses, fill_elements, signal_uses, signal_at, signal_laid, store_laid, Narrow, Windowed, SignalRoom, Room};

use form::Users;
use rules::{BF_BYTES, COUNT_AT, ELEMENT_AT, MOST_SIGNALS, Side, Task, Tasks, USE_BYTES, WORDS};
use state::{
    CARRIED, COUNTS, ENDS, HYPER, LOADED, NONE, NUMBERS, PERIODS, READS, STARTS, USES, part, right,
};

// What a machine is loaded from: the tasks, who may use which signal and how often each task runs, the schedule's bytes, and each signal's default.
#[derive(Clone, Copy)]
pub struct Source<'a> {
    pub tasks: &'a Tasks,
    pub users: &'a Users<'a>,
    pub schedule: &'a [u8],
    pub defaults: &'a [u32; MOST_SIGNALS],
    pub ghost narrow: { Windowed tasks.now },
    pub ghost counted: { tasks.now.count ≤ users.now.tasks },
}

// The tasks' accesses on one side of a signal.
#[derive(Clone, Copy)]
pub struct Access {
    pub side: Side,
    pub signal: usize,
    pub ghost few: { signal < most_signals },
}

// How many uses and elements stand before what is loaded next.
#[derive(Clone, Copy)]
pub struct Filled {
    pub used: usize,
    pub base: usize,
}

// The numbers of a machine that is marked as loaded, at tick 0, and has no access.
pub fn clear(numbers: &mut [u16; NUMBERS], hyper: u32)
    requires { hyper < 65536 }
    ensures { numbers.new ≡ blank hyper }
{
    *numbers = [0; NUMBERS];
    numbers[LOADED] = 1;
    numbers[HYPER] = hyper as u16;
    numbers[READS..USES].fill(NONE);
}

#[tactic(auto, unfolding(crate::specs::Laid::set_window))]
fn load_window(numbers: &mut [u16; NUMBERS], task: usize, window: Task, count: u16)
    requires { (task < most_tasks) × Narrow window }
    ensures { numbers.new ≡ set_window window count task numbers.old }
{
    numbers[PERIODS + task] = window.period as u16;
    numbers[STARTS + task] = window.start as u16;
    numbers[ENDS + task] = window.end as u16;
    numbers[COUNTS + task] = count;
}

// Each task's window, with its instances. By an index and not by `zip`, since the index is also where they are put.
#[tactic(auto, using(state::proofs::Folds::acted), unfolding(crate::specs::Laid::windows_laid))]
pub fn load_windows(numbers: &mut [u16; NUMBERS], source: Source)
    ensures { numbers.new ≡ windows_laid source.entry.tasks.now source.entry.users.now.instances numbers.old }
{
    for k in 0..source.tasks.count {
        let instances = source.users.instances[k];
        load_window(numbers, k, source.tasks.list[k], instances as u16);
    }
}

// By the right's number, as `permits` of specs/Laid and the laws of a layout have it.
fn is_permitted(source: Source, access: Access, task: usize) -> bool
    requires { task < most_tasks }
    ensures { result ≡ permits source.entry.users.now.grid.now (right_of access.side) task access.signal }
{
    source.users.grid[task][access.signal] / right(access.side) % 2 == 1
}

// One access: its uses begin here, one for each instance. Returns where the next ones begin.
#[tactic(auto, unfolding(crate::specs::Laid::place_access))]
fn place_access(
    numbers: &mut [u16; NUMBERS],
    source: Source,
    access: Access,
    used: usize,
    task: usize,
) -> usize
    requires { (task < source.users.now.tasks) × (used ≤ most_uses) }
    ensures { (numbers.new ≡ place_access (part_of access.side) source.entry.users.now.grid.now (right_of access.side) access.signal used task numbers.old)
        × (result ≡ used + times (permits source.entry.users.now.grid.now (right_of access.side) task access.signal) (get_or source.entry.users.now.instances task 0)) }
{
    if !is_permitted(source, access, task) {
        return used;
    }
    numbers[part(access.side) + task * MOST_SIGNALS + access.signal] = used as u16;
    used + source.users.instances[task]
}

// All tasks' accesses on one side of a signal.
#[tactic(auto, using(state::proofs::Folds::acted, crate::proofs::Sums::uses), unfolding(crate::specs::Laid::place_accesses))]
fn place_accesses(
    numbers: &mut [u16; NUMBERS],
    source: Source,
    access: Access,
    first: usize,
) -> usize
    requires { first + uses_of source.users.now.grid.now source.users.now.instances (right_of access.side) access.signal source.users.now.tasks ≤ most_uses }
    ensures { (numbers.new ≡ place_accesses (part_of access.side) source.entry.users.now.grid.now source.entry.users.now.instances (right_of access.side) access.signal first source.entry.users.now.tasks numbers.old)
        × (result ≡ first + uses_of source.entry.users.now.grid.now source.entry.users.now.instances (right_of access.side) access.signal source.entry.users.now.tasks) }
{
    let mut used = first;
    for k in 0..source.users.tasks {
        used = place_access(numbers, source, access, used, k);
    }
    used
}

// The positions of n uses of one signal, from the schedule's elements.
#[tactic(auto, using(state::proofs::Folds::acted), unfolding(crate::specs::Laid::place_uses))]
fn place_uses(
    numbers: &mut [u16; NUMBERS],
    schedule: &[u8],
    signal: usize,
    before: Filled,
    n: usize,
)
    requires { (signal < most_signals) × (before.base ≤ words) × (before.used + n ≤ most_uses) × (4 * signal + 7 * (before.used + n) + 4 ≤ length schedule.now) }
    ensures { numbers.new ≡ place_uses schedule.now signal before.base before.used n numbers.old }
{
    for j in 0..n {
        let k = before.used + j;
        let element = schedule[BF_BYTES * (signal + 1) + USE_BYTES * k + ELEMENT_AT];
        numbers[USES + k] = (before.base + usize::from(element)) as u16;
    }
}

fn fill_elements(store: &mut [u32; WORDS], base: usize, n: usize, word: u32)
    requires { base + n ≤ words }
    ensures { store.new ≡ fill_elements base n word store.old }
{
    store[base..base + n].fill(word);
}

// One signal: where its element 0 stands, its accesses, its uses and its elements. Returns what stands before the next one.
fn load_signal(
    numbers: &mut [u16; NUMBERS],
    store: &mut [u32; WORDS],
    source: Source,
    before: Filled,
    signal: usize,
) -> Filled
    requires { SignalRoom source.users.now.grid.now source.users.now.instances source.schedule.now source.users.now.tasks before.used before.base signal }
    ensures { (numbers.new ≡ signal_at source.entry.users.now.grid.now source.entry.users.now.instances source.entry.schedule.now source.entry.users.now.tasks before.used before.base signal numbers.old)
        × (store.new ≡ fill_elements before.base (count_in source.entry.schedule.now signal before.used) (get_or source.entry.defaults.now signal 0) store.old)
        × (result.used ≡ before.used + signal_uses source.entry.users.now.grid.now source.entry.users.now.instances source.entry.users.now.tasks signal)
        × (result.base ≡ before.base + count_in source.entry.schedule.now signal before.used) }
{
    let count = usize::from(
        source.schedule[BF_BYTES * signal + USE_BYTES * before.used + COUNT_AT],
    );
    fill_elements(store, before.base, count, source.defaults[signal]);
    numbers[CARRIED + signal] = before.base as u16;
    let writes = Access {
        side: Side::Writers,
        signal,
    };
    let reads = Access {
        side: Side::Readers,
        signal,
    };
    let written = place_accesses(numbers, source, writes, before.used);
    let used = place_accesses(numbers, source, reads, written);
    place_uses(numbers, source.schedule, signal, before, used - before.used);
    let base = before.base + count;
    Filled { used, base }
}

// All signals, one after the other.
#[tactic(auto, using(state::proofs::Folds::acted, crate::proofs::Sums::before), unfolding(crate::specs::Laid::signal_laid, crate::specs::Laid::store_laid))]
pub fn load_signals(
    numbers: &mut [u16; NUMBERS],
    store: &mut [u32; WORDS],
    source: Source,
    signals: usize,
)
    requires { Room source.users.now.grid.now source.users.now.instances source.schedule.now source.users.now.tasks signals }
    ensures { (numbers.new ≡ up_to signals (signal_laid source.entry.users.now.grid.now source.entry.users.now.instances source.entry.schedule.now source.entry.users.now.tasks) numbers.old)
        × (store.new ≡ up_to signals (store_laid source.entry.users.now.grid.now source.entry.users.now.instances source.entry.schedule.now source.entry.users.now.tasks source.entry.defaults.now) store.old) }
{
    let mut next = Filled { used: 0, base: 0 };
    for s in 0..signals {
        next = load_signal(numbers, store, source, next, s);
    }
}
