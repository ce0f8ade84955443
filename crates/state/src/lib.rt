// The machine's numbers in one list with named parts: fitness, a task's instance at the tick, and what is done for one signal, one instance, all tasks.
// A narrowing `as` keeps its number: each is proved to. `try_from` would add a refusal that never comes.
#![tactic(auto)]

ghost use Rattle.std.specs.Prelude.{◌≡◌, ◌||◌, ℕ, ◌+◌, ◌<◌, ◌≤◌, leb, eqb};
ghost use Rattle.rules.specs.Table.{most_tasks, most_signals, most_uses};
ghost use Rattle.rules.specs.Words.{up_to};
ghost use Rattle.state.specs.Parts.{at, none, tick, last_kind};
ghost use Rattle.state.specs.Sides.{part_of, right_of};
ghost use Rattle.state.specs.Fitness.{in_block, in_uses, task_fits, tasks_fit, positions_fit, running, fit};
ghost use Rattle.state.specs.Rows.{window_of, phase_of, instance_if, opening_of, closing_of, inside_of, load, save, lacks, use_of, publish_one, fill_one, carry_one, release_one, at_instance, published, openings, copies, released, advanced, place_of};

use rules::{LONGEST, MOST_SIGNALS, MOST_TASKS, MOST_USES, READ, Refusal, Side, WORDS, WRITE};

// One cell for each task and signal, a row for each task.
pub const CELLS: usize = MOST_TASKS * MOST_SIGNALS;

// The parts of the numbers, one after the other: what loading alone writes stands first, what moves with the tick last.
// One list with named parts, a task's numbers in several of them, because C lends `numbers` of `struct press_machine` so (include/press.h, enum press_part);
// marked as loaded is exactly 1 for the same reason.
pub const LOADED: usize = 0;

pub const HYPER: usize = LOADED + 1;

// Each task's window, and how many instances it has in a hyper-period.
pub const PERIODS: usize = HYPER + 1;

pub const STARTS: usize = PERIODS + MOST_TASKS;

pub const ENDS: usize = STARTS + MOST_TASKS;

pub const COUNTS: usize = ENDS + MOST_TASKS;

// For each task and signal, where the uses of the access begin, one for each instance; none where there is no access.
pub const READS: usize = COUNTS + MOST_TASKS;

pub const WRITES: usize = READS + CELLS;

// Positions in the store: of each use in the schedule's order, of each signal's element 0, of what was published last.
pub const USES: usize = WRITES + CELLS;

pub const CARRIED: usize = USES + MOST_USES;

pub const HELD: usize = CARRIED + MOST_SIGNALS;

pub const TICK: usize = HELD + MOST_SIGNALS;

pub const NUMBERS: usize = TICK + 1;

// Stands for no access, where else the index of its first use stands. A number and no Option, because C lends the list as numbers of 16 bits.
pub const NONE: u16 = 65535;

// No task has more instances than there are uses. In the numbers' width, since the last index, which is compared with them, is counted from it.
const MOST_COUNT: u16 = MOST_USES as u16;

// The part of the numbers that has a cell of this side for each task and signal.
pub fn part(side: Side) -> usize
    ensures { (result ≡ part_of side) × (result ≤ last_kind) }
{
    match side {
        Side::Readers => READS,
        Side::Writers => WRITES,
    }
}

// The right that it needs, as a cell of the grid has it.
pub fn right(side: Side) -> u8
    ensures { (result ≡ right_of side) × (0 < result) }
{
    match side {
        Side::Readers => READ,
        Side::Writers => WRITE,
    }
}

// Fitness.

fn in_block(position: u16) -> bool
    ensures { result ≡ in_block position }
{
    usize::from(position) < WORDS
}

// By `fold`, here and for a task's accesses: `all` may stop at each number, so these are not compared in blocks. On a fit state it takes 12,500 instructions where
// this takes 2,000, and 8,700 for the accesses of all tasks where theirs take 1,200 (callgrind, the same lines in plain Rust): a step, now 3,500, would miss its
// bar of 1.5 times plain (bench/run).
fn positions_fit(numbers: &[u16; NUMBERS]) -> bool
    ensures { result ≡ positions_fit numbers.now }
{
    numbers[USES..TICK]
        .iter()
        .fold(true, |ok, position| ok & in_block(*position))
}

// The last index from which the uses of so many instances are inside the list; of none, the list's last.
fn last_first(count: u16) -> u16
    requires { count ≤ most_uses }
    ensures { (first : ℕ) → leb first result ≡ in_uses count first }
{
    MOST_COUNT - count.max(1)
}

// No access, or an index up to the last.
fn access_fits(last: u16, first: u16) -> bool
    ensures { result ≡ (eqb first none || leb first last) }
{
    (first == NONE) | (first <= last)
}

#[tactic(auto, unfolding(crate::specs::Fitness::task_fits))]
fn task_fits(numbers: &[u16; NUMBERS], task: usize) -> bool
    requires { task < most_tasks }
    ensures { result ≡ task_fits numbers.now task }
{
    let count = numbers[COUNTS + task];
    if MOST_COUNT < count {
        return false;
    }
    let last = last_first(count);
    (0..MOST_SIGNALS).fold(true, |ok, s| {
        let reads = access_fits(last, numbers[READS + task * MOST_SIGNALS + s]);
        let writes = access_fits(last, numbers[WRITES + task * MOST_SIGNALS + s]);
        ok & (reads & writes)
    })
}

fn tasks_fit(numbers: &[u16; NUMBERS]) -> bool
    ensures { result ≡ tasks_fit numbers.now }
{
    (0..MOST_TASKS).all(|t| task_fits(numbers, t))
}

fn is_running(loaded: u16, hyper: u16, tick: u16) -> bool
    ensures { result ≡ running loaded hyper tick }
{
    (loaded == 1) & (1 <= hyper) & (u32::from(hyper) <= LONGEST) & (tick < hyper)
}

#[tactic(auto, unfolding(crate::specs::Fitness::fit))]
pub fn is_fit(numbers: &[u16; NUMBERS]) -> bool
    ensures { result ≡ fit numbers.now }
{
    is_running(numbers[LOADED], numbers[HYPER], numbers[TICK])
        & (tasks_fit(numbers) & positions_fit(numbers))
}

// A task's window, and how many instances it has; a task that the table does not have has none.
#[derive(Clone, Copy)]
pub struct Window {
    pub period: u16,
    pub start: u16,
    pub end: u16,
    pub count: u16,
}

impl Window {
    // How far the tick is into its period.
    fn phase(self, tick: u16) -> u16
        ensures { (result ≡ phase_of self.period tick) × (result < 65535) }
    {
        if self.period == 0 {
            0
        } else {
            tick % self.period
        }
    }

    // The instance whose period the tick lies in, if the test holds and the task has it.
    #[tactic(auto, unfolding(crate::specs::Rows::instance_if, rules::specs::Words::when))]
    fn instance_if(self, test: bool, tick: u16) -> Option<u16>
        ensures { result ≡ instance_if test self.period self.count tick }
    {
        if !test || self.period == 0 {
            return None;
        }
        let i = tick / self.period;
        if i < self.count { Some(i) } else { None }
    }
}

pub fn task_window(numbers: &[u16; NUMBERS], task: usize) -> Window
    requires { task < most_tasks }
    ensures { result ≡ window_of numbers.now task }
{
    Window {
        period: numbers[PERIODS + task],
        start: numbers[STARTS + task],
        end: numbers[ENDS + task],
        count: numbers[COUNTS + task],
    }
}

// The instance that opens at the tick, that closes at the next one, that is inside its window now. Each has its own test; one function for all three would take
// it as a closure of the phase and the window, and its contract, over the closure's call, would be longer than the two lines that they share.

#[tactic(auto, unfolding(crate::specs::Rows::opening_of))]
fn opening(numbers: &[u16; NUMBERS], task: usize) -> Option<u16>
    requires { task < most_tasks }
    ensures { result ≡ opening_of numbers.now task }
{
    let window = task_window(numbers, task);
    let tick = numbers[TICK];
    window.instance_if(window.phase(tick) == window.start, tick)
}

#[tactic(auto, unfolding(crate::specs::Rows::closing_of))]
fn closing(numbers: &[u16; NUMBERS], task: usize) -> Option<u16>
    requires { task < most_tasks }
    ensures { result ≡ closing_of numbers.now task }
{
    let window = task_window(numbers, task);
    let tick = numbers[TICK];
    window.instance_if(window.phase(tick) + 1 == window.end, tick)
}

#[tactic(auto, unfolding(crate::specs::Rows::inside_of))]
pub fn inside(numbers: &[u16; NUMBERS], task: usize) -> Option<u16>
    requires { task < most_tasks }
    ensures { result ≡ inside_of numbers.now task }
{
    let window = task_window(numbers, task);
    let tick = numbers[TICK];
    let phase = window.phase(tick);
    let test = (window.start <= phase) & (phase < window.end);
    window.instance_if(test, tick)
}

// A word of the store. A fit state keeps no position past its end; there nothing is stored, and 0 is found.

#[tactic(auto, unfolding(crate::specs::Rows::load))]
pub fn load(store: &[u32; WORDS], position: u16) -> u32
    ensures { result ≡ load store.now position }
{
    store.get(usize::from(position)).copied().unwrap_or(0)
}

#[tactic(auto, unfolding(crate::specs::Rows::save))]
pub fn save(store: &mut [u32; WORDS], position: u16, word: u32)
    ensures { store.new ≡ save store.old position word }
{
    // Not by `get_mut`: what the store holds after that loan is not proved to be the list with one word set (goal `returns-in-Some`).
    let k = usize::from(position);
    if k < WORDS {
        store[k] = word;
    }
}

// One of a task's instances, by its number from 0.
#[derive(Clone, Copy)]
pub struct Instance {
    pub task: usize,
    pub number: u16,
    pub ghost few: { task < most_tasks },
}

// One signal of one instance.

fn lacks(numbers: &[u16; NUMBERS], side: Side, task: usize, signal: usize) -> bool
    requires { (task < most_tasks) × (signal < most_signals) }
    ensures { result ≡ lacks numbers.now (part_of side) task signal }
{
    numbers[part(side) + task * MOST_SIGNALS + signal] == NONE
}

// Where the instance has the signal. A fit state has no use past the list; there 0 is found.
#[tactic(auto, unfolding(crate::specs::Rows::use_of))]
fn use_of(numbers: &[u16; NUMBERS], side: Side, instance: Instance, signal: usize) -> u16
    requires { signal < most_signals }
    ensures { result ≡ use_of numbers.now (part_of side) instance.task instance.number signal }
{
    let first = numbers[part(side) + instance.task * MOST_SIGNALS + signal];
    let k = usize::from(first) + usize::from(instance.number);
    if k < MOST_USES { numbers[USES + k] } else { 0 }
}

#[tactic(auto, unfolding(crate::specs::Rows::publish_one))]
fn publish_one(numbers: &mut [u16; NUMBERS], instance: Instance, signal: usize)
    requires { signal < most_signals }
    ensures { numbers.new ≡ publish_one instance.task instance.number signal numbers.old }
{
    if lacks(numbers, Side::Writers, instance.task, signal) {
        return;
    }
    numbers[HELD + signal] = use_of(numbers, Side::Writers, instance, signal);
}

#[tactic(auto, unfolding(crate::specs::Rows::fill_one))]
fn fill_one<'a>(
    numbers: &'a [u16; NUMBERS],
    words: &'a [u32; MOST_SIGNALS],
    store: &mut [u32; WORDS],
    instance: Instance,
    signal: usize,
)
    requires { signal < most_signals }
    ensures { store.new ≡ fill_one numbers.now words.now instance.task instance.number signal store.old }
{
    if lacks(numbers, Side::Writers, instance.task, signal) {
        return;
    }
    let position = use_of(numbers, Side::Writers, instance, signal);
    save(store, position, words[signal]);
}

#[tactic(auto, unfolding(crate::specs::Rows::carry_one))]
fn carry_one(numbers: &[u16; NUMBERS], store: &mut [u32; WORDS], signal: usize)
    requires { signal < most_signals }
    ensures { store.new ≡ carry_one numbers.now signal store.old }
{
    let word = load(store, numbers[HELD + signal]);
    save(store, numbers[CARRIED + signal], word);
}

#[tactic(auto, unfolding(crate::specs::Rows::release_one))]
fn release_one(numbers: &mut [u16; NUMBERS], signal: usize)
    requires { signal < most_signals }
    ensures { numbers.new ≡ release_one signal numbers.old }
{
    numbers[HELD + signal] = numbers[CARRIED + signal];
}

// Every signal of one instance. One loop for these two and the four over all tasks and all signals below (`publish_all`, `open_all`, `carry_all`, `release_all`)
// would take its turn as a closure, and its contract, by `FoldsTo` over the closure's calls, is longer than each of the six.

#[tactic(auto, using(crate::proofs::Folds::acted))]
fn publish_row(numbers: &mut [u16; NUMBERS], instance: Instance)
    ensures { numbers.new ≡ up_to most_signals (publish_one instance.task instance.number) numbers.old }
{
    for s in 0..MOST_SIGNALS {
        publish_one(numbers, instance, s);
    }
}

#[tactic(auto, using(crate::proofs::Folds::acted))]
fn fill_row<'a>(
    numbers: &'a [u16; NUMBERS],
    words: &'a [u32; MOST_SIGNALS],
    store: &mut [u32; WORDS],
    instance: Instance,
)
    ensures { store.new ≡ up_to most_signals (fill_one numbers.now words.now instance.task instance.number) store.old }
{
    for s in 0..MOST_SIGNALS {
        fill_one(numbers, words, store, instance, s);
    }
}

// All tasks, all signals.

#[tactic(auto, using(crate::proofs::Folds::acted), unfolding(crate::specs::Rows::published))]
pub fn publish_all(numbers: &mut [u16; NUMBERS])
    ensures { numbers.new ≡ published numbers.old }
{
    for t in 0..MOST_TASKS {
        if let Some(number) = closing(numbers, t) {
            publish_row(numbers, Instance { task: t, number });
        }
    }
}

#[tactic(auto, using(crate::proofs::Folds::acted), unfolding(crate::specs::Rows::openings))]
pub fn open_all<'a>(
    numbers: &'a [u16; NUMBERS],
    defaults: &'a [u32; MOST_SIGNALS],
    store: &mut [u32; WORDS],
)
    ensures { store.new ≡ openings numbers.now defaults.now store.old }
{
    for t in 0..MOST_TASKS {
        if let Some(number) = opening(numbers, t) {
            fill_row(numbers, defaults, store, Instance { task: t, number });
        }
    }
}

#[tactic(auto, using(crate::proofs::Folds::acted), unfolding(crate::specs::Rows::copies))]
pub fn carry_all(numbers: &[u16; NUMBERS], store: &mut [u32; WORDS])
    ensures { store.new ≡ copies numbers.now store.old }
{
    for s in 0..MOST_SIGNALS {
        carry_one(numbers, store, s);
    }
}

#[tactic(auto, using(crate::proofs::Folds::acted), unfolding(crate::specs::Rows::released))]
pub fn release_all(numbers: &mut [u16; NUMBERS])
    ensures { numbers.new ≡ released numbers.old }
{
    for s in 0..MOST_SIGNALS {
        release_one(numbers, s);
    }
}

// The tick moves on by one; at H the copies are made, the carried values stand again, and the tick becomes 0.
#[tactic(auto, unfolding(crate::specs::Rows::advanced))]
pub fn advance(numbers: &mut [u16; NUMBERS], store: &mut [u32; WORDS])
    ensures { (numbers.new ≡ (advanced numbers.old store.old).numbers) × (store.new ≡ (advanced numbers.old store.old).store) }
{
    let next = usize::from(numbers[TICK]) + 1;
    if next < usize::from(numbers[HYPER]) {
        numbers[TICK] = next as u16;
        return;
    }
    carry_all(numbers, store);
    release_all(numbers);
    numbers[TICK] = 0;
}

// Where a task finds a signal now: no such access is said before outside its window.
#[tactic(auto, unfolding(crate::specs::Rows::place_of, rules::specs::Words::when))]
pub fn locate(
    numbers: &[u16; NUMBERS],
    side: Side,
    task: usize,
    signal: usize,
) -> Result<u16, Refusal>
    ensures { result ≡ place_of numbers.now (part_of side) task signal }
{
    if MOST_TASKS <= task || MOST_SIGNALS <= signal || lacks(numbers, side, task, signal) {
        return Err(Refusal::NoAccess);
    }
    let number = inside(numbers, task).ok_or(Refusal::Outside)?;
    Ok(use_of(numbers, side, Instance { task, number }, signal))
}
