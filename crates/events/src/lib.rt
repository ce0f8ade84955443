// The openings and closings of a hyper-period as numbers in their order: by tick, closings before openings, then by task.
#![tactic(auto)]

ghost use Rattle.std.specs.Prelude.{◌≡◌, ◌+◌, ◌*◌, ◌<◌, ◌≤◌, length, take};
ghost use Rattle.rules.specs.Windows.{hyper};
ghost use Rattle.rules.specs.Table.{Fits, most_tasks, longest};
ghost use Rattle.theory.specs.Sweep.{opening_number, is_opening, task_in, tick_in};
ghost use Rattle.events.specs.Order.{most_events, tasks_table, FirstOpenings, WindowFits, following_of, Leads, ordered};

use rules::{MOST_INSTANCES, MOST_TASKS, Task, Tasks};

// An opening and a closing for each instance. A constant takes `as` here and below: From is no const call.
pub const MOST_EVENTS: usize = 2 * MOST_INSTANCES as usize;

// The numbers of one tick: its closings, then its openings.
pub const KIND: u32 = MOST_TASKS as u32;

pub const TICK: u32 = 2 * KIND;

// Whether the number is that of an opening, and not of a closing.
pub fn is_opening(event: u32) -> bool
    ensures { result ≡ is_opening event }
{
    event / KIND % 2 == 1
}

// Whose opening or closing it is. std has no From from u32 to usize, and `try_from` would add a case that never comes.
pub fn task_in(event: u32) -> usize
    ensures { result ≡ task_in event }
{
    (event % KIND) as usize
}

// At which tick.
pub fn tick_in(event: u32) -> u32
    ensures { result ≡ tick_in event }
{
    event / KIND / 2
}

// The first `count` places are in use: the memory is fixed, without a heap.
#[derive(Clone, Copy)]
pub struct Events {
    pub list: [u32; MOST_EVENTS],
    pub count: usize,
}

impl Events {
    // Those that are in use.
    pub fn numbers(&self) -> &[u32]
        requires { self.now.count ≤ most_events }
        ensures { result.now ≡ take self.now.count self.now.list }
    {
        &self.list[..self.count]
    }
}

// The number of the opening of task number k at tick t. The cast of k is proved to keep it; try_from would add a refusal that never comes.
fn opening_number(t: u32, k: usize) -> u32
    requires { (t ≤ longest) × (k < most_tasks) }
    ensures { result ≡ opening_number t k }
{
    (t * 2 + 1) * KIND + k as u32
}

// The first opening of each task.
fn first_openings(tasks: Tasks) -> [u32; MOST_TASKS]
    requires { Fits (tasks_table tasks) }
    ensures { (length result ≡ most_tasks) × FirstOpenings tasks tasks.count result }
{
    let mut next: [u32; MOST_TASKS] = [0; MOST_TASKS];
    for k in 0..tasks.count {
        next[k] = opening_number(tasks.list[k].start, k);
    }
    next
}

// The task's closing after an opening, and its next opening after a closing.
#[tactic(auto, unfolding(crate::specs::Order::following_of))]
fn following(task: Task, event: u32) -> u32
    requires { WindowFits task × (event ≤ longest * 2 * most_tasks + most_tasks) }
    ensures { result ≡ following_of task event }
{
    if is_opening(event) {
        event + (task.end - task.start) * TICK - KIND
    } else {
        event + (task.period - task.end + task.start) * TICK + KIND
    }
}

// The task that is next. By `min_by`: beside a key that `min_by_key` keeps, each comparison would wait for the one before it.
fn least(next: &[u32; MOST_TASKS], count: usize) -> usize
    requires { (1 ≤ count) × (count ≤ most_tasks) }
    ensures { Leads next.now count result }
{
    (0..count)
        .min_by(|j, k| next[*j].cmp(&next[*k]))
        .unwrap_or(0)
}

// Task by task the next one is taken, until the hyper-period ends. It is a loop, since it merges: each turn changes what the next one takes the least of.
pub fn order_events(tasks: Tasks, h: u32) -> Events
    requires { Fits (tasks_table tasks) × (h ≡ hyper (tasks_table tasks)) }
    ensures { result ≡ ordered (tasks_table tasks) }
{
    let end = h * TICK + KIND;
    let mut next = first_openings(tasks);
    let mut list: [u32; MOST_EVENTS] = [0; MOST_EVENTS];
    let mut count: usize = 0;
    loop {
        let k = least(&next, tasks.count);
        let event = next[k];
        if event >= end {
            return Events { list, count };
        }
        list[count] = event;
        count += 1;
        next[k] = following(tasks.list[k], event);
    }
}
