// What decides the records of a schedule: who may write and read what, and how often each task runs in a hyper-period.
ghost use Rattle.std.specs.Prelude.{◌≡◌, ◌+◌, ◌*◌, ◌<◌, ◌≤◌};
ghost use Rattle.rules.specs.Table.{most_tasks, most_signals};
ghost use Rattle.form.specs.Records.{Short, Instances, Starts, users_of, users_below};

use crate::sides::{instances_of, permitted};
use accept::Accepted;
use rules::{MOST_SIGNALS, MOST_TASKS, Side};

// The grid, and the instances of each of so many tasks, of which none has more than a hyper-period has ticks. A count beside the array: no heap.
#[derive(Clone, Copy)]
pub struct Users<'a> {
    pub grid: &'a [[u8; MOST_SIGNALS]; MOST_TASKS],
    pub instances: [usize; MOST_TASKS],
    pub tasks: usize,
    pub ghost few: { tasks ≤ most_tasks },
    pub ghost short: { Short tasks instances },
}

impl<'a> Users<'a> {
    pub fn new(accepted: &'a Accepted) -> Users<'a>
        ensures grid { result.grid.now ≡ accepted.now.grid }
        ensures tasks { result.tasks ≡ accepted.now.tasks.count }
        ensures instances { Instances accepted.now.tasks accepted.now.hyper result.instances }
    {
        Users {
            grid: &accepted.grid,
            instances: instances_of(accepted.windowed(), accepted.hyper),
            tasks: accepted.tasks.count,
        }
    }

    // How many records the task has for the signal on this side: one for each of its instances, or none.
    pub fn records(&self, task: usize, signal: usize, side: Side) -> usize
        requires { (task < most_tasks) × (signal < most_signals) }
        ensures { result ≡ users_of self.now.grid.now self.now.instances side signal task }
    {
        if permitted(self.grid, task, signal, side) {
            self.instances[task]
        } else {
            0
        }
    }

    // Where the records of each task begin on this side of the signal, if each takes STEP; `next` moves on past them all.
    pub fn starts<const STEP: usize>(
        &self,
        signal: usize,
        side: Side,
        next: &mut usize,
    ) -> [usize; MOST_TASKS]
        requires { (signal < most_signals) × (next.old + STEP * users_below self.now.grid.now self.now.instances side signal self.now.tasks ≤ usize.MAX) }
        ensures starts { Starts self.now.grid.now self.now.instances STEP side signal next.old self.now.tasks result }
        ensures next { next.new ≡ next.old + STEP * users_below self.now.grid.now self.now.instances side signal self.now.tasks }
    {
        let mut starts = [0; MOST_TASKS];
        for k in 0..self.tasks {
            starts[k] = *next;
            *next += STEP * self.records(k, signal, side);
        }
        starts
    }
}
