// Until when each value of a signal is live, worked out once and kept: by the number of its WI, and after them all the carried one.
// usize has no From of u32, and `try_from` would add a case that never comes: `as` keeps each number.
ghost use Rattle.std.specs.Prelude.{◌≡◌, suc, ◌≤◌, ◌<◌, get_or};
ghost use Rattle.rules.specs.Values as values;
ghost use Rattle.rules.specs.Table.{most_tasks, longest};
ghost use Rattle.rules.specs.declared.Side.{Side};
ghost use Rattle.faults.specs.Faults.{view_table, Has, writer_of, ends_of, KeptTo, Kept};

use crate::view::View;
use rules::{MOST_INSTANCES, MOST_VALUES, Side, USE_BYTES};

// A signal has at most as many WI as all tasks have instances; the carried value stands after them.
pub const CARRIED_AT: usize = MOST_INSTANCES as usize;

// The WI of one task: where the element of the first stands, which number it has among those of the signal, and when it opens.
#[derive(Clone, Copy)]
pub struct Writer {
    pub first: usize,
    pub number: usize,
    pub period: u32,
    pub start: u32,
}

// What is at hand for a signal, and the ends of the lives of its values, which are lent: a copy would double the stack that a refusal takes.
#[derive(Clone, Copy)]
pub struct Untils<'a, 't> {
    pub view: View<'a>,
    pub ticks: &'t [u32; MOST_VALUES],
    pub ghost kept: { Kept view ticks.now },
}

impl<'a> View<'a> {
    // The carried value's, and those of all tasks.
    pub fn keep_all(&self, ticks: &mut [u32; MOST_VALUES])
        ensures { Kept self.now ticks.new }
    {
        ticks[CARRIED_AT] = self.live_until(0);
        for task in 0..self.accepted.tasks.count {
            self.keep_task(task, ticks);
        }
    }

    pub fn writer(&self, task: usize) -> Writer
        requires { (task < most_tasks) × (get_or self.now.places.writers 0 0 ≤ get_or self.now.places.writers task 0) }
        ensures { result ≡ writer_of self.now task }
    {
        let writer = self.accepted.tasks.list[task];
        let first = self.places.writers[task];
        Writer {
            first,
            number: (first - self.places.writers[0]) / USE_BYTES,
            period: writer.period,
            start: writer.start,
        }
    }

    // Until when the value that was published at the tick, 0 for the carried one, is live.
    fn live_until(&self, published: u32) -> u32
        requires { published ≤ longest }
        ensures { result ≡ ends_of self.now published }
    {
        self.accepted.live_until(self.signal, published)
    }

    // Until when the value of a writer's instance is live.
    fn life_end(&self, task: usize, instance: u32) -> u32
        requires { Has self.now Side.Writers task instance }
        ensures { result ≡ values.until (view_table self.now) (values.by self.now.signal task instance) }
    {
        let writer = self.accepted.tasks.list[task];
        let published = instance * writer.period + writer.end;
        self.live_until(published)
    }

    // The values of one task, after those of the tasks before it.
    fn keep_task(&self, task: usize, ticks: &mut [u32; MOST_VALUES])
        requires { (task < self.now.accepted.now.tasks.count) × KeptTo self.now task ticks.old }
        ensures { KeptTo self.now (suc task) ticks.new }
    {
        let first = self.writer(task).number;
        let records = self.records(Side::Writers, task);
        for instance in 0..records {
            ticks[first + instance as usize] = self.life_end(task, instance);
        }
    }
}
