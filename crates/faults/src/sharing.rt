// 22: a value that has the element of an earlier one while both are live.
// usize has no From of u32, and `try_from` would add a case that never comes: `as` keeps each number.
ghost use Rattle.std.specs.Prelude.{◌≡◌, ℕ, ◌<◌};
ghost use Rattle.rules.specs.Bytes.{wi};
ghost use Rattle.rules.specs.Answers.{sharing};
ghost use Rattle.rules.specs.declared.Side.{Side};
ghost use Rattle.faults.specs.Faults.{view_table, view_schedule, Has, InReach, held_at, carried_in, clashing, apart_from, apart_from_task, apart_from_earlier};

use crate::untils::{CARRIED_AT, Untils, Writer};
use rules::{CARRIED_ELEMENT, Side};
use sweep::element_at;

// The element of a value, and its life.
#[derive(Clone, Copy)]
pub struct Held {
    pub element: usize,
    pub from: u32,
    pub until: u32,
}

fn clashes(a: Held, b: Held) -> bool
    ensures { result ≡ clashing a b }
{
    a.element == b.element && a.from < b.until && b.from < a.until
}

impl<'a, 't> Untils<'a, 't> {
    fn carried_value(&self) -> Held
        ensures { result ≡ carried_in self.now.ticks.now }
    {
        Held {
            element: CARRIED_ELEMENT,
            from: 0,
            until: self.ticks[CARRIED_AT],
        }
    }

    // The value of a writer's instance.
    fn written(&self, writer: Writer, instance: u32) -> Held
        requires { InReach writer self.now.view.schedule.now instance }
        ensures { result ≡ held_at writer self.now.ticks.now self.now.view.schedule.now instance }
    {
        Held {
            element: element_at(self.view.schedule, writer.first, instance),
            from: instance * writer.period + writer.start,
            until: self.ticks[writer.number + instance as usize],
        }
    }

    // No value of the writer's first `records` instances clashes with this one. A loop, since `all` took 12 instructions a pair in place of 7.
    fn apart_from(&self, writer: Writer, records: u32, held: Held) -> bool
        requires { (i : ℕ) → i < records → InReach writer self.now.view.schedule.now i }
        ensures { result ≡ apart_from (held_at writer self.now.ticks.now self.now.view.schedule.now) held records }
    {
        for instance in 0..records {
            if clashes(self.written(writer, instance), held) {
                return false;
            }
        }
        true
    }

    // No value that the task writes clashes with this one.
    fn apart_from_task(&self, task: usize, held: Held) -> bool
        requires { task < self.now.view.accepted.now.tasks.count }
        ensures { result ≡ apart_from_task (view_table self.now.view) self.now.view.accepted.now.grid (view_schedule self.now.view) self.now.view.signal held task }
    {
        let records = self.view.records(Side::Writers, task);
        self.apart_from(self.view.writer(task), records, held)
    }

    // No value of an earlier WI clashes with this one.
    fn apart_from_earlier(&self, task: usize, instance: u32, held: Held) -> bool
        requires { Has self.now.view Side.Writers task instance }
        ensures { result ≡ apart_from_earlier (view_table self.now.view) self.now.view.accepted.now.grid (view_schedule self.now.view) self.now.view.signal held task instance }
    {
        (0..task).all(|earlier| self.apart_from_task(earlier, held))
            && self.apart_from(self.view.writer(task), instance, held)
    }

    pub fn shares(&self, task: usize, instance: u32) -> bool
        requires { Has self.now.view Side.Writers task instance }
        ensures { result ≡ sharing (view_table self.now.view) (view_schedule self.now.view) (wi self.now.view.signal task instance) }
    {
        let held = self.written(self.view.writer(task), instance);
        clashes(self.carried_value(), held) || !self.apart_from_earlier(task, instance, held)
    }
}
