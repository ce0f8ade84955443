// 21: a reader that was sent to another element than that of the value it is bound to.
ghost use Rattle.std.specs.Prelude.{◌≡◌, ◌≤◌};
ghost use Rattle.rules.specs.Windows as windows;
ghost use Rattle.rules.specs.Values.{bound};
ghost use Rattle.rules.specs.Schedule.{element_of};
ghost use Rattle.rules.specs.Bytes.{ri};
ghost use Rattle.rules.specs.Answers.{sent_wrong};
ghost use Rattle.rules.specs.declared.Side.{Side};
ghost use Rattle.faults.specs.Faults.{view_table, view_schedule, Has};

use crate::view::View;
use rules::{CARRIED, CARRIED_ELEMENT};
use sweep::element_at;

impl<'a> View<'a> {
    // The element of the value that a reader opening at the tick is bound to.
    fn bound_element(&self, tick: u32) -> usize
        requires { tick ≤ windows.hyper (view_table self.now) }
        ensures { result ≡ element_of (view_schedule self.now) (bound (view_table self.now) self.now.signal tick) }
    {
        let value = self.accepted.binding_at(self.signal, tick);
        let task = value.task;
        if task == CARRIED {
            return CARRIED_ELEMENT;
        }
        element_at(self.schedule, self.places.writers[task], value.instance)
    }

    pub fn sent_wrong(&self, task: usize, instance: u32) -> bool
        requires { Has self.now Side.Readers task instance }
        ensures { result ≡ sent_wrong (view_table self.now) (view_schedule self.now) (ri self.now.signal task instance) }
    {
        let reader = self.accepted.tasks.list[task];
        let opens = instance * reader.period + reader.start;
        let bound = self.bound_element(opens);
        element_at(self.schedule, self.places.readers[task], instance) != bound
    }
}
