// The pass over the openings and closings of a hyper-period. std has no From from u32 to usize: an instance's number is cast, and
// keeps its value; `try_from` would add a case that never comes.
ghost use Rattle.std.specs.Prelude.{◌≡◌, ◌<◌, ◌≤◌};
ghost use Rattle.rules.specs.Table.{most_tasks, most_elements};
ghost use Rattle.theory.specs.Chosen.{chosen};
ghost use Rattle.elements.specs.Steps.{choice_of};
ghost use Rattle.elements.specs.Pass.{Opens, reads_by, writes_by, Turns, turn_of, pass_table, Ready};

use crate::state::Elements;
use accept::Accepted;
use events::{is_opening, task_in, tick_in};
use rules::{MOST_TASKS, MOST_USES, Task};
use signals::{reads, writes};

// The numbers of each task's first uses of a signal, as a writer and as a reader.
#[derive(Clone, Copy)]
pub struct Numbers {
    pub writers: [usize; MOST_TASKS],
    pub readers: [usize; MOST_TASKS],
}

// The numbers of a task's first uses of the signal, each where the task has that right.
#[derive(Clone, Copy)]
pub struct FirstUses {
    pub read: Option<usize>,
    pub write: Option<usize>,
}

impl Elements {
    // A task that reads the signal is sent to the element that stands.
    fn reader_opens(&mut self, task: Task, first: FirstUses, tick: u32, uses: &mut [u8; MOST_USES])
        requires { Opens task first tick }
        ensures { choice_of self.new uses.new ≡ reads_by task first tick (choice_of self.old uses.old) }
    {
        if let Some(number) = first.read {
            let i = tick / task.period;
            self.send(uses, number + i as usize, i * task.period + task.end);
        }
    }

    // A task that writes it takes a free one.
    fn writer_opens(
        &mut self,
        task: Task,
        first: FirstUses,
        k: usize,
        tick: u32,
        uses: &mut [u8; MOST_USES],
    )
        requires { Opens task first tick × (k < most_tasks) }
        ensures { choice_of self.new uses.new ≡ writes_by task first k tick (choice_of self.old uses.old) }
    {
        if let Some(number) = first.write {
            let i = tick / task.period;
            self.take(uses, number + i as usize, k, tick);
        }
    }

    // One opening or closing.
    #[tactic(auto, unfolding(crate::specs::Pass::turn_of))]
    fn turn(&mut self, task: Task, first: FirstUses, event: u32, uses: &mut [u8; MOST_USES])
        requires { Turns task first event }
        ensures { choice_of self.new uses.new ≡ turn_of task first event (choice_of self.old uses.old) }
    {
        let k = task_in(event);
        let tick = tick_in(event);
        if is_opening(event) {
            self.reader_opens(task, first, tick, uses);
            self.writer_opens(task, first, k, tick, uses);
            return;
        }
        if first.write.is_some() {
            self.publish(k, tick);
        }
    }
}

// The elements of the signal's uses, in the order of their records, and how many elements there are.
pub fn plan_signal(
    accepted: &Accepted,
    signal: usize,
    events: &[u32],
    numbers: Numbers,
    uses: &mut [u8; MOST_USES],
) -> u32
    requires { Ready accepted.now signal events.now numbers }
    ensures few { result ≤ most_elements }
    ensures chosen { (result ≡ (chosen (pass_table accepted.now.tasks accepted.now.grid) signal uses.old).count) × (uses.new ≡ (chosen (pass_table accepted.now.tasks accepted.now.grid) signal uses.old).uses) }
{
    let mut elements = Elements::new();
    for &event in events {
        let k = task_in(event);
        let read = reads(&accepted.grid, k, signal).then_some(numbers.readers[k]);
        let write = writes(&accepted.grid, k, signal).then_some(numbers.writers[k]);
        elements.turn(
            accepted.tasks.list[k],
            FirstUses { read, write },
            event,
            uses,
        );
    }
    elements.count
}
