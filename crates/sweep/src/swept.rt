// What the pass over a signal's openings and closings keeps, and what each of them does to it.
use crate::{element_at, has};
use elements::{NEVER, Standing};
use events::is_opening;
use rules::{Side, Task};

// What the pass keeps: whether no mistake was met, and what stands. A flag beside a value, since the pass goes on after a mistake, as `handled_of` does.
#[derive(Clone, Copy)]
pub struct Swept {
    pub clean: bool,
    pub standing: Standing,
}

// An opening or closing of a task: its cell of the grid, the tick, and the task's places.
#[derive(Clone, Copy)]
pub struct Turn {
    pub cell: u8,
    pub tick: u32,
    pub task: Task,
    pub readers: usize,
    pub writers: usize,
}

impl Swept {
    ghost use Rattle.std.specs.Prelude.{◌*◌, ◌-◌, ◌≤◌, ◌≡◌};
    ghost use Rattle.sweep.specs.Pass.{pass_of, unswept, TurnFits, Reads, read_of, Writes, wrote_of, closed_of, Handles, handled_of};

    // The carried value stands.
    pub fn first() -> Swept
        ensures { pass_of result ≡ unswept }
    {
        Swept {
            clean: true,
            standing: Standing::new(),
        }
    }

    // A reader opens.
    #[tactic(auto, unfolding(crate::specs::Pass::read_of))]
    pub fn read(&mut self, schedule: &[u8], x: Turn)
        requires { TurnFits x × Reads schedule.now x }
        ensures { pass_of self.new ≡ read_of schedule.now (pass_of self.old) x }
    {
        if !has(x.cell, Side::Readers) {
            return;
        }
        let element = element_at(schedule, x.readers, x.tick / x.task.period);
        self.clean = self.clean & (element == self.standing.current);
        let closing = x.tick - x.task.start + x.task.end;
        self.standing.reach = self.standing.reach.max(closing);
    }

    // A writer opens.
    #[tactic(auto, unfolding(crate::specs::Pass::wrote_of))]
    pub fn write(&mut self, schedule: &[u8], x: Turn)
        requires { TurnFits x × Writes schedule.now x x.tick }
        ensures { pass_of self.new ≡ wrote_of schedule.now (pass_of self.old) x }
    {
        if !has(x.cell, Side::Writers) {
            return;
        }
        let element = element_at(schedule, x.writers, x.tick / x.task.period);
        let free = self.standing.held[element] <= x.tick;
        self.clean = self.clean & free;
        self.standing.held[element] = NEVER;
    }

    // A writer publishes.
    #[tactic(auto, unfolding(crate::specs::Pass::closed_of))]
    pub fn publish(&mut self, schedule: &[u8], x: Turn)
        requires { TurnFits x × (1 ≤ x.tick) × Writes schedule.now x (x.tick - 1) }
        ensures { pass_of self.new ≡ closed_of schedule.now (pass_of self.old) x }
    {
        if !has(x.cell, Side::Writers) {
            return;
        }
        let element = element_at(schedule, x.writers, (x.tick - 1) / x.task.period);
        self.standing.publish(element, x.tick);
    }

    // A task opens or closes.
    #[tactic(auto, unfolding(crate::specs::Pass::handled_of))]
    pub fn handle(&mut self, schedule: &[u8], event: u32, x: Turn)
        requires { Handles schedule.now event x }
        ensures { pass_of self.new ≡ handled_of schedule.now event (pass_of self.old) x }
    {
        if is_opening(event) {
            self.read(schedule, x);
            self.write(schedule, x);
        } else {
            self.publish(schedule, x);
        }
    }
}
