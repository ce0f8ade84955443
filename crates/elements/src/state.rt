// What an opening or a closing does to the elements of a signal. Each cast is proved to keep the number; try_from would add a refusal that never comes.
ghost use Rattle.std.specs.Prelude.{◌≡◌, ℕ, ◌<◌, ◌≤◌, get_or};
ghost use Rattle.rules.specs.Table.{most_tasks, most_uses, most_elements};

use crate::free::first_free;
use crate::standing::{NEVER, Standing};
use rules::{MOST_TASKS, MOST_USES};

// What stands, and the element that each task took last. One more than the highest element taken.
#[derive(Drop)]
pub struct Elements {
    pub standing: Standing,
    pub own: [usize; MOST_TASKS],
    pub count: u32,
    pub ghost owned: { (k : ℕ) → get_or own k 0 < most_elements },
    pub ghost few: { count ≤ most_elements },
}

impl Elements {
    ghost use Rattle.std.specs.Prelude.{◌≡◌, List, ℕ, ◌<◌};
    ghost use Rattle.rules.specs.Reading.{no_tasks, no_signals, no_grid, table_of};
    ghost use Rattle.theory.specs.Chosen.{sent, taken, followed, unchosen};
    ghost use Rattle.elements.specs.Steps.{free_in, choice_of};

    // The carried value stands.
    pub fn new() -> Elements
        ensures { (uses : List ℕ) → choice_of result uses ≡ unchosen (table_of no_tasks no_signals no_grid) 0 uses }
    {
        Elements {
            standing: Standing::new(),
            own: [0; MOST_TASKS],
            count: 1,
        }
    }

    // A reader gets the element that stands, which is held until the reader closes.
    pub fn send(&mut self, uses: &mut [u8; MOST_USES], number: usize, closing: u32)
        requires { number < most_uses }
        ensures { choice_of self.new uses.new ≡ sent (choice_of self.old uses.old) number closing }
    {
        uses[number] = self.standing.current as u8;
        self.standing.reach = self.standing.reach.max(closing);
    }

    // A writer takes the lowest free element, and holds it.
    pub fn take(&mut self, uses: &mut [u8; MOST_USES], number: usize, task: usize, tick: u32)
        requires { (number < most_uses) × (task < most_tasks) }
        ensures { choice_of self.new uses.new ≡ taken (choice_of self.old uses.old) number task (free_in self.old.standing.held tick) }
    {
        let e = first_free(&self.standing.held, tick);
        self.standing.held[e] = NEVER;
        self.own[task] = e;
        uses[number] = e as u8;
        self.count = self.count.max(e as u32 + 1);
    }

    // What a task wrote now stands; what stood before is held while a reader of it is open.
    pub fn publish(&mut self, task: usize, tick: u32)
        requires { task < most_tasks }
        ensures { (uses : List ℕ) → choice_of self.new uses ≡ followed (choice_of self.old uses) task tick }
    {
        self.standing.publish(self.own[task], tick);
    }
}
