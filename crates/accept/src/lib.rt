// A table that document 01's rules accept, in one piece: whoever has one need not look again.
#![tactic(auto)]

mod reading;

ghost use Rattle.std.specs.Prelude.{◌≡◌, ◌<◌, ◌≤◌};
ghost use Rattle.rules.specs.Windows as windows;
ghost use Rattle.rules.specs.Table.{Fits, most_signals, longest};
ghost use Rattle.rules.specs.Reading.{table_of, writes_in, reads_in};
ghost use Rattle.signals.specs.Forms.{binding_of, until_of};

pub use reading::{accept, accept_apart};
use rules::{MOST_SIGNALS, MOST_TASKS, Signals, Tasks};
use signals::Publication;
use windows::WindowedTasks;

// The hyper-period is the table's own.
#[derive(Clone, Copy)]
pub struct Accepted {
    pub tasks: Tasks,
    pub signals: Signals,
    pub grid: [[u8; MOST_SIGNALS]; MOST_TASKS],
    pub hyper: u32,
    pub ghost fits: { Fits (table_of tasks signals grid) },
    pub ghost own: { hyper ≡ windows.hyper (table_of tasks signals grid) },
}

impl Accepted {
    // Its tasks, each with its window inside its period.
    pub fn windowed(&self) -> WindowedTasks
        ensures { result.tasks ≡ self.now.tasks }
    {
        WindowedTasks { tasks: self.tasks }
    }

    // The value of the signal that a reader opening at the tick is bound to.
    pub fn binding_at(&self, signal: usize, tick: u32) -> Publication
        requires { signal < most_signals }
        ensures { result ≡ binding_of self.now.tasks (writes_in self.now.grid signal) tick }
    {
        signals::binding_at(self.windowed(), &self.grid, signal, tick)
    }

    // Until when the value of the signal that was published at a tick, 0 for the carried one, is live.
    pub fn live_until(&self, signal: usize, published: u32) -> u32
        requires { (signal < most_signals) × (published ≤ longest) }
        ensures { result ≡ until_of self.now.tasks (writes_in self.now.grid signal) (reads_in self.now.grid signal) self.now.hyper published }
    {
        signals::until(self.windowed(), &self.grid, signal, self.hyper, published)
    }
}
