// What the tasks of one signal publish: the value that stands at a tick, the next publication, and until when a value is live; each in one pass over the tasks.
#![tactic(auto)]

mod bindings;
mod rights;
mod untils;

pub use bindings::binding_at;
pub use rights::{reads, writes};
pub use untils::{next_publication, until};

// When a value was published, and by which instance of which task. The carried one stands from tick 0 on, under document 01's task number CARRIED: `binding_of`
// gives that number, by `nothing_yet` in specs/Forms.
#[derive(Clone, Copy)]
pub struct Publication {
    pub tick: u32,
    pub task: usize,
    pub instance: u32,
}
