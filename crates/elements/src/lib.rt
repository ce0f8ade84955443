// The elements of one signal in one pass over the openings and closings of a hyper-period, with one until-tick for each element.
#![tactic(auto)]

mod free;
mod pass;
mod standing;
mod state;

pub use free::first_free;
pub use pass::{Numbers, plan_signal};
pub use standing::{NEVER, Standing};

// The last element that a signal may have.
pub const LAST: usize = rules::MOST_ELEMENTS - 1;
