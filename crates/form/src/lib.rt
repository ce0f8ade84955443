// The records of a schedule: how many bytes they take, and whether lent bytes have their form.
#![tactic(auto)]

mod forms;
mod lengths;
mod sides;
mod users;

pub use forms::form;
pub use lengths::length;
pub use sides::{Use, instances_of, mark_of, permitted};
pub use users::Users;
