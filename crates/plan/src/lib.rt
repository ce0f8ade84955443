// The plan of a table: the elements of its uses signal by signal, written as a schedule.
#![tactic(auto)]

mod planning;
mod uses;

pub use planning::plan;
