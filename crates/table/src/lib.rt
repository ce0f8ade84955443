// A table's bytes read: the records, then rules 7 to 11 on the table as a whole.
#![tactic(auto)]

mod apart;
mod judging;
mod reading;
mod sums;

pub use reading::{TableRead, read_table};
