// The listing of a table, as text on a lent page: what the listing program prints, and the bench.
#![tactic(auto)]

mod lines;
mod listing;
mod walk;

pub use listing::put_listing;
use rules::{BF_BYTES, EN_BYTES, MOST_SIGNALS, MOST_USES, USE_BYTES};

// The bytes of the longest schedule.
pub const LONGEST_SCHEDULE: usize = MOST_SIGNALS * BF_BYTES + MOST_USES * USE_BYTES + EN_BYTES;

// `write 15 511 element 31` and its line feed.
const LONGEST_LINE: usize = 24;

// No listing has more characters: one line for each use and each signal, and two more.
pub const LONGEST_LISTING: usize = (MOST_USES + MOST_SIGNALS + 2) * LONGEST_LINE;
