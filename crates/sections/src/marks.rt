// The accesses as a kind of record that is put into the grid.
ghost use Rattle.std.specs.Prelude.{◌≡◌};
ghost use Rattle.rules.specs.Records.{access_at};
ghost use Rattle.rules.specs.Reading.{joined_of};
ghost use Rattle.sections.specs.Marks.{InGrid, mark, marks_left};

use crate::kinds::AccessRecords;
use crate::section::Kind;
use records::{Cursor, Step};
use rules::{Access, Accesses, MOST_SIGNALS, MOST_TASKS, READ, WRITE};

const BOTH: u8 = READ + WRITE;

// The grid so far, with the accesses that it has.
#[derive(Clone, Copy)]
pub(crate) struct Marked {
    pub grid: [[u8; MOST_SIGNALS]; MOST_TASKS],
    pub accesses: Accesses,
}

// The accesses of a table, each put into its cell too.
#[derive(Clone, Copy)]
pub(crate) struct Marks {
    pub accesses: AccessRecords,
}

impl Kind for Marks {
    type Record = Access;

    type Kept = Marked;

    ghost fits = { InGrid };

    ghost step = { λ marks bytes b. access_at bytes marks.accesses.tasks marks.accesses.signals b.accesses.count b.accesses.last };

    ghost put = { mark };

    ghost left = { marks_left };

    fn ask(&self, bytes: &[u8], marked: &Marked, place: Cursor) -> Step<Access> {
        self.accesses.ask(bytes, &marked.accesses, place)
    }

    #[tactic(auto, unfolding(rules::specs::Records::access_at, rules::specs::Words::when))]
    fn keep(&self, marked: &mut Marked, access: Access) {
        let task = usize::from(access.task);
        let signal = usize::from(access.signal);
        marked.grid[task][signal] = joined(access.right, marked.grid[task][signal]);
        self.accesses.keep(&mut marked.accesses, access);
    }
}

// RD comes before WR, so that a right that joins another makes both.
#[tactic(auto, unfolding(rules::specs::Reading::joined_of, rules::specs::Words::when))]
fn joined(right: u8, cell: u8) -> u8
    ensures { result ≡ joined_of right cell }
{
    if cell == 0 { right } else { BOTH }
}
