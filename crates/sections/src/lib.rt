// The sections of a table: each reads records of its kind from where the one before ended, and stops at another mark or at a refusal.
#![tactic(auto)]

pub mod grid;
mod kinds;
mod marks;
mod section;

ghost use Rattle.std.specs.Prelude.{◌≡◌, ◌≤◌};
ghost use Rattle.rules.specs.Table.{most_tasks, most_signals, most_accesses};
ghost use Rattle.rules.specs.Reading.{tasks_in, signals_in, accesses_in, ended};
ghost use Rattle.records.specs.Said.{end_said};
ghost use Rattle.sections.specs.Said.{section_said};

use kinds::{AccessRecords, SignalRecords, TaskRecords, no_accesses};
use reader::end_at;
use records::Cursor;
use rules::{Accesses, MOST_SIGNALS, MOST_TASKS, Refusal, Signals, Task, Tasks};
pub use section::SectionRead;
use section::read_after;

// All TK, from the first byte.
#[tactic(auto, using(crate::proofs::Few::tasks_few), unfolding(rules::specs::Reading::tasks_in))]
pub fn read_tasks(bytes: &[u8]) -> SectionRead<Tasks>
    ensures is { section_said result ≡ tasks_in bytes.now }
    ensures few { result.read.count ≤ most_tasks }
{
    let none = Task {
        period: 0,
        start: 0,
        end: 0,
    };
    let none = Tasks {
        list: [none; MOST_TASKS],
        count: 0,
    };
    read_after(&TaskRecords {}, bytes, none, Ok(Cursor { at: 0 }))
}

// All SG, from where the tasks ended.
#[tactic(auto, unfolding(rules::specs::Reading::signals_in))]
pub fn read_signals(bytes: &[u8], from: Result<Cursor, Refusal>) -> SectionRead<Signals>
    ensures is { section_said result ≡ signals_in bytes.now (end_said from) }
    ensures few { result.read.count ≤ most_signals }
{
    let none = Signals {
        defaults: [0u32; MOST_SIGNALS],
        count: 0,
    };
    read_after(&SignalRecords {}, bytes, none, from)
}

// All RD and WR, from where the signals ended, with the numbers of tasks and signals that they may name.
#[tactic(auto, unfolding(rules::specs::Reading::accesses_in))]
pub fn read_accesses(
    bytes: &[u8],
    tasks: usize,
    signals: usize,
    from: Result<Cursor, Refusal>,
) -> SectionRead<Accesses>
    ensures is { section_said result ≡ accesses_in bytes.now tasks signals (end_said from) }
    ensures few { result.read.count ≤ most_accesses }
{
    let kind = AccessRecords { tasks, signals };
    read_after(&kind, bytes, no_accesses(), from)
}

// EN, from where the accesses ended.
#[tactic(auto, unfolding(rules::specs::Reading::ended))]
pub fn read_end(bytes: &[u8], from: Result<Cursor, Refusal>) -> Result<Cursor, Refusal>
    ensures { end_said result ≡ ended bytes.now (end_said from) }
{
    end_at(bytes, from?)
}
