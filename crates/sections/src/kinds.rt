// The kinds of record of a table: what is asked for, and how it is put to those before it. Tasks and signals are kept in the same way, but in two types:
// `TableGives` names both.
ghost use Rattle.std.specs.Prelude.{◌≡◌};
ghost use Rattle.rules.specs.Records.{task_at, signal_at, access_at};
ghost use Rattle.rules.specs.Reading.{no_accesses, put_task, put_signal, put_access};
ghost use Rattle.sections.specs.Kinds.{Free, tasks_left, signals_left, accesses_left};

use crate::section::Kind;
use reader::{access_at, signal_at, task_at};
use records::{Cursor, Step};
use rules::{Access, Accesses, Signals, Task, Tasks};

// The tasks of a table.
#[derive(Clone, Copy)]
pub(crate) struct TaskRecords {}

impl Kind for TaskRecords {
    type Record = Task;

    type Kept = Tasks;

    ghost fits = { Free };

    ghost step = { λ kind bytes b. task_at bytes b.count };

    ghost put = { put_task };

    ghost left = { tasks_left };

    fn ask(&self, bytes: &[u8], tasks: &Tasks, place: Cursor) -> Step<Task> {
        task_at(bytes, place, tasks.count)
    }

    #[tactic(auto, unfolding(rules::specs::Records::task_at, rules::specs::Words::when))]
    fn keep(&self, tasks: &mut Tasks, task: Task) {
        tasks.list[tasks.count] = task;
        tasks.count += 1;
    }
}

// The signals of a table.
#[derive(Clone, Copy)]
pub(crate) struct SignalRecords {}

impl Kind for SignalRecords {
    type Record = u32;

    type Kept = Signals;

    ghost fits = { Free };

    ghost step = { λ kind bytes b. signal_at bytes b.count };

    ghost put = { put_signal };

    ghost left = { signals_left };

    fn ask(&self, bytes: &[u8], signals: &Signals, place: Cursor) -> Step<u32> {
        signal_at(bytes, place, signals.count)
    }

    #[tactic(auto, unfolding(rules::specs::Records::signal_at, rules::specs::Words::when))]
    fn keep(&self, signals: &mut Signals, default: u32) {
        signals.defaults[signals.count] = default;
        signals.count += 1;
    }
}

// The accesses of a table with so many tasks and signals.
#[derive(Clone, Copy)]
pub(crate) struct AccessRecords {
    pub tasks: usize,
    pub signals: usize,
}

impl Kind for AccessRecords {
    type Record = Access;

    type Kept = Accesses;

    ghost fits = { Free };

    ghost step = { λ kind bytes b. access_at bytes kind.tasks kind.signals b.count b.last };

    ghost put = { put_access };

    ghost left = { accesses_left };

    fn ask(&self, bytes: &[u8], accesses: &Accesses, place: Cursor) -> Step<Access> {
        access_at(
            bytes,
            place,
            self.tasks,
            self.signals,
            accesses.count,
            accesses.last,
        )
    }

    #[tactic(auto, unfolding(rules::specs::Records::access_at, rules::specs::Words::when))]
    fn keep(&self, accesses: &mut Accesses, access: Access) {
        accesses.count += 1;
        accesses.last = access;
    }
}

// The access of right 0 stands before every access that a table can hold.
pub(crate) fn no_accesses() -> Accesses
    ensures { result ≡ no_accesses }
{
    let none = Access {
        task: 0,
        signal: 0,
        right: 0,
    };
    Accesses {
        count: 0,
        last: none,
    }
}
