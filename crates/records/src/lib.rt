// One record at a cursor: the record with the cursor moved on, or another mark, or a refusal with its place.
// Each method makes the paper's tests in the paper's order.
#![tactic(auto)]

ghost use Rattle.std.specs.Prelude.{◌≡◌, ◌+◌, ◌≤◌, ◌<◌, true, false, length, IfOk, IfErr, IfSome, IsNone};
ghost use Rattle.rules.specs.Fields.{holds_at};
ghost use Rattle.rules.specs.Table.{windowed};
ghost use Rattle.rules.specs.Records.{task_in, right_at, access_in, key_of};
ghost use Rattle.records.specs.Gives.{TaskGives, SignalGives, AccessGives, EndGives};

use fields::{holds, marked, word};
use rules::{
    Access, EN, EN_BYTES, LONGEST, MOST_ACCESSES, MOST_SIGNALS, MOST_TASKS, RD, READ, Refusal, SG,
    TK, Task, WR, WRITE,
};

// The bytes of each record with its mark.
const TASK_BYTES: usize = 14;

const SIGNAL_BYTES: usize = 6;

const ACCESS_BYTES: usize = 4;

// The reader's place in the table's bytes.
#[derive(Clone, Copy)]
pub struct Cursor {
    pub at: usize,
}

// What a place gives that is asked for a record of one kind: the record with the cursor moved on, nothing where another mark stands, or a refusal.
pub type Step<T> = Result<Option<(T, Cursor)>, Refusal>;

impl Cursor {
    // Asked for a task, after `count` tasks.
    #[tactic(auto, unfolding(rules::specs::Records::task_at, rules::specs::Words::when))]
    pub fn task(self, bytes: &[u8], count: usize) -> Step<Task>
        ensures { TaskGives bytes.now count self result }
    {
        let at = self.at;
        if !marked(bytes, at, TK) {
            return Ok(None);
        }
        let next = self.past(bytes, TASK_BYTES)?;
        self.one_more(count, MOST_TASKS)?;
        let task = task_in(bytes, at);
        if !window_fits(task) {
            return Err(Refusal::BadField(at));
        }
        Ok(Some((task, next)))
    }

    // Asked for a signal, after `count` signals; its record holds its default.
    #[tactic(auto, unfolding(rules::specs::Records::signal_at, rules::specs::Words::when))]
    pub fn signal(self, bytes: &[u8], count: usize) -> Step<u32>
        ensures { SignalGives bytes.now count self result }
    {
        let at = self.at;
        if !marked(bytes, at, SG) {
            return Ok(None);
        }
        let next = self.past(bytes, SIGNAL_BYTES)?;
        self.one_more(count, MOST_SIGNALS)?;
        Ok(Some((word(bytes, at + 2), next)))
    }

    // Asked for an access to one of `tasks` tasks and `signals` signals, after `count` accesses that `last` is the last of.
    #[tactic(auto, unfolding(rules::specs::Records::access_at, rules::specs::Records::access_in, rules::specs::Words::when))]
    pub fn access(
        self,
        bytes: &[u8],
        tasks: usize,
        signals: usize,
        count: usize,
        last: Access,
    ) -> Step<Access>
        ensures { AccessGives bytes.now tasks signals count last self result }
    {
        let at = self.at;
        let Some(right) = right_at(bytes, at) else {
            return Ok(None);
        };
        let next = self.past(bytes, ACCESS_BYTES)?;
        self.one_more(count, MOST_ACCESSES)?;
        let access = access_in(bytes, at, right);
        if tasks <= usize::from(access.task) || signals <= usize::from(access.signal) {
            return Err(Refusal::BadField(at));
        }
        if key(access) <= key(last) {
            return Err(Refusal::NotAfter(at));
        }
        Ok(Some((access, next)))
    }

    // Asked for the end: a mark that no section took is unknown or out of order.
    #[tactic(auto, unfolding(rules::specs::Records::end_at, rules::specs::Words::when))]
    pub fn end(self, bytes: &[u8]) -> Result<Cursor, Refusal>
        ensures { EndGives bytes.now self result }
    {
        let next = self.past(bytes, EN_BYTES)?;
        if !marked(bytes, self.at, EN) {
            return Err(Refusal::BadMark(self.at));
        }
        if next.at < bytes.len() {
            return Err(Refusal::AfterEnd(next.at));
        }
        Ok(next)
    }

    // The cursor past a record of `n` bytes, which must stand here whole.
    #[tactic(auto, unfolding(rules::specs::Fields::holds_at))]
    fn past(self, bytes: &[u8], n: usize) -> Result<Cursor, Refusal>
        ensures whole { IfOk result (λ next. (holds_at bytes.now self.at n ≡ true) × (self.at + n ≤ length bytes.now) × (next ≡ record { at = self.at + n })) }
        ensures cut { IfErr result (λ refusal. (holds_at bytes.now self.at n ≡ false) × (refusal ≡ Refusal.TableCut self.at)) }
    {
        if !holds(bytes, self.at, n) {
            return Err(Refusal::TableCut(self.at));
        }
        Ok(Cursor { at: self.at + n })
    }

    // There is room for one record more after `count` of at most `most`.
    fn one_more(self, count: usize, most: usize) -> Result<(), Refusal>
        ensures room { IfOk result (λ _. count < most) }
        ensures full { IfErr result (λ refusal. (most ≤ count) × (refusal ≡ Refusal.TooMany self.at)) }
    {
        if most <= count {
            return Err(Refusal::TooMany(self.at));
        }
        Ok(())
    }
}

// The fields of a task whose whole record stands at `at`.
#[tactic(auto, unfolding(rules::specs::Records::task_in))]
fn task_in(bytes: &[u8], at: usize) -> Task
    requires { at + 14 ≤ length bytes.now }
    ensures { result ≡ task_in bytes.now at }
{
    Task {
        period: word(bytes, at + 2),
        start: word(bytes, at + 6),
        end: word(bytes, at + 10),
    }
}

// A window that is not empty ends within its period, so that the period is at least 1 too.
#[tactic(auto, unfolding(rules::specs::Table::windowed))]
fn window_fits(task: Task) -> bool
    ensures { result ≡ windowed task.period task.start task.end }
{
    (task.start < task.end) & (task.end <= task.period) & (task.period <= LONGEST)
}

// The right that a mark gives, none where neither RD nor WR stands. It stays the number that `Access` keeps: a caller's `last` may have any.
#[tactic(auto, unfolding(rules::specs::Records::right_at, rules::specs::Words::when))]
fn right_at(bytes: &[u8], at: usize) -> Option<u8>
    ensures some { IfSome result (λ right. (right ≡ right_at bytes.now at) × (0 < right)) }
    ensures none { IsNone result → right_at bytes.now at ≡ 0 }
{
    if marked(bytes, at, RD) {
        return Some(READ);
    }
    if marked(bytes, at, WR) {
        return Some(WRITE);
    }
    None
}

// The fields of an access whose whole record stands at `at`, with the right that its mark gives.
#[tactic(auto, unfolding(rules::specs::Records::access_in))]
fn access_in(bytes: &[u8], at: usize, right: u8) -> Access
    requires { (at + 4 ≤ length bytes.now) × (right ≡ right_at bytes.now at) }
    ensures { result ≡ access_in bytes.now at }
{
    Access {
        task: bytes[at + 2],
        signal: bytes[at + 3],
        right,
    }
}

// One number to compare: it rises by task, then signal, then RD before WR. It is no derived order of the fields: `last` may have a right above 3,
// and `key_of` in rules/specs/Records.antt compares this sum.
fn key(access: Access) -> usize
    ensures { result ≡ key_of access }
{
    (usize::from(access.task) * 256 + usize::from(access.signal)) * 4 + usize::from(access.right)
}
