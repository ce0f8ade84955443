// Planning a table's bytes into a lent buffer.
ghost use Rattle.std.specs.Prelude.{◌≡◌, ◌≤◌, length, sum};
ghost use Rattle.rules.specs.Table.{most_signals};
ghost use Rattle.accept.specs.Accepts.{its_table};
ghost use Rattle.rules.specs.Numbers.{told};
ghost use Rattle.rules.specs.Answers.{plan_says};
ghost use Rattle.plan.specs.Planning.{planned_into};
ghost use Rattle.plan.specs.Gives.{PlanGives};

use crate::uses::plan_uses;
use accept::{Accepted, accept};
use rules::{Answer, MOST_SIGNALS, MOST_USES, Refusal, WORDS};

// The elements of all signals together.
fn in_all(counts: &[u8]) -> usize
    requires { length counts.now ≤ most_signals }
    ensures { result ≡ sum counts.now }
{
    counts.iter().map(|count| usize::from(*count)).sum()
}

// 13, 14, or the schedule. No signal needs over 32 elements, so that 12 is never given.
fn plan_accepted(accepted: &Accepted, out: &mut [u8]) -> Answer
    ensures { (told result ≡ plan_says (its_table accepted.now) (length out.old)) × (out.new ≡ planned_into (its_table accepted.now) out.old) }
{
    let n = accepted.signals.count;
    let mut counts = [0u8; MOST_SIGNALS];
    let mut uses = [0u8; MOST_USES];
    plan_uses(accepted, &mut counts, &mut uses);
    if WORDS < in_all(&counts[..n]) {
        return Err(Refusal::ManyInAll);
    }
    let bytes = form::length(accepted);
    if out.len() < bytes {
        return Err(Refusal::TooShort(bytes));
    }
    schedule::write(accepted, &counts, &uses, out);
    Ok(bytes)
}

// The schedule of a table's bytes at the front of the lent buffer, whose other bytes stay. A refusal changes nothing.
pub fn plan(table: &[u8], out: &mut [u8]) -> Answer
    ensures { PlanGives table.now out.old result out.new }
{
    let accepted = accept(table)?;
    plan_accepted(&accepted, out)
}
