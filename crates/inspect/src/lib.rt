// The check of a schedule that was made elsewhere: its table, then the verdict with that table.
#![tactic(auto)]

ghost use Rattle.inspect.specs.Gives.{CheckGives};

use accept::accept_apart;
use rules::Answer;
use verdict::check_with;

// 1 to 11 for the table, then 15 to 22 for the schedule.
pub fn check_schedule(table: &[u8], schedule: &[u8]) -> Answer
    ensures { CheckGives table.now schedule.now result }
{
    // By reference, so that the table does not lie on the stack twice.
    match &accept_apart(table) {
        Ok(accepted) => check_with(accepted, schedule),
        Err(refusal) => Err(*refusal),
    }
}
