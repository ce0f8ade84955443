// Reading a table that has to be accepted.
ghost use Rattle.accept.specs.Accepts.{Accepts};

use crate::Accepted;
use rules::Refusal;
use sections::grid::read_grid;
use table::read_table;

// 1 to 11, or the table.
pub fn accept(bytes: &[u8]) -> Result<Accepted, Refusal>
    ensures { Accepts bytes.now result }
{
    let read = read_table(bytes);
    let hyper = read.hyper?;
    Ok(Accepted {
        tasks: read.tasks,
        signals: read.signals,
        grid: read_grid(bytes),
        hyper,
    })
}

// The same, not inlined, so that what reading needs of the stack is free again when the caller goes on.
#[inline(never)]
pub fn accept_apart(bytes: &[u8]) -> Result<Accepted, Refusal>
    ensures { Accepts bytes.now result }
{
    accept(bytes)
}
