// The lent list. What is filled in is decided first, by value; then it is copied. A refusal fills no record.
ghost use Rattle.lives.specs.Values.{Fills};
ghost use Rattle.lives.specs.Gives.{ListGives, LentGives};

use crate::values::values_of;
use crate::{LiveValue, Lives};
use accept::accept;
use rules::{Answer, MOST_LENT, Refusal};

// An answer with the list that it filled. No Result: LentGives says the records on a refusal too, that they stayed.
#[derive(Clone, Copy)]
pub struct Lived {
    pub answer: Answer,
    pub values: [LiveValue; MOST_LENT],
}

// What is filled in where so many records are lent. No signal needs over 32 elements, so that 12 is never given.
fn lives_of(table: &[u8], signal: usize, room: usize) -> Result<Lives, Refusal>
    ensures { Fills table.now signal room result }
{
    let accepted = accept(table)?;
    if accepted.signals.count <= signal {
        return Err(Refusal::NoAccess);
    }
    let lives = values_of(&accepted, signal);
    if room < lives.count {
        return Err(Refusal::TooShort(lives.count));
    }
    Ok(lives)
}

// The live list of a signal at the front of the lent list, whose other records stay. A refusal changes nothing.
pub fn live_list(table: &[u8], signal: usize, list: &mut [LiveValue]) -> Answer
    ensures { ListGives table.now signal list.old result list.new }
{
    let lives = lives_of(table, signal, list.len())?;
    list[..lives.count].copy_from_slice(&lives.values[..lives.count]);
    Ok(lives.count)
}

// The same by value, for a caller without such a list: so many records are lent, at most 600, and each is `before` beforehand.
pub fn lent(table: &[u8], signal: usize, room: usize, before: LiveValue) -> Lived
    ensures { LentGives table.now signal room before result }
{
    let mut values = [before; MOST_LENT];
    let first = room.min(MOST_LENT);
    let answer = live_list(table, signal, &mut values[..first]);
    Lived { answer, values }
}
