// The element that a writer takes.
ghost use Rattle.std.specs.Prelude.{◌≡◌, ◌<◌, nat_le, position};
ghost use Rattle.rules.specs.Table.{most_elements};
ghost use Rattle.elements.specs.Steps.{free_in};

use crate::LAST;
use rules::MOST_ELEMENTS;

// The lowest element that is not held past the tick. One always is free, so that the last is not asked.
pub fn first_free(held: &[u32; MOST_ELEMENTS], tick: u32) -> usize
    ensures { (result ≡ free_in held.now tick) × (result < most_elements) }
{
    first_unheld(&held[..LAST], tick).unwrap_or(LAST)
}

// The lowest of these elements that is not held past the tick.
fn first_unheld(held: &[u32], tick: u32) -> Option<usize>
    ensures { result ≡ position (λ until. nat_le until tick) held.now }
{
    held.iter().position(|until| *until <= tick)
}
