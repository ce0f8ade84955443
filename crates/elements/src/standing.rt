// What stands of a signal: the planner chooses by it, and the check asks whether what was chosen fits it.
ghost use Rattle.std.specs.Prelude.{◌<◌};
ghost use Rattle.rules.specs.Table.{most_elements};

use rules::{CARRIED_ELEMENT, LONGEST, MOST_ELEMENTS};

// No window opens at this tick or later: so long is an element held whose value is being written or stands.
pub const NEVER: u32 = LONGEST;

// Until when each element is held. Of the value that stands, its element and the last closing of the readers that opened since.
#[derive(Clone, Copy)]
pub struct Standing {
    pub held: [u32; MOST_ELEMENTS],
    pub current: usize,
    pub reach: u32,
    pub ghost stands: { current < most_elements },
}

impl Standing {
    ghost use Rattle.std.specs.Prelude.{◌≡◌, max, set};
    ghost use Rattle.theory.specs.Sweep.{never, none_held};

    // The carried value stands, and its element is held until it is published over.
    pub fn new() -> Standing
        ensures held { result.held ≡ set (none_held most_elements) 0 never }
        ensures current { result.current ≡ 0 }
        ensures reach { result.reach ≡ 0 }
    {
        let mut held = [0; MOST_ELEMENTS];
        held[CARRIED_ELEMENT] = NEVER;
        Standing {
            held,
            current: CARRIED_ELEMENT,
            reach: 0,
        }
    }

    // The value of this element now stands; what stood before is held while a reader of it is open.
    pub fn publish(&mut self, element: usize, tick: u32)
        requires { element < most_elements }
        ensures held { self.new.held ≡ set self.old.held self.old.current (max tick self.old.reach) }
        ensures current { self.new.current ≡ element }
        ensures reach { self.new.reach ≡ 0 }
    {
        self.held[self.current] = tick.max(self.reach);
        self.current = element;
        self.reach = 0;
    }
}
