// One section: records of one kind, one after the other, up to another mark or a refusal.
ghost use Rattle.std.specs.Prelude.{ℕ, ◌≡◌, List, suc};
ghost use Rattle.rules.specs.Records.{Step};
ghost use Rattle.rules.specs.Reading.{section, from};
ghost use Rattle.records.specs.Said.{step_said, end_said};
ghost use Rattle.sections.specs.Kinds.{Given};
ghost use Rattle.sections.specs.Said.{section_said};

use records::{Cursor, Step};
use rules::Refusal;

// What was read, and how the section ends. A value beside a Result, since what was read comes back with a refusal too: `tasks_in` and its like say both.
#[derive(Clone, Copy)]
pub struct SectionRead<T> {
    pub read: T,
    pub end: Result<Cursor, Refusal>,
}

// A kind of record, with what is kept of a section of them.
pub(crate) trait Kind {
    type Record: Copy;

    type Kept: Copy;

    // Which kinds a caller may have; what a place gives, how its record is kept, and how many more fit.
    ghost fits: { Self → Type 0 };

    ghost step: { Self → List ℕ → Self.Kept → ℕ → Step Self.Record };

    ghost put: { Self.Kept → Self.Record → Self.Kept };

    ghost left: { Self.Kept → ℕ };

    // Asked for one record more after those that are kept.
    fn ask(&self, bytes: &[u8], kept: &Self::Kept, place: Cursor) -> Step<Self::Record>
        ensures { step_said result ≡ step self.now bytes.now kept.now place.at };

    // Keeps the record that was given, which leaves room for one less.
    fn keep(&self, kept: &mut Self::Kept, given: Self::Record)
        requires kind { fits self.now }
        requires given { Given (λ bytes. step self.now bytes kept.old) given }
        ensures kept { kept.new ≡ put kept.old given }
        ensures one_less { left kept.old ≡ suc (left kept.new) };
}

// The records of a kind from where the section before ended; after a refusal none.
pub(crate) fn read_after<K: Kind>(
    kind: &K,
    bytes: &[u8],
    none: K::Kept,
    before: Result<Cursor, Refusal>,
) -> SectionRead<K::Kept>
    requires { K.fits kind.now }
    ensures { section_said result ≡ from (section (K.step kind.now bytes.now) K.put (suc (K.left none)) none) none (end_said before) }
{
    match before {
        Ok(place) => read_section(kind, bytes, none, place),
        Err(_) => SectionRead {
            read: none,
            end: before,
        },
    }
}

// All records of a kind from a place on. One too many is refused, so that one question more than fits is enough. It is a loop without `?`, since a refusal
// gives what was read too.
#[tactic(auto, unfolding(rules::specs::Reading::section))]
fn read_section<K: Kind>(
    kind: &K,
    bytes: &[u8],
    none: K::Kept,
    from: Cursor,
) -> SectionRead<K::Kept>
    requires { K.fits kind.now }
    ensures { section_said result ≡ section (K.step kind.now bytes.now) K.put (suc (K.left none)) none from.at }
{
    let mut read = none;
    let mut place = from;
    let end = loop {
        match kind.ask(bytes, &read, place) {
            Ok(Some((given, next))) => {
                kind.keep(&mut read, given);
                place = next;
            }
            Ok(None) => break Ok(place),
            Err(refusal) => break Err(refusal),
        }
    };
    SectionRead { read, end }
}
