// The lines of a listing, each with its line feed: a function for each, as each has a definition of its own in rules/specs/Listing.
// One over (name, number) pairs would be no plainer: the names would stand at each call, and the tail of a line would be a loop.
ghost use Rattle.std.specs.Prelude.{[], ◌∷◌};
ghost use Rattle.rules.specs.Numbers.{told};
ghost use Rattle.rules.specs.Listing.{named, hyper_line, signal_line, use_line, total_line, refused_line, text_of};
ghost use Rattle.console.specs.Shown.{Puts};

use console::page::Page;
use rules::Answer;

const LINE_FEED: u8 = b'\n';

const HYPER: &[u8] = b"hyper ";

const SIGNAL: &[u8] = b"signal ";

const ELEMENTS: &[u8] = b" elements ";

const INSTANCE: &[u8] = b" ";

const ELEMENT: &[u8] = b" element ";

const TOTAL: &[u8] = b"total ";

const REFUSED: &[u8] = b"refused ";

const PLACE: &[u8] = b" place ";

fn put_named(page: &mut Page, name: &[u8], n: u64)
    ensures { Puts (named name.now n) page.old page.new }
{
    page.put_all(name);
    page.put_decimal(n);
}

// The last number of a line.
fn put_last(page: &mut Page, name: &[u8], n: u64)
    ensures { Puts (text_of (named name.now n ∷ [])) page.old page.new }
{
    put_named(page, name, n);
    page.put(LINE_FEED);
}

pub fn put_hyper(page: &mut Page, hyper: u32)
    ensures { Puts (text_of (hyper_line hyper ∷ [])) page.old page.new }
{
    put_last(page, HYPER, u64::from(hyper));
}

pub fn put_signal(page: &mut Page, signal: u8, count: u8)
    ensures { Puts (text_of (signal_line signal count ∷ [])) page.old page.new }
{
    put_named(page, SIGNAL, u64::from(signal));
    put_last(page, ELEMENTS, u64::from(count));
}

// The pieces of a use's line. `name` says whether the instance writes or reads.
fn put_pieces(page: &mut Page, name: &[u8], task: u8, instance: u16, element: u8)
    ensures { Puts (text_of (use_line name.now task instance element ∷ [])) page.old page.new }
{
    put_named(page, name, u64::from(task));
    put_named(page, INSTANCE, u64::from(instance));
    put_last(page, ELEMENT, u64::from(element));
}

// A page of its own for the line, so that the number of bytes in use goes from piece to piece in a register and not through memory.
pub fn put_use(page: &mut Page, name: &[u8], task: u8, instance: u16, element: u8)
    ensures { Puts (text_of (use_line name.now task instance element ∷ [])) page.old page.new }
{
    let mut line = Page {
        bytes: page.bytes,
        used: page.used,
    };
    put_pieces(&mut line, name, task, instance, element);
    page.used = line.used;
}

pub fn put_total(page: &mut Page, sum: u64)
    ensures { Puts (text_of (total_line sum ∷ [])) page.old page.new }
{
    put_last(page, TOTAL, sum);
}

pub fn put_refused(page: &mut Page, answer: Answer)
    ensures { Puts (text_of (refused_line (told answer) ∷ [])) page.old page.new }
{
    put_named(page, REFUSED, u64::from(answers::number(answer)));
    // u64 has no From of usize, as wide as it is; `try_from` would add a case that never comes.
    put_last(page, PLACE, answers::place(answer) as u64);
}
