// What every answer is made of.
ghost use Rattle.std.specs.Prelude.{[], ◌∷◌};
ghost use Rattle.rules.specs.Numbers.{told};
ghost use Rattle.console.specs.Shown.{Puts};
ghost use Rattle.rig.specs.Tell.{line_feed, number_and_place, bad_line};

use console::page::Page;
use console::words::SPACE;
use rules::Answer;

pub const LINE_FEED: u8 = b'\n';

const BAD_LINE: &[u8] = b"bad line\n";

// Number and place. u64 has no From of usize, as wide as it is; `try_from` would add a case that never comes.
pub(crate) fn put_answer(page: &mut Page, answer: Answer)
    ensures { Puts (number_and_place (told answer)) page.old page.new }
{
    page.put_decimal(u64::from(answers::number(answer)));
    page.put(SPACE);
    page.put_decimal(answers::place(answer) as u64);
}

pub(crate) fn end_of_answer(page: &mut Page)
    ensures { Puts (line_feed ∷ []) page.old page.new }
{
    page.put(LINE_FEED);
}

// An answer that is number and place alone.
pub(crate) fn tell(page: &mut Page, answer: Answer) {
    put_answer(page, answer);
    end_of_answer(page);
}

// One number more, after what separates it from the one before.
pub(crate) fn put_part(page: &mut Page, mark: u8, n: u64) {
    page.put(mark);
    page.put_decimal(n);
}

// Number, place and one number more.
pub(crate) fn tell_with(page: &mut Page, answer: Answer, more: u64) {
    put_answer(page, answer);
    put_part(page, SPACE, more);
    end_of_answer(page);
}

pub(crate) fn bad_line(page: &mut Page)
    ensures { Puts bad_line page.old page.new }
{
    page.put_all(BAD_LINE);
}
