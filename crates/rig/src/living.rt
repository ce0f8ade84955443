// `live SIGNAL LEN`: the live list of a signal of the kept table, filled into a lent list of records.
ghost use Rattle.std.specs.Prelude.{◌≡◌};

use crate::bench::Bench;
use crate::tell::{bad_line, end_of_answer, put_answer, put_part};
use console::page::Page;
use console::words::SPACE;
use lives::{LiveValue, lent};
use rules::MOST_LENT;

const DOT: u8 = b'.';

// What each record of the lent list is beforehand.
const UNTOUCHED: LiveValue = LiveValue {
    task: 170,
    instance: 43690,
    from: 2863311530,
    until: 2863311530,
    element: 170,
};

fn put_value(page: &mut Page, value: &LiveValue) {
    put_part(page, SPACE, u64::from(value.task));
    put_part(page, DOT, u64::from(value.instance));
    put_part(page, DOT, u64::from(value.from));
    put_part(page, DOT, u64::from(value.until));
    put_part(page, DOT, u64::from(value.element));
}

fn put_values(page: &mut Page, values: &[LiveValue]) {
    for value in values {
        put_value(page, value);
    }
}

impl<'a> Bench<'a> {
    // The whole lent list is shown, so that a record that should have stayed is seen.
    pub(crate) fn live_kept(&mut self, signal: usize, len: usize)
        ensures { self.new.kept ≡ self.old.kept }
    {
        if MOST_LENT < len {
            return bad_line(&mut self.out);
        }
        let lived = lent(self.kept.text(), signal, len, UNTOUCHED);
        put_answer(&mut self.out, lived.answer);
        put_values(&mut self.out, &lived.values[..len]);
        end_of_answer(&mut self.out);
    }
}
