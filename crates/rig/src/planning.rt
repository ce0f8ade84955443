// `plan LEN` and `list`: the kept table planned into a lent buffer, and its listing.
ghost use Rattle.std.specs.Prelude.{◌≡◌};

use crate::bench::Bench;
use crate::tell::{bad_line, end_of_answer, put_answer};
use console::page::Page;
use console::words::SPACE;
use plan::plan;
use text::put_listing;

// What each byte of a lent buffer is beforehand.
const UNTOUCHED: u8 = 0xAA;

// The whole buffer is shown, so that a byte that should have stayed is seen.
fn plan_into(table: &[u8], lent: &mut [u8], out: &mut Page) {
    lent.fill(UNTOUCHED);
    let answer = plan(table, lent);
    put_answer(out, answer);
    out.put(SPACE);
    out.put_hex(lent);
    end_of_answer(out);
}

fn list_into(table: &[u8], lent: &mut [u8], out: &mut Page) {
    let used = out.used;
    out.used = put_listing(table, lent, out.bytes, used);
}

impl<'a> Bench<'a> {
    pub(crate) fn plan_kept(&mut self, len: usize)
        ensures { self.new.kept ≡ self.old.kept }
    {
        if self.lent.len() < len {
            return bad_line(&mut self.out);
        }
        plan_into(self.kept.text(), &mut self.lent[..len], &mut self.out);
    }

    pub(crate) fn list_kept(&mut self)
        ensures { self.new.kept ≡ self.old.kept }
    {
        list_into(self.kept.text(), self.lent, &mut self.out);
    }
}
