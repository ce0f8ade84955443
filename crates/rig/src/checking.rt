// `check HEX`: a schedule held against the kept table.
ghost use Rattle.std.specs.Prelude.{◌≡◌};

use crate::bench::Bench;
use crate::tell::tell;
use console::digits::put_bytes;
use console::page::Page;
use console::words::after_word;
use inspect::check_schedule;

impl<'a> Bench<'a> {
    pub(crate) fn check_kept(&mut self, line: &[u8])
        ensures { self.new.kept ≡ self.old.kept }
    {
        let mut schedule = Page {
            bytes: self.lent,
            used: 0,
        };
        put_bytes(&mut schedule, after_word(line));
        let answer = check_schedule(self.kept.text(), schedule.text());
        tell(&mut self.out, answer);
    }
}
