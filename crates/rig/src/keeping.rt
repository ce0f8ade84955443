// `table HEX`: these bytes are the table from now on.
ghost use Rattle.std.specs.Prelude.{◌≡◌};
ghost use Rattle.console.specs.Page.{page, put_all};
ghost use Rattle.console.specs.Shown.{shown};
ghost use Rattle.console.specs.Words.{after_word};
ghost use Rattle.console.specs.Digits.{bytes_of};

use crate::bench::Bench;
use crate::tell::tell_with;
use console::digits::put_bytes;
use console::words::after_word;

impl<'a> Bench<'a> {
    pub(crate) fn keep(&mut self, line: &[u8])
        ensures { shown self.new.kept ≡ put_all (bytes_of (after_word line.now)) (page self.old.kept.bytes.now 0) }
    {
        self.kept.clear();
        put_bytes(&mut self.kept, after_word(line));
        let read = table::read_table(self.kept.text());
        let answer = read.hyper.and(Ok(0));
        tell_with(&mut self.out, answer, u64::from(read.hyper.unwrap_or(0)));
    }
}
