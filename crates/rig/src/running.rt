// `load HEX`, `step K`, `read TASK SIGNAL` and `write TASK SIGNAL WORD`: the machine, which runs on under another kept table.
ghost use Rattle.std.specs.Prelude.{◌≡◌};

use crate::bench::Bench;
use crate::tell::{bad_line, tell, tell_with};
use console::digits::put_bytes;
use console::page::Page;
use console::words::after_word;
use machine::{Machine, Stepped};

// No step at all is done.
fn steps(machine: Machine, k: u64) -> Stepped {
    let mut last = Stepped {
        answer: Ok(0),
        machine,
    };
    for _ in 0..k {
        last = last.machine.step();
        if last.answer.is_err() {
            break;
        }
    }
    last
}

impl<'a> Bench<'a> {
    // The machine that a call gave back is the bench's from now on.
    fn tell_stepped(&mut self, stepped: Stepped)
        ensures { self.new.kept ≡ self.old.kept }
    {
        self.machine = stepped.machine;
        tell(&mut self.out, stepped.answer);
    }

    pub(crate) fn load_kept(&mut self, line: &[u8])
        ensures { self.new.kept ≡ self.old.kept }
    {
        let mut schedule = Page {
            bytes: self.lent,
            used: 0,
        };
        put_bytes(&mut schedule, after_word(line));
        let machine = self.machine;
        let loaded = machine.load(self.kept.text(), schedule.text());
        self.tell_stepped(loaded);
    }

    pub(crate) fn step_machine(&mut self, k: u64)
        ensures { self.new.kept ≡ self.old.kept }
    {
        let stepped = steps(self.machine, k);
        self.tell_stepped(stepped);
    }

    pub(crate) fn read_machine(&mut self, task: usize, signal: usize)
        ensures { self.new.kept ≡ self.old.kept }
    {
        let machine = self.machine;
        let read = machine.read(task, signal);
        tell_with(&mut self.out, read.answer, u64::from(read.word));
    }

    pub(crate) fn write_machine(&mut self, task: usize, signal: usize, word: u64)
        ensures { self.new.kept ≡ self.old.kept }
    {
        let Ok(word) = u32::try_from(word) else {
            return bad_line(&mut self.out);
        };
        let machine = self.machine;
        let written = machine.write(task, signal, word);
        self.tell_stepped(written);
    }
}
