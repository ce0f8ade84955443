// One line for each command. usize has no From of u64; it is as wide here, so that `as` keeps each number.
use crate::bench::{Bench, LONGEST};
use crate::tell::bad_line;
use console::command::{Command, asked, is_quiet};

impl<'a> Bench<'a> {
    fn answer_command(&mut self, command: Command, line: &[u8]) {
        match command {
            Command::Table => self.keep(line),
            Command::Plan(len) => self.plan_kept(len as usize),
            Command::Listing => self.list_kept(),
            Command::Live(signal, len) => self.live_kept(signal as usize, len as usize),
            Command::Check => self.check_kept(line),
            Command::Load => self.load_kept(line),
            Command::Steps(k) => self.step_machine(k),
            Command::Read(task, signal) => self.read_machine(task as usize, signal as usize),
            Command::Write(task, signal, word) => {
                self.write_machine(task as usize, signal as usize, word)
            }
        }
    }

    pub(crate) fn answer(&mut self, line: &[u8]) {
        // A comment may have any length.
        if is_quiet(line) {
            return;
        }
        if line.len() > LONGEST {
            return bad_line(&mut self.out);
        }
        match asked(line) {
            Some(command) => self.answer_command(command, line),
            None => bad_line(&mut self.out),
        }
    }
}
