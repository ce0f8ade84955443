// The bench console: commands on standard input, one to a line, and an answer to each on standard output.
#![tactic(auto)]

mod bench;
mod checking;
mod dispatch;
mod input;
mod keeping;
mod living;
mod planning;
mod running;
mod tell;

use bench::{Bench, LONGEST, MOST_BYTES, OUTPUT, PIECE};
use console::page::Page;
use machine::Machine;
use std::io;

fn main(rt: HostRuntime) -> io::Result<()> {
    let mut piece = [0u8; PIECE];
    // One byte more than the longest line, so that a full page is a line that is too long.
    let mut line = [0u8; LONGEST + 1];
    let mut kept = [0u8; MOST_BYTES];
    let mut lent = [0u8; MOST_BYTES];
    let mut out = [0u8; OUTPUT];
    let kept = Page {
        bytes: &mut kept,
        used: 0,
    };
    let out = Page {
        bytes: &mut out,
        used: 0,
    };
    let mut bench = Bench {
        kept,
        lent: &mut lent,
        out,
        machine: Machine::new(),
    };
    let mut line = Page {
        bytes: &mut line,
        used: 0,
    };
    input::run(
        &mut rt.stdin(),
        &mut rt.stdout(),
        &mut piece,
        &mut line,
        &mut bench,
    )
}
