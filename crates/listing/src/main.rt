// The listing program: a table on standard input, its listing on standard output.
#![tactic(auto)]

ghost use Rattle.std.specs.Prelude.{◌≤◌, IfOk, length};

use console::page::front;
use std::io;
use std::io::{Read, Write};
use text::{LONGEST_LISTING, LONGEST_SCHEDULE, put_listing};

// More than the longest table that is accepted, which has 2,466 bytes: what is not read decides nothing.
const MOST_READ: usize = 4096;

// Reads until the buffer is full or the input ends, and gives back how many bytes it put there.
// A loop: `read_exact` refuses a shorter input, and `read_to_end` wants a heap.
fn read_full(input: &mut impl Read, buffer: &mut [u8]) -> io::Result<usize>
    ensures { IfOk result (λ n. n ≤ length buffer.new) }
{
    let mut done = 0;
    while done < buffer.len() {
        let n = input.read(&mut buffer[done..])?;
        if n == 0 {
            break;
        }
        done += n;
    }
    Ok(done)
}

fn main(rt: HostRuntime) -> io::Result<()> {
    let mut table = [0u8; MOST_READ];
    let n = read_full(&mut rt.stdin(), &mut table)?;
    let mut schedule = [0u8; LONGEST_SCHEDULE];
    let mut out = [0u8; LONGEST_LISTING];
    let used = put_listing(&table[..n], &mut schedule, &mut out, 0);
    rt.stdout().write_all(front(&out, used))
}
