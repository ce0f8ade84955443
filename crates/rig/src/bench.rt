// What the bench keeps from line to line.
use console::page::Page;
use machine::Machine;

pub const LONGEST: usize = 131200;

// As many bytes as a line has room for, so that none of a table or of a schedule is dropped. The longest plan has room too.
pub const MOST_BYTES: usize = LONGEST / 2;

// As many bytes as are read at once.
pub const PIECE: usize = 65536;

// No answer is longer than half of it: a listing has some 100,000 characters.
pub const OUTPUT: usize = 262144;

#[derive(Drop)]
pub struct Bench<'a> {
    pub kept: Page<'a>,
    // What `plan` plans into, and where a schedule is held.
    pub lent: &'a mut [u8],
    // Output not written yet.
    pub out: Page<'a>,
    pub machine: Machine,
}
