// What a line asks for.
ghost use Rattle.std.specs.Prelude.{◌≡◌};
ghost use Rattle.console.specs.Commands.{on_hex, alone, with_one, with_two, with_three, is_quiet, command_of};

use crate::digits::{is_hex, number};
use crate::words::{SPACE, after_word, first_word, marks};

// The bytes of `Table`, `Check` and `Load` are the line's second word.
#[derive(Clone, Copy)]
pub enum Command {
    Table,
    Check,
    Load,
    // Bytes of the lent buffer.
    Plan(u64),
    Steps(u64),
    // Signal and records lent.
    Live(u64, u64),
    // Task and signal.
    Read(u64, u64),
    // Task, signal and word.
    Write(u64, u64, u64),
    Listing,
}

const HASH: u8 = b'#';

const TABLE: &[u8] = b"table";

const CHECK: &[u8] = b"check";

const LOAD: &[u8] = b"load";

const PLAN: &[u8] = b"plan";

const LIVE: &[u8] = b"live";

const STEP: &[u8] = b"step";

const READ: &[u8] = b"read";

const WRITE: &[u8] = b"write";

const LIST: &[u8] = b"list";

// The longest buffer that the bench lends.
pub const MOST_PLANNED: u64 = 29000;

// As wide as the number it bounds. usize has no From to u64, and a constant's value calls no `try_from`.
const MOST_RECORDS: u64 = rules::MOST_LENT as u64;

pub const MOST_STEPS: u64 = 1000000;

pub const MOST_WORD: u64 = 4294967295;

const ANY: u64 = u64::MAX;

// This command, if its bytes can be read.
fn on_hex(command: Command, word: &[u8]) -> Option<Command>
    ensures { result ≡ on_hex command word.now }
{
    is_hex(word).then_some(command)
}

fn of_name(name: &[u8]) -> Option<Command>
    ensures { result ≡ alone name.now }
{
    match name {
        STEP => Some(Command::Steps(1)),
        LIST => Some(Command::Listing),
        _ => None,
    }
}

fn with_one(name: &[u8], word: &[u8]) -> Option<Command>
    ensures { result ≡ with_one name.now word.now }
{
    match name {
        TABLE => on_hex(Command::Table, word),
        CHECK => on_hex(Command::Check, word),
        LOAD => on_hex(Command::Load, word),
        PLAN => Some(Command::Plan(number(word, MOST_PLANNED)?)),
        STEP => Some(Command::Steps(number(word, MOST_STEPS)?)),
        _ => None,
    }
}

fn with_two(name: &[u8], words: &[u8]) -> Option<Command>
    ensures { result ≡ with_two name.now words.now }
{
    let first = first_word(words);
    let second = after_word(words);
    match name {
        LIVE => Some(Command::Live(number(first, ANY)?, number(second, MOST_RECORDS)?)),
        READ => Some(Command::Read(number(first, ANY)?, number(second, ANY)?)),
        _ => None,
    }
}

fn with_three(name: &[u8], words: &[u8]) -> Option<Command>
    ensures { result ≡ with_three name.now words.now }
{
    if name != WRITE {
        return None;
    }
    let task = number(first_word(words), ANY)?;
    let rest = after_word(words);
    let signal = number(first_word(rest), ANY)?;
    let word = number(after_word(rest), MOST_WORD)?;
    Some(Command::Write(task, signal, word))
}

// An empty line and a comment ask for nothing.
pub fn is_quiet(line: &[u8]) -> bool
    ensures { result ≡ is_quiet line.now }
{
    line.is_empty() || line[0] == HASH
}

// What any other line asks for.
pub fn asked(line: &[u8]) -> Option<Command>
    ensures { result ≡ command_of line.now }
{
    match marks(line, SPACE) {
        0 => of_name(line),
        1 => with_one(first_word(line), after_word(line)),
        2 => with_two(first_word(line), after_word(line)),
        3 => with_three(first_word(line), after_word(line)),
        _ => None,
    }
}
