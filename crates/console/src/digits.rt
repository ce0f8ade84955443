// Numbers and bytes as they are read.
ghost use Rattle.std.specs.Prelude.{◌≡◌};
ghost use Rattle.console.specs.Shown.{Puts};
ghost use Rattle.console.specs.Digits.{digit_of, number_of, is_hex, half_of, pair_of, bytes_of};

use crate::bases::{SIXTEEN, TEN, WIDE};
use crate::page::{Page, put_at};

const NO_BYTES: &[u8] = b"-";

fn decimal(b: u8) -> Option<u32>
    ensures { result ≡ digit_of 10 b }
{
    char::from(b).to_digit(u32::from(TEN))
}

// One or more decimal digits, in all no more than `most`.
pub fn number(word: &[u8], most: u64) -> Option<u64>
    ensures { result ≡ number_of most word.now }
{
    if word.is_empty() {
        return None;
    }
    let mut so_far: u64 = 0;
    for b in word {
        let d = decimal(*b)?;
        so_far = so_far.checked_mul(WIDE)?.checked_add(u64::from(d))?;
    }
    (so_far <= most).then_some(so_far)
}

// `-`, or one pair of hex digits or more.
#[tactic(auto, unfolding(crate::specs::Digits::is_hex))]
pub fn is_hex(word: &[u8]) -> bool
    ensures { result ≡ is_hex word.now }
{
    word == NO_BYTES
        || !word.is_empty() && word.len() % 2 == 0 && word.iter().all(|b| b.is_ascii_hexdigit())
}

// Half a byte; a byte that is no hex digit counts as 0. The cast is proved to keep it; `try_from` would add a case that never comes.
fn half(b: u8) -> u8
    ensures { result ≡ half_of b }
{
    char::from(b).to_digit(u32::from(SIXTEEN)).unwrap_or(0) as u8
}

fn pair(high: u8, low: u8) -> u8
    ensures { result ≡ pair_of high low }
{
    half(high) * SIXTEEN + half(low)
}

// The bytes of a word of hex digits.
pub fn put_bytes(page: &mut Page, word: &[u8])
    ensures { Puts (bytes_of word.now) page.old page.new }
{
    let mut used = page.used;
    for digits in word.chunks_exact(2) {
        used = put_at(page.bytes, used, pair(digits[0], digits[1]));
    }
    page.used = used;
}
