// The writing side: a lent buffer as a page, to which text is appended.
// A full page takes no more, so that no caller has to show that there is room.
ghost use Rattle.std.specs.Prelude.{◌≡◌, ◌<◌, [], ◌∷◌, take};
ghost use Rattle.std.specs.List.{flat_map};
ghost use Rattle.rules.specs.Listing.{figures, decimal_of};
ghost use Rattle.console.specs.Shown.{Puts};
ghost use Rattle.console.specs.Page.{page, put_one, put_all, glyph_of, pair_text, hex_of};

use crate::bases::{SIXTEEN, TEN, WIDE};

const ZERO: u8 = b'0';

// Added to 10, it gives `A`.
const BEFORE_A: u8 = b'A' - TEN;

// Stands for no bytes.
pub const DASH: u8 = b'-';

// A number of 64 bits has no more figures than this.
const MOST_FIGURES: usize = 20;

// A lent buffer with its length, and no String: the project has no heap.
#[derive(Drop)]
pub struct Page<'a> {
    pub bytes: &'a mut [u8],
    // So many of the bytes, from the first on, are in use.
    pub used: usize,
}

impl<'a> Page<'a> {
    // The bytes in use.
    pub fn text(&self) -> &[u8]
        ensures { result.now ≡ take self.now.used self.now.bytes.now }
    {
        front(self.bytes, self.used)
    }

    // A page to begin again; its bytes stay until others are put in their place.
    pub fn clear(&mut self)
        ensures { self.new ≡ record self.old { used = 0 } }
    {
        self.used = 0;
    }

    pub fn put(&mut self, b: u8)
        ensures { Puts (b ∷ []) self.old self.new }
    {
        self.used = put_at(self.bytes, self.used, b);
    }

    // One by one, and not by `copy_from_slice`: what does not fit is left out, and `put_at` says so once.
    pub fn put_all(&mut self, bytes: &[u8])
        ensures { Puts bytes.now self.old self.new }
    {
        let mut used = self.used;
        for b in bytes {
            used = put_at(self.bytes, used, *b);
        }
        self.used = used;
    }

    pub fn put_decimal(&mut self, n: u64)
        ensures { Puts (decimal_of n) self.old self.new }
    {
        self.used = put_figures(self.bytes, self.used, n, MOST_FIGURES);
    }

    // Bytes in hex, `-` for none.
    pub fn put_hex(&mut self, bytes: &[u8])
        ensures { Puts (hex_of bytes.now) self.old self.new }
    {
        if bytes.is_empty() {
            self.put(DASH);
            return;
        }
        let mut used = self.used;
        for b in bytes {
            used = put_pair(self.bytes, used, *b);
        }
        self.used = used;
    }
}

// One byte more after the first `at`, where there is room; gives back how many are in use then. A number beside the buffer, and no method: in a page the
// number lies in memory, and each byte would wait for the one before it.
pub(crate) fn put_at(out: &mut [u8], at: usize, b: u8) -> usize
    ensures { page out.new result ≡ put_one b (page out.old at) }
{
    if at < out.len() {
        out[at] = b;
        return at + 1;
    }
    at
}

// The front figures come first, so each call leaves them to one with a tenth of the number.
// A loop would be no plainer: it meets the last figure first, and would need a buffer to turn them round in. No Display: `fmt` says of a number that
// it is written, and `decimal_of`, which the listing's contract names, says which characters. The casts are proved to keep one figure.
fn put_figures(out: &mut [u8], at: usize, n: u64, most: usize) -> usize
    ensures { page out.new result ≡ put_all (figures most n) (page out.old at) }
{
    if most == 0 {
        return at;
    }
    if n < WIDE {
        return put_at(out, at, glyph(n as u8));
    }
    let end = put_figures(out, at, n / WIDE, most - 1);
    put_at(out, end, glyph((n % WIDE) as u8))
}

// Both digits of a byte.
fn put_pair(out: &mut [u8], at: usize, b: u8) -> usize
    ensures { page out.new result ≡ put_all (pair_text b) (page out.old at) }
{
    let end = put_at(out, at, glyph(b / SIXTEEN));
    put_at(out, end, glyph(b % SIXTEEN))
}

// The digit `d` as a character.
fn glyph(d: u8) -> u8
    requires { d < 16 }
    ensures { result ≡ glyph_of d }
{
    if d < TEN {
        return ZERO + d;
    }
    BEFORE_A + d
}

// The first bytes, no more than `used`.
pub fn front(bytes: &[u8], used: usize) -> &[u8]
    ensures { result.now ≡ take used bytes.now }
{
    bytes.get(..used).unwrap_or(bytes)
}
