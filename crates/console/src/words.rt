// The words of a line, separated by one space.
ghost use Rattle.std.specs.Prelude.{◌≡◌, ◌≤◌, length};
ghost use Rattle.console.specs.Words.{length_before, marks_in, first_word, after_word};

pub const SPACE: u8 = b' ';

// How many bytes stand before the first `mark`, or in all.
pub fn before(bytes: &[u8], mark: u8) -> usize
    ensures { (result ≡ length_before mark bytes.now) × (result ≤ length bytes.now) }
{
    bytes.iter().position(|b| *b == mark).unwrap_or(bytes.len())
}

// How many bytes are `mark`.
pub fn marks(bytes: &[u8], mark: u8) -> usize
    ensures { result ≡ marks_in mark bytes.now }
{
    bytes.iter().filter(|b| **b == mark).count()
}

// What stands before the first space.
pub fn first_word(line: &[u8]) -> &[u8]
    ensures { result.now ≡ first_word line.now }
{
    &line[..before(line, SPACE)]
}

// What stands after the first space.
pub fn after_word(line: &[u8]) -> &[u8]
    ensures { result.now ≡ after_word line.now }
{
    line.get(before(line, SPACE) + 1..).unwrap_or(&[])
}
