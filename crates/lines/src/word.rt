// Words: where one ends, which number it is.
ghost use Rattle.std.specs.Prelude.{◌≡◌, ◌<◌, length, MatchOption};
ghost use Rattle.lines.specs.Console.{number_of};
ghost use Rattle.lines.specs.Words.{until};

// The place of the first mark: so many bytes stand before it.
pub(crate) fn find(s: &[u8], mark: u8) -> Option<usize>
    ensures { MatchOption result (until mark s.now ≡ length s.now) (λ e. (e ≡ until mark s.now) × (e < length s.now)) }
{
    s.iter().position(|b| *b == mark)
}

// "a number has 1 to 10 decimal digits and is at most 4,294,967,295". Ten digits want 34 bits.
pub(crate) fn number(word: &[u8]) -> Option<u32>
    ensures { result ≡ number_of word.now }
{
    if word.is_empty() || 10 < word.len() {
        return None;
    }
    let mut n: u64 = 0;
    for b in word {
        if !b.is_ascii_digit() {
            return None;
        }
        n = 10 * n + u64::from(*b - b'0');
    }
    u32::try_from(n).ok()
}
