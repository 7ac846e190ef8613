// Numbers: decimal, leading zeros allowed, at least one digit, and at most 2^64 - 1.
ghost use Rattle.std.specs.Prelude.{◌≡◌};
ghost use Rattle.script.specs.Decimal.{number_of};

use crate::digit::digit;

// The number that a word spells, if it spells one.
pub fn parse_number(word: &[u8]) -> Option<u64>
    ensures { result ≡ number_of word.now }
{
    if word.is_empty() {
        return None;
    }
    let mut n: u64 = 0;
    for b in word {
        let d = u64::from(digit(*b)?);
        if d > 9 {
            return None;
        }
        // n * 10 + d would pass the largest u64. By `checked_mul` and `checked_add` a number takes half as long again.
        if n > (u64::MAX - d) / 10 {
            return None;
        }
        n = n * 10 + d;
    }
    Some(n)
}
