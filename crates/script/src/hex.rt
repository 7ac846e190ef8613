// Byte strings: two lower-case hex digits a byte, `-` for none, at most 262,144 bytes. A word is judged before a byte is written, so
// that a bad one leaves the output as it is.
ghost use Rattle.std.specs.Prelude.{◌≡◌, true, ◌+◌, ◌*◌, ◌<◌, length};
ghost use Rattle.script.specs.Digit.{worth_of, all_below};
ghost use Rattle.script.specs.Hex.{is_dash, is_hex, unhex, bytes_of};

use crate::digit::digit;

// Puts the bytes that a word spells at the start of `out`, and answers how many they are, as it promises of all of `out`. A word that
// spells more than `out` has room for is as bad as one that spells none.
#[tactic(auto, using(crate::proofs::HexLaws::hex_laws), unfolding(crate::specs::Hex::bytes_of))]
pub fn parse_bytes(word: &[u8], out: &mut [u8]) -> Option<usize>
    ensures { (result, out.new) ≡ bytes_of word.now out.old }
{
    if is_dash(word) {
        return Some(0);
    }
    if !is_hex(word) {
        return None;
    }
    let n = word.len() / 2;
    if n > out.len().min(262144) {
        return None;
    }
    fill(word, &mut out[..n]);
    Some(n)
}

#[tactic(auto, using(std::proofs::lemmas::Bool::Decides::nat_tests), unfolding(crate::specs::Hex::is_dash))]
fn is_dash(word: &[u8]) -> bool
    ensures { result ≡ is_dash word.now }
{
    matches!(word, [b'-'])
}

// Whether a word is pairs of hex digits, at least one.
#[tactic(auto, using(std::proofs::lemmas::Bool::Decides::nat_tests), unfolding(crate::specs::Hex::is_hex))]
fn is_hex(word: &[u8]) -> bool
    ensures { result ≡ is_hex word.now }
{
    !word.is_empty() && word.len() % 2 == 0 && all_hex_digits(word)
}

fn all_hex_digits(word: &[u8]) -> bool
    ensures { result ≡ all_below 16 word.now }
{
    word.iter().all(|b| digit(*b).is_some())
}

// `out` becomes the bytes that the digits of `word` spell.
fn fill(word: &[u8], out: &mut [u8])
    requires pairs { length word.now ≡ 2 * length out.old }
    requires digits { all_below 16 word.now ≡ true }
    ensures { out.new ≡ unhex word.now }
{
    // By its index: of what `iter_mut` lends, a proof knows the length alone.
    for (i, pair) in word.chunks_exact(2).enumerate() {
        out[i] = byte(pair[0], pair[1]);
    }
}

// The byte that two digits spell.
#[tactic(auto, unfolding(crate::specs::Digit::worth_of))]
fn byte(high: u8, low: u8) -> u8
    requires high_is_digit { worth_of high < 16 }
    requires low_is_digit { worth_of low < 16 }
    ensures { result ≡ worth_of high * 16 + worth_of low }
{
    // 16, which is `worth_of`'s for no digit, never comes; by `unwrap` a short word takes twice as long.
    digit(high).unwrap_or(16) * 16 + digit(low).unwrap_or(16)
}
