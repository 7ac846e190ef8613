// Bytes and numbers: big-endian numbers read and stored, byte strings compared and stored, parts lent, copied
// and filled.
//
// Each function accepts every place. A byte read past the end counts as 0, and a byte stored past the end goes nowhere:
// so says the definition that each contract cites, in specs/Wire.antt.
#![tactic(auto)]

ghost use Rattle.std.specs.Prelude.{◌≡◌, ℕ, ◌≤◌, length, take, drop, replicate};
ghost use Rattle.std.proofs.Common.{rules};
ghost use Rattle.wire.specs.Wire.{be, be_val, bytes_at, word, put_at, starts_with};

// A number of N bytes, which stand in a file with the highest first.
pub trait Number<const N: usize>: Copy {
    // The number as clauses have it, and back. At u32 and u64 that changes nothing.
    ghost value: { Self → ℕ };

    ghost with_value: { ℕ → Self };

    fn bytes(self) -> [u8; N]
        ensures { result ≡ be N (value self) };

    fn of_bytes(bytes: &[u8; N]) -> Self
        ensures { result ≡ with_value (be_val bytes.now) };

    // So an array of them fits the memory.
    ghost few: { N ≤ 8 };
}

impl Number<4> for u32 {
    ghost value = { λ n. n };

    ghost with_value = { λ n. n };

    ghost few = { Prim.search rules };

    fn bytes(self) -> [u8; 4] {
        u32::to_be_bytes(self)
    }

    fn of_bytes(bytes: &[u8; 4]) -> u32 {
        u32::from_be_bytes(*bytes)
    }
}

impl Number<8> for u64 {
    ghost value = { λ n. n };

    ghost with_value = { λ n. n };

    ghost few = { Prim.search rules };

    fn bytes(self) -> [u8; 8] {
        u64::to_be_bytes(self)
    }

    fn of_bytes(bytes: &[u8; 8]) -> u64 {
        u64::from_be_bytes(*bytes)
    }
}

// The N bytes of s from `at` on. Where s has them all, which is the usual case, this is one load.
#[tactic(auto, using(crate::proofs::Stores::bytes_at_first))]
fn bytes_at<const N: usize>(s: &[u8], at: usize) -> [u8; N]
    ensures { result ≡ bytes_at N s.now at }
{
    if at < s.len() {
        if let Some(all) = s[at..].first_chunk::<N>() {
            return *all;
        }
    }
    padded(s, at)
}

// The same where some may lie past the end: on its own, so that the usual case needs no room on the stack.
#[tactic(auto, using(crate::proofs::Stores::bytes_at_padded))]
fn padded<const N: usize>(s: &[u8], at: usize) -> [u8; N]
    ensures { result ≡ bytes_at N s.now at }
{
    let mut bytes = [0u8; N];
    copy_into(&mut bytes, part(s, at, N));
    bytes
}

// The number whose bytes stand in s from `at` on.
pub fn get<T: Number<N>, const N: usize>(s: &[u8], at: usize) -> T
    ensures { result ≡ T.with_value (word N s.now at) }
{
    T::of_bytes(&bytes_at(s, at))
}

// Whether s begins with the bytes of p.
#[tactic(auto, using(crate::proofs::Numbers::starts_with_by_pairs))]
pub fn starts_with(s: &[u8], p: &[u8]) -> bool
    ensures { result ≡ starts_with s.now p.now }
{
    s.starts_with(p)
}

// The n bytes of s from `at` on, as far as s goes.
pub fn part(s: &[u8], at: usize, n: usize) -> &[u8]
    ensures { result.now ≡ take n (drop at s.now) }
{
    if s.len() <= at {
        return &s[0..0];
    }
    let end = at + n.min(s.len() - at);
    &s[at..end]
}

// Stores the bytes of src at the front of out, as far as out goes.
#[tactic(auto, using(crate::proofs::Stores::put_at_front))]
pub fn copy_into(out: &mut [u8], src: &[u8])
    ensures { out.new ≡ put_at out.old 0 src.now }
{
    let n = out.len().min(src.len());
    out[..n].copy_from_slice(&src[..n]);
}

// Stores the bytes of src in out from `at` on, as far as out goes.
#[tactic(auto, using(crate::proofs::Stores::put_at_lent, crate::proofs::Stores::put_at_out))]
pub fn put(out: &mut [u8], at: usize, src: &[u8])
    ensures { out.new ≡ put_at out.old at src.now }
{
    if at < out.len() {
        copy_into(&mut out[at..], src);
    }
}

// Stores the bytes of a number in out from `at` on.
pub fn put_number<T: Number<N>, const N: usize>(out: &mut [u8], at: usize, v: T)
    ensures { out.new ≡ put_at out.old at (be N (T.value v)) }
{
    put(out, at, &v.bytes());
}

// Makes every byte of out the same. The loop is one memset; the slice's own `fill` stores the last byte apart, which is slower.
pub fn fill(out: &mut [u8], value: u8)
    ensures { out.new ≡ replicate (length out.old) value }
{
    for byte in out {
        *byte = value;
    }
}

// Stores n bytes of one value in out from `at` on, as far as out goes.
#[tactic(auto, using(crate::proofs::Stores::put_at_filled, crate::proofs::Stores::put_at_out))]
pub fn fill_at(out: &mut [u8], at: usize, n: usize, value: u8)
    ensures { out.new ≡ put_at out.old at (replicate n value) }
{
    if at < out.len() {
        let end = at + n.min(out.len() - at);
        fill(&mut out[at..end], value);
    }
}
