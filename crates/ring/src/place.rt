// Places of the ring: which rings there are, and how far one place is from another.
ghost use Rattle.std.specs.Prelude.{◌≡◌, ◌+◌, ◌%◌, ◌<◌, ◌≤◌, true, false, leb, IfOk, IfErr};
ghost use Rattle.ring.specs.Ring.{has_ring, add_places, distance_of_places};

use header::V2_DATA_START;
use refusal::Refusal;

// Whether a ring that starts there lies in a file of that length, and the file in the image.
#[tactic(auto, unfolding(crate::specs::Ring::has_ring))]
pub fn has_ring(start: u64, image_len: u64, file_len: u64) -> bool
    ensures { result ≡ has_ring start image_len file_len }
{
    start < file_len && file_len <= image_len
}

// How many places the ring has, where there is one.
#[tactic(auto, using(crate::proofs::Places::there_ring))]
pub(crate) fn capacity(image_len: u64, file_len: u64) -> Result<u64, Refusal>
    ensures there { IfOk result (λ size. (has_ring 8192 image_len file_len ≡ true) × (0 < size) × (8192 + size ≡ file_len) × (file_len ≤ image_len)) }
    ensures refused { IfErr result (λ why. (has_ring 8192 image_len file_len ≡ false) × (why ≡ Refusal.Unsound)) }
{
    if !has_ring(V2_DATA_START, image_len, file_len) {
        return Err(Refusal::Unsound);
    }
    Ok(file_len - V2_DATA_START)
}

// Whether a + b is at most the limit. The sum itself may be too large to take.
pub(crate) fn sum_within(a: u64, b: u64, limit: u64) -> bool
    ensures { result ≡ leb (a + b) limit }
{
    a.checked_add(b).is_some_and(|sum| sum <= limit)
}

// The place within one turn. Most places are, and a comparison costs less than a division.
pub(crate) fn reduced(logical_pos: u64, size: u64) -> u64
    requires { 0 < size }
    ensures { (result ≡ logical_pos % size) × (result < size) }
{
    if logical_pos < size {
        return logical_pos;
    }
    logical_pos % size
}

// The place that is delta places past another.
pub fn add(image_len: u64, file_len: u64, logical_pos: u64, delta: u64) -> Result<u64, Refusal>
    ensures { result ≡ add_places 8192 image_len file_len logical_pos delta }
{
    let size = capacity(image_len, file_len)?;
    let Some(sum) = logical_pos.checked_add(delta) else {
        return Err(Refusal::Overflow);
    };
    Ok(reduced(sum, size))
}

// How many places `to` is past `from`, within one turn.
#[tactic(auto, using(crate::proofs::Places::onwards, crate::proofs::Places::over_the_end, refusal::proofs::Laws::pass, refusal::proofs::Laws::stop, std::proofs::lemmas::Bool::Decides::nat_tests))]
pub fn distance(image_len: u64, file_len: u64, from: u64, to: u64) -> Result<u64, Refusal>
    ensures { result ≡ distance_of_places 8192 image_len file_len from to }
{
    let size = capacity(image_len, file_len)?;
    if from >= size || to >= size {
        return Err(Refusal::Unsound);
    }
    if from <= to {
        return Ok(to - from);
    }
    Ok(size - (from - to))
}
