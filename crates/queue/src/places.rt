// Places of the ring: those that a file's pointers and backlinks name, and those that are reckoned in a ring that is known to be there,
// where the ring's own calls refuse nothing: what stands for a refusal is never answered.
ghost use Rattle.std.specs.Prelude.{◌≡◌, ◌+◌, ◌-◌, ◌^◌, ◌≤◌, ◌<◌};
ghost use Rattle.ring.specs.Ring.{ring_add, ring_distance};
ghost use Rattle.queue.specs.Places.{to_logical};

use header::V2_DATA_START;
use refusal::Refusal;

// The place in the ring of what a pointer or a backlink names, which is an offset in the file. Nothing else turns the one into the other.
#[tactic(auto, using(refusal::proofs::Laws::decide))]
pub fn to_logical(phys: u64) -> Result<u64, Refusal>
    ensures { result ≡ to_logical phys }
{
    if phys < V2_DATA_START {
        return Err(Refusal::BacklinkLow);
    }
    Ok(phys - V2_DATA_START)
}

// The place that is delta places past another.
pub(crate) fn add(image_len: u64, file_len: u64, pos: u64, delta: u64) -> u64
    requires { (8192 < file_len) × (file_len ≤ image_len) × (pos + delta < 2 ^ 64) }
    ensures { result ≡ ring_add (file_len - 8192) pos delta }
{
    ring::add(image_len, file_len, pos, delta).unwrap()
}

// How many places `to` is past `from`, within one turn.
pub(crate) fn distance(image_len: u64, file_len: u64, from: u64, to: u64) -> u64
    requires { (8192 < file_len) × (file_len ≤ image_len) × (from < file_len - 8192) × (to < file_len - 8192) }
    ensures { result ≡ ring_distance (file_len - 8192) from to }
{
    ring::distance(image_len, file_len, from, to).unwrap()
}
