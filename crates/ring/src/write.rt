// The ring's bytes written and erased, by whole segments: the place is reduced once, at the start, and each segment but the last ends
// where the ring does.
ghost use Rattle.std.specs.Prelude.{◌≡◌, ◌-◌, ◌<◌, length};
ghost use Rattle.refusal.specs.Answer.{after};
ghost use Rattle.ring.specs.Ring.{ring_write, ring_erase, judge_ring};

use crate::place::{capacity, reduced};
use header::V2_DATA_START;
use refusal::Refusal;

// Stores buf in the ring.
fn write_ring(ring: &mut [u8], logical_pos: u64, buf: &[u8])
    requires { 0 < length ring.old }
    ensures { ring.new ≡ ring_write 0 (length ring.old) ring.old logical_pos buf.now }
{
    let size = ring.len();
    let at = reduced(logical_pos, size as u64) as usize;
    let (front, rest) = buf.split_at(buf.len().min(size - at));
    wire::put(ring, at, front);
    for part in rest.chunks(size) {
        wire::copy_into(ring, part);
    }
}

// Stores buf in the ring from a place on. Where it is longer than the ring, the later byte stays.
pub fn write_at(
    image: &mut [u8],
    file_len: u64,
    logical_pos: u64,
    buf: &[u8],
) -> Result<(), Refusal>
    ensures value { result ≡ judge_ring 8192 (length image.old) file_len }
    ensures image_after { image.new ≡ after result (ring_write 8192 (file_len - 8192) image.old logical_pos buf.now) image.old }
{
    capacity(image.len() as u64, file_len)?;
    let ring = &mut image[V2_DATA_START as usize..file_len as usize];
    write_ring(ring, logical_pos, buf);
    Ok(())
}

// Stores len zeros in the ring. Once round, all is zero. No buffer is beside len: it may be longer than the ring.
fn erase_ring(ring: &mut [u8], logical_pos: u64, len: usize)
    requires { 0 < length ring.old }
    ensures { ring.new ≡ ring_erase 0 (length ring.old) ring.old logical_pos len }
{
    let size = ring.len();
    let at = reduced(logical_pos, size as u64) as usize;
    let once = len.min(size);
    let front_len = once.min(size - at);
    wire::fill_at(ring, at, front_len, 0);
    wire::fill_at(ring, 0, once - front_len, 0);
}

// Stores len zeros in the ring from a place on.
pub fn erase_at(image: &mut [u8], file_len: u64, logical_pos: u64, len: u64) -> Result<(), Refusal>
    ensures value { result ≡ judge_ring 8192 (length image.old) file_len }
    ensures image_after { image.new ≡ after result (ring_erase 8192 (file_len - 8192) image.old logical_pos len) image.old }
{
    capacity(image.len() as u64, file_len)?;
    let ring = &mut image[V2_DATA_START as usize..file_len as usize];
    erase_ring(ring, logical_pos, len as usize);
    Ok(())
}
