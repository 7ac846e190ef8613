// The parts of an interval of the ring, as the image has them: so its bytes are checked where they lie, and nothing is copied.
ghost use Rattle.std.specs.Prelude.{◌≡◌, length};
ghost use Rattle.ring.specs.Ring.{ring_parts, front_bytes, wrapped_bytes};

use crate::place::{capacity, reduced};
use header::V2_DATA_START;
use refusal::Refusal;

// The bytes before the ring's end, from an offset of the image on, and those that go on at the ring's start.
#[derive(Clone, Copy, Debug, PartialEq, Eq)]
pub struct Parts {
    pub offset: u64,
    pub front_len: u64,
    pub wrapped_len: u64,
}

// The parts of the interval of len bytes from a place on, which has to fit the ring.
pub fn split(image_len: u64, file_len: u64, logical_pos: u64, len: u64) -> Result<Parts, Refusal>
    ensures { result ≡ ring_parts 8192 image_len file_len logical_pos len }
{
    let size = capacity(image_len, file_len)?;
    if len > size {
        return Err(Refusal::Unsound);
    }
    let at = reduced(logical_pos, size);
    let front_len = len.min(size - at);
    Ok(Parts {
        offset: V2_DATA_START + at,
        front_len,
        wrapped_len: len - front_len,
    })
}

// The first of these parts: no bytes where the interval is refused. It and the next stay two, each with its promise: a caller may want one.
pub fn front_part(image: &[u8], file_len: u64, logical_pos: u64, len: u64) -> &[u8]
    ensures { result.now ≡ front_bytes image.now (ring_parts 8192 (length image.now) file_len logical_pos len) }
{
    let Ok(p) = split(image.len() as u64, file_len, logical_pos, len) else {
        return &image[0..0];
    };
    wire::part(image, p.offset as usize, p.front_len as usize)
}

// The second of these parts: no bytes where the interval does not reach the ring's end.
pub fn wrapped_part(image: &[u8], file_len: u64, logical_pos: u64, len: u64) -> &[u8]
    ensures { result.now ≡ wrapped_bytes 8192 image.now (ring_parts 8192 (length image.now) file_len logical_pos len) }
{
    let Ok(p) = split(image.len() as u64, file_len, logical_pos, len) else {
        return &image[0..0];
    };
    wire::part(image, V2_DATA_START as usize, p.wrapped_len as usize)
}
