// The ring's bytes read, by whole segments: the place is reduced once, at the start, and each segment but the last ends where the ring
// does.
ghost use Rattle.std.specs.Prelude.{◌≡◌, ◌-◌, ◌<◌, length};
ghost use Rattle.refusal.specs.Answer.{after};
ghost use Rattle.ring.specs.Ring.{ring_read, judge_ring};

use crate::place::{capacity, reduced};
use header::V2_DATA_START;
use refusal::Refusal;

// Fills buf from the ring. The bytes read are counted here: of the parts that `chunks_mut` lends a proof knows nothing afterwards, and
// with `step_by` the place is counted too, and a turn takes nearly twice the time.
fn read_ring(ring: &[u8], logical_pos: u64, buf: &mut [u8])
    requires { 0 < length ring.now }
    ensures { buf.new ≡ ring_read 0 (length ring.now) ring.now logical_pos (length buf.old) }
{
    let at = reduced(logical_pos, ring.len() as u64) as usize;
    let mut done = buf.len().min(ring.len() - at);
    wire::put(buf, 0, &ring[at..at + done]);
    while done < buf.len() {
        let turn = ring.len().min(buf.len() - done);
        wire::put(buf, done, &ring[..turn]);
        done += turn;
    }
}

// Fills buf with the ring's bytes from a place on.
pub fn read_at(image: &[u8], file_len: u64, logical_pos: u64, buf: &mut [u8]) -> Result<(), Refusal>
    ensures value { result ≡ judge_ring 8192 (length image.now) file_len }
    ensures buf_after { buf.new ≡ after result (ring_read 8192 (file_len - 8192) image.now logical_pos (length buf.old)) buf.old }
{
    capacity(image.len() as u64, file_len)?;
    let ring = &image[V2_DATA_START as usize..file_len as usize];
    read_ring(ring, logical_pos, buf);
    Ok(())
}
