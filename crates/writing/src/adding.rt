// Add: the element goes into the ring behind last, header, payload and footer, each from where it is, and then the state is committed.
ghost use Rattle.std.specs.Prelude.{◌≡◌, ◌-◌, ◌^◌, ◌≤◌, ◌<◌, length};
ghost use Rattle.ring.specs.Ring.{ring_write};
ghost use Rattle.writing.specs.Adding.{element_bytes, next_element, with_last, appended, judge_add, add_of, Extends};

use crate::committing::{pointer_to, sync_header};
use crate::expansion::grow_to;
use crate::growth::{check_growth, end_of_last, judge_length};
use format::{V2_ELEM_HDR_LEN, V2_ELEM_OVERHEAD, V2Format};
use queue::{Element, QueueFile, SoundQueue};
use refusal::Refusal;

// The file length after an add of that payload to an image of so many bytes, as far as numbers tell.
#[tactic(auto, using(queue::proofs::SoundQueueLaws::asked), unfolding(crate::specs::Adding::judge_add))]
pub fn judge_add(q: QueueFile, image_len: u64, payload_len: u64) -> Result<u64, Refusal>
    ensures { result ≡ judge_add q image_len payload_len }
{
    judge_element(q.sound(image_len)?, payload_len)
}

// The same of a state that is sound.
#[tactic(auto, using(refusal::proofs::Laws::decide), unfolding(crate::specs::Adding::judge_add))]
fn judge_element(q: SoundQueue, payload_len: u64) -> Result<u64, Refusal>
    ensures { result ≡ judge_add q.state q.image_len payload_len }
{
    if payload_len >= 0x8000_0000 {
        return Err(Refusal::ElementTooBig);
    }
    if q.state.elem_cnt + 1 >= 0x7fff_ffff {
        return Err(Refusal::TooManyElements);
    }
    judge_length(q, payload_len + V2_ELEM_OVERHEAD, 1, 1)
}

// Stores an element at a place.
fn write_element(
    image: &mut [u8],
    file_len: u64,
    pos: u64,
    seq: u64,
    prev_phys: u64,
    payload: &[u8],
)
    requires { (8192 < file_len) × (file_len ≤ length image.old) × (pos < 2 ^ 63) × (length payload.now < 2 ^ 31) }
    ensures { image.new ≡ ring_write 8192 (file_len - 8192) image.old pos (element_bytes seq prev_phys payload.now) }
{
    let len = payload.len() as u64;
    // The definition says zeros where the encoder refuses; it does not, of so short a payload.
    let header = format::encode_v2_element_header(seq, prev_phys, len).unwrap_or([0; 28]);
    let footer = format::encode_v2_footer(seq, payload);
    let payload_start = pos + V2_ELEM_HDR_LEN;
    ring::write_at(image, file_len, pos, &header).unwrap();
    ring::write_at(image, file_len, payload_start, payload).unwrap();
    ring::write_at(image, file_len, payload_start + len, &footer).unwrap();
}

// The element that comes next, with a payload of that length: it stands behind last, or at place 0 in an empty queue.
fn next_element(q: QueueFile, payload_len: u64) -> Element
    requires { Extends q.file_len q }
    ensures { result ≡ next_element q payload_len }
{
    let pos = if q.elem_cnt == 0 { 0 } else { end_of_last(q) };
    Element {
        pos,
        len: payload_len,
        seq: q.format.next_seq,
    }
}

// The state with that element behind last.
fn with_last(q: QueueFile, elem: Element) -> QueueFile
    requires { Extends q.file_len q }
    ensures { result ≡ with_last q elem }
{
    let first = if q.elem_cnt == 0 { elem } else { q.first };
    QueueFile {
        format: V2Format {
            next_seq: q.format.next_seq + 1,
            ..q.format
        },
        elem_cnt: q.elem_cnt + 1,
        first,
        last: elem,
        ..q
    }
}

// Puts an element behind last. The state is not committed.
fn append(q: QueueFile, image: &mut [u8], payload: &[u8]) -> QueueFile
    requires extends { Extends (length image.old) q }
    requires payload_len_bound { length payload.now < 2 ^ 31 }
    ensures { (result, image.new) ≡ appended payload.now (q, image.old) }
{
    let elem = next_element(q, payload.len() as u64);
    let prev_phys = pointer_to(q.elem_cnt, q.last);
    write_element(image, q.file_len, elem.pos, elem.seq, prev_phys, payload);
    with_last(q, elem)
}

// Adds an element. The file grows where there is too little room.
#[tactic(auto, using(queue::proofs::SoundQueueLaws::asked), unfolding(crate::specs::Adding::judge_add, crate::specs::Adding::add_of))]
pub fn add(q: QueueFile, image: &mut [u8], payload: &[u8]) -> Result<QueueFile, Refusal>
    ensures { (result, image.new) ≡ add_of q payload.now image.old }
{
    let q = q.sound(image.len() as u64)?;
    let new_len = judge_element(q, payload.len() as u64)?;
    check_growth(q, image, new_len)?;
    let longer = grow_to(q, image, new_len);
    let added = append(longer, image, payload);
    Ok(sync_header(added, image))
}
