// Opening: the slot that holds, and the two ends that it points at.
ghost use Rattle.std.specs.Prelude.{◌≡◌, ◌≤◌, ◌<◌, length};
ghost use Rattle.queue.specs.Opening.{tried_slot, open_state, built_queue, first_element, open_ends, open_queue};

use crate::element::{Element, header_at, header_in_sequence};
use crate::places::to_logical;
use crate::recover::recover_v2_head;
use crate::state::{QueueFile, Settings};
use format::{V2Format, V2OpenState};
use header::{HeaderSlot, SlotData, V2_SLOT_LEN};
use refusal::Refusal;

// A slot is tried only where the real length reaches its end.
#[tactic(auto, using(refusal::proofs::Laws::decide), unfolding(crate::specs::Opening::tried_slot))]
fn read_slot(image: &[u8], real_len: u64, which: HeaderSlot) -> Result<SlotData, Refusal>
    ensures { result ≡ tried_slot image.now real_len which }
{
    let offset = which.offset();
    if real_len < offset + V2_SLOT_LEN {
        return Err(Refusal::NotASlot);
    }
    header::parse_slot(wire::part(image, offset as usize, V2_SLOT_LEN as usize))
}

// The slot that holds in a file of that real length, where such a file can be what it says.
#[tactic(auto, using(refusal::proofs::Laws::decide), unfolding(crate::specs::Opening::open_state, crate::specs::Opening::checked_state))]
fn read_v2_open_state(image: &[u8], real_len: u64) -> Result<V2OpenState, Refusal>
    ensures { result ≡ open_state image.now real_len }
{
    if real_len > image.len() as u64 {
        return Err(Refusal::Unsound);
    }
    if real_len >= 0x8000_0000_0000_0000 {
        return Err(Refusal::Unsound);
    }
    let open_state = format::elect_canonical_slot(
        read_slot(image, real_len, HeaderSlot::A),
        read_slot(image, real_len, HeaderSlot::B),
    )?;
    format::validate_v2_slot_data(open_state.slot, real_len)?;
    Ok(open_state)
}

// The state that a slot tells of, but for its two ends.
fn build_v2_queue_file(open_state: V2OpenState, real_len: u64, settings: Settings) -> QueueFile
    ensures { result ≡ built_queue open_state real_len settings }
{
    let slot = open_state.slot;
    QueueFile {
        file_len: slot.file_length,
        real_len,
        format: V2Format {
            active_slot: open_state.active_slot,
            generation: slot.generation,
            next_seq: slot.next_sequence_number,
        },
        elem_cnt: slot.element_count,
        first: Element::EMPTY,
        last: Element::EMPTY,
        settings,
    }
}

// The first element: where its header is not valid, the head is recovered from the last.
#[tactic(auto, unfolding(crate::specs::Opening::first_element))]
fn first_element(
    image: &[u8],
    file_len: u64,
    pos: u64,
    last: Element,
    elem_cnt: u32,
) -> Result<Element, Refusal>
    requires { (8192 < file_len) × (file_len ≤ length image.now) }
    ensures { result ≡ first_element image.now file_len pos last elem_cnt }
{
    match header_at(image, file_len, pos) {
        Ok(header) => Ok(Element::here(pos, header)),
        Err(_) => recover_v2_head(image, file_len, last.pos, last.seq, elem_cnt),
    }
}

// The state with its two ends, where there are elements. The last one has to be the one that was added last; the first one's sequence
// is not judged.
#[tactic(auto, unfolding(crate::specs::Opening::open_ends))]
fn initialize_v2_endpoints(q: QueueFile, image: &[u8], slot: SlotData) -> Result<QueueFile, Refusal>
    requires bound { (8192 < q.file_len) × (q.file_len ≤ length image.now) }
    requires next_sequence_number_nonzero { 0 < slot.next_sequence_number }
    ensures { result ≡ open_ends image.now q slot }
{
    let first_logical = to_logical(slot.first_position)?;
    let last_logical = to_logical(slot.last_position)?;
    let expected_seq = slot.next_sequence_number - 1;
    let last_header = header_in_sequence(image, q.file_len, last_logical, expected_seq)?;
    let last = Element::here(last_logical, last_header);
    let first = first_element(image, q.file_len, first_logical, last, q.elem_cnt)?;
    Ok(QueueFile { first, last, ..q })
}

// Opens the file of that real length at the image's front. An empty queue has no ends. The state need not be sound: used bytes above
// the file length, and a recovered place past the ring's end, are for later calls to refuse.
#[tactic(auto, unfolding(crate::specs::Opening::open_queue))]
pub fn open(image: &[u8], real_len: u64, settings: Settings) -> Result<QueueFile, Refusal>
    ensures { result ≡ open_queue image.now real_len settings }
{
    let open_state = read_v2_open_state(image, real_len)?;
    let q = build_v2_queue_file(open_state, real_len, settings);
    if q.elem_cnt == 0 {
        return Ok(q);
    }
    initialize_v2_endpoints(q, image, open_state.slot)
}
