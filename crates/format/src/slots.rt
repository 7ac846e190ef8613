// Which of the two header slots holds, and whether what it says can be.
ghost use Rattle.std.specs.Prelude.{◌≡◌};
ghost use Rattle.format.specs.Slots.{elect_slot, check_empty, check_pointers, check_slot};

use header::{HeaderSlot, SlotData, V2_DATA_START};
use refusal::Refusal;

// The slot that holds, and what it says.
#[derive(Clone, Copy, Debug, PartialEq, Eq)]
pub struct V2OpenState {
    pub active_slot: HeaderSlot,
    pub slot: SlotData,
}

// Of two valid slots the one with the higher generation holds, and A where they are equal.
pub fn elect_canonical_slot(
    slot_a: Result<SlotData, Refusal>,
    slot_b: Result<SlotData, Refusal>,
) -> Result<V2OpenState, Refusal>
    ensures { result ≡ elect_slot slot_a slot_b }
{
    let (active_slot, slot) = match (slot_a, slot_b) {
        (Ok(a), Ok(b)) if b.generation > a.generation => (HeaderSlot::B, b),
        (Ok(a), _) => (HeaderSlot::A, a),
        (Err(_), Ok(b)) => (HeaderSlot::B, b),
        (Err(_), Err(_)) => return Err(Refusal::NoSlot),
    };
    Ok(V2OpenState { active_slot, slot })
}

// Whether a file of that real length can be what the slot says.
pub fn validate_v2_slot_data(slot: SlotData, real_file_len: u64) -> Result<(), Refusal>
    ensures { result ≡ check_slot slot real_file_len }
{
    if slot.file_length < V2_DATA_START {
        return Err(Refusal::SlotLength);
    }
    if slot.file_length > real_file_len {
        return Err(Refusal::SlotTruncated);
    }
    if slot.next_sequence_number == 0 {
        return Err(Refusal::SlotSequence);
    }
    if slot.element_count == 0 {
        return check_empty(slot.first_position, slot.last_position);
    }
    check_pointers(slot.first_position, slot.last_position, slot.file_length)
}

// An empty queue points at nothing.
fn check_empty(first: u64, last: u64) -> Result<(), Refusal>
    ensures { result ≡ check_empty first last }
{
    if first != 0 || last != 0 {
        return Err(Refusal::EmptyPointer);
    }
    Ok(())
}

// Any other points at two places of the ring.
fn check_pointers(first: u64, last: u64, file_length: u64) -> Result<(), Refusal>
    ensures { result ≡ check_pointers first last file_length }
{
    if first == 0 || last == 0 {
        return Err(Refusal::ZeroPointer);
    }
    if first < V2_DATA_START
        || first >= file_length
        || last < V2_DATA_START
        || last >= file_length
    {
        return Err(Refusal::PointerBounds);
    }
    Ok(())
}
