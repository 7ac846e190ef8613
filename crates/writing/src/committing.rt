// Commit: the state goes into the slot that is not active, so that the one that was stays whole until the other is.
ghost use Rattle.std.specs.Prelude.{◌≡◌, ◌^◌, ◌≤◌, ◌<◌};
ghost use Rattle.writing.specs.Commit.{pointer_to, slot_of, slot_stored, committed, judge_numbers, judge_commit, commit_of, Storable};

use format::V2Format;
use header::{SlotData, V2_DATA_START};
use queue::{Element, QueueFile, SoundQueue};
use refusal::Refusal;

// A pointer to an element: its offset in the file, or 0 where there are no elements.
pub(crate) fn pointer_to(elem_cnt: u32, elem: Element) -> u64
    requires { elem.pos < 2 ^ 63 }
    ensures { result ≡ pointer_to elem_cnt elem }
{
    if elem_cnt == 0 {
        return 0;
    }
    V2_DATA_START + elem.pos
}

// What the slot of a state holds.
fn slot_data(q: QueueFile) -> SlotData
    requires { (q.first.pos < 2 ^ 63) × (q.last.pos < 2 ^ 63) }
    ensures { result ≡ slot_of q }
{
    SlotData {
        file_length: q.file_len,
        element_count: q.elem_cnt,
        first_position: pointer_to(q.elem_cnt, q.first),
        last_position: pointer_to(q.elem_cnt, q.last),
        generation: q.format.generation,
        next_sequence_number: q.format.next_seq,
    }
}

// Stores a state in its active slot.
pub(crate) fn store_slot(q: QueueFile, image: &mut [u8])
    requires { (q.first.pos < 2 ^ 63) × (q.last.pos < 2 ^ 63) }
    ensures { image.new ≡ slot_stored q image.old }
{
    let bytes = header::build_slot_bytes(slot_data(q));
    wire::put(image, q.format.active_slot.offset() as usize, &bytes);
}

// The state with the other slot active and one generation more, stored there.
#[tactic(auto, unfolding(crate::specs::Commit::committed))]
pub(crate) fn sync_header(q: QueueFile, image: &mut [u8]) -> QueueFile
    requires { Storable q }
    ensures { (result, image.new) ≡ committed (q, image.old) }
{
    let next = QueueFile {
        format: V2Format {
            active_slot: q.format.active_slot.toggle(),
            generation: q.format.generation + 1,
            ..q.format
        },
        ..q
    };
    store_slot(next, image);
    next
}

// Whether generation and next sequence stay below their limit, after so many commits and elements more.
#[tactic(auto, using(refusal::proofs::Laws::decide), unfolding(crate::specs::Commit::judge_numbers))]
pub(crate) fn judge_numbers(q: SoundQueue, commits: u64, elements: u64) -> Result<(), Refusal>
    requires { (commits ≤ 2) × (elements ≤ 1) }
    ensures { result ≡ judge_numbers q.state commits elements }
{
    let format = q.state.format;
    if format.generation + commits >= 0x8000_0000_0000_0000 {
        return Err(Refusal::Exhausted);
    }
    if format.next_seq + elements >= 0x8000_0000_0000_0000 {
        return Err(Refusal::Exhausted);
    }
    Ok(())
}

// Whether a state can be committed to an image of so many bytes.
#[tactic(auto, using(queue::proofs::SoundQueueLaws::asked), unfolding(crate::specs::Commit::judge_commit))]
pub(crate) fn judge_commit(q: QueueFile, image_len: u64) -> Result<(), Refusal>
    ensures { result ≡ judge_commit q image_len }
{
    judge_numbers(q.sound(image_len)?, 1, 0)
}

// Commits the state, where it is sound and its generation can rise.
#[tactic(auto, unfolding(crate::specs::Commit::commit_of))]
pub fn commit(q: QueueFile, image: &mut [u8]) -> Result<QueueFile, Refusal>
    ensures { (result, image.new) ≡ commit_of q image.old }
{
    judge_commit(q, image.len() as u64)?;
    Ok(sync_header(q, image))
}
