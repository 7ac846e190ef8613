// What is asked before a file grows: the numbers, the new length, and where elements are to be moved, that the trail is whole.
ghost use Rattle.std.specs.Prelude.{◌≡◌, ◌≤◌, length};
ghost use Rattle.queue.specs.Element.{Lies};
ghost use Rattle.writing.specs.Growth.{behind, end_of_last, wrapped, commits_growth, growth_commits, judge_length, walk_old_ring, check_growth};

use crate::committing::judge_numbers;
use crate::expanded_len::compute_expanded_len;
use format::V2_ELEM_OVERHEAD;
use header::V2_DATA_START;
use queue::{Element, QueueFile, SoundQueue};
use refusal::Refusal;

// The place behind an element.
pub(crate) fn behind(file_len: u64, elem: Element) -> u64
    requires { Lies file_len file_len elem }
    ensures { result ≡ behind file_len elem }
{
    let capacity = file_len - V2_DATA_START;
    (elem.pos + (elem.len + V2_ELEM_OVERHEAD)) % capacity
}

// The place behind last.
pub(crate) fn end_of_last(q: QueueFile) -> u64
    requires { Lies q.file_len q.file_len q.last }
    ensures { result ≡ end_of_last q }
{
    behind(q.file_len, q.last)
}

// Whether elements stand at the ring's start that come behind those at its end: first is not before the end of last.
#[tactic(auto, unfolding(crate::specs::Growth::wrapped))]
pub(crate) fn wraps(q: SoundQueue) -> bool
    ensures { result ≡ wrapped q.state }
{
    q.state.elem_cnt != 0 && end_of_last(q.state) <= q.state.first.pos
}

// Whether growth commits: it moves last, and zeroes what it moved from.
#[tactic(auto, unfolding(crate::specs::Growth::commits_growth))]
fn commits_growth(q: SoundQueue, data_len: u64) -> bool
    ensures { result ≡ commits_growth q.state data_len }
{
    q.remaining() < data_len
        && wraps(q)
        && q.state.last.pos < q.state.first.pos
        && q.state.settings.overwrite_on_remove
}

fn growth_commits(q: SoundQueue, data_len: u64) -> u64
    ensures { (result ≡ growth_commits q.state data_len) × (result ≤ 1) }
{
    u64::from(commits_growth(q, data_len))
}

// The file length that makes room for data_len bytes, where the call makes so many commits beside growth's and adds so many elements.
#[tactic(auto, unfolding(crate::specs::Growth::judge_length))]
pub(crate) fn judge_length(
    q: SoundQueue,
    data_len: u64,
    commits: u64,
    elements: u64,
) -> Result<u64, Refusal>
    requires { (commits ≤ 1) × (elements ≤ 1) }
    ensures { result ≡ judge_length q.state q.image_len data_len commits elements }
{
    let all = commits + growth_commits(q, data_len);
    judge_numbers(q, all, elements)?;
    let new_len = compute_expanded_len(q.state.file_len, q.remaining(), data_len)?;
    if new_len > q.image_len {
        return Err(Refusal::BufferTooSmall);
    }
    Ok(new_len)
}

// Whether each element from first on has a valid header, all of them fit the ring, and the one that comes out last is last.
fn check_old_ring(sound: SoundQueue, image: &[u8]) -> Result<(), Refusal>
    requires { (sound.image_len ≡ length image.now) × (sound.state.elem_cnt ≡ 0 → ⊥) }
    ensures { result ≡ walk_old_ring sound.state image.now }
{
    let q = sound.state;
    let capacity = q.file_len - V2_DATA_START;
    let mut before = q.first.pos;
    let mut pos = q.first.pos;
    let mut spans = 0;
    for _ in 0..q.elem_cnt {
        let header = queue::validate_v2_element_header(image, q.file_len, pos)?;
        spans += header.payload_len + V2_ELEM_OVERHEAD;
        if spans > capacity {
            return Err(Refusal::Unsound);
        }
        before = pos;
        pos = behind(q.file_len, Element::here(pos, header));
    }
    if before != q.last.pos {
        return Err(Refusal::Unsound);
    }
    Ok(())
}

// Whether nothing stands in the way of growing to a length that is planned: a file that wraps is walked before anything is moved.
#[tactic(auto, unfolding(crate::specs::Growth::check_growth))]
pub(crate) fn check_growth(q: SoundQueue, image: &[u8], new_len: u64) -> Result<(), Refusal>
    requires { q.image_len ≡ length image.now }
    ensures { result ≡ check_growth q.state image.now new_len }
{
    if q.state.file_len < new_len && wraps(q) {
        return check_old_ring(q, image);
    }
    Ok(())
}
