// Clear: the queue is empty, and the file goes back to its set capacity.
ghost use Rattle.std.specs.Prelude.{◌≡◌};
ghost use Rattle.writing.specs.Clearing.{cleared_length, ring_zeroed, cut_state, clear_of};

use crate::committing::{judge_commit, sync_header};
use header::V2_DATA_START;
use queue::{Element, QueueFile};
use refusal::Refusal;

// The length that a cleared file is cut to.
fn cleared_length(q: QueueFile) -> u64
    ensures { result ≡ cleared_length q }
{
    q.settings.capacity.max(V2_DATA_START)
}

// Zeroes what is left of the ring once the file is cut.
#[tactic(auto, unfolding(crate::specs::Clearing::ring_zeroed))]
fn zero_ring(q: QueueFile, image: &mut [u8])
    ensures { (q, image.new) ≡ ring_zeroed (q, image.old) }
{
    if !q.settings.overwrite_on_remove {
        return;
    }
    let kept = q.file_len.min(cleared_length(q));
    if kept > V2_DATA_START {
        wire::fill_at(
            image,
            V2_DATA_START as usize,
            (kept - V2_DATA_START) as usize,
            0,
        );
    }
}

// The state once the file is cut, if it is longer.
fn cut(q: QueueFile) -> QueueFile
    ensures { result ≡ cut_state q }
{
    let cleared = cleared_length(q);
    if q.file_len <= cleared {
        return q;
    }
    QueueFile {
        file_len: cleared,
        real_len: cleared,
        ..q
    }
}

// Removes all elements. The commit has the file's old length.
#[tactic(auto, unfolding(crate::specs::Clearing::clear_of, crate::specs::Clearing::cleared))]
pub fn clear(q: QueueFile, image: &mut [u8]) -> Result<QueueFile, Refusal>
    ensures { (result, image.new) ≡ clear_of q image.old }
{
    judge_commit(q, image.len() as u64)?;
    let empty = QueueFile {
        elem_cnt: 0,
        first: Element::EMPTY,
        last: Element::EMPTY,
        ..q
    };
    let committed = sync_header(empty, image);
    zero_ring(committed, image);
    Ok(cut(committed))
}
