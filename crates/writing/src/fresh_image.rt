// A fresh image: an empty queue in slot A, and zeros.
ghost use Rattle.std.specs.Prelude.{◌≡◌};
ghost use Rattle.writing.specs.Fresh.{fresh_queue, fresh_of};

use crate::committing::store_slot;
use format::V2Format;
use header::{HeaderSlot, V2_DATA_START};
use queue::{Element, QueueFile, Settings};
use refusal::Refusal;

fn fresh_queue(file_len: u64, settings: Settings) -> QueueFile
    ensures { result ≡ fresh_queue file_len settings }
{
    QueueFile {
        file_len,
        real_len: file_len,
        format: V2Format {
            active_slot: HeaderSlot::A,
            generation: 1,
            next_seq: 1,
        },
        elem_cnt: 0,
        first: Element::EMPTY,
        last: Element::EMPTY,
        settings,
    }
}

// Lays a file of that length with an empty queue at the image's front, and opens it.
#[tactic(auto, using(refusal::proofs::Laws::decide), unfolding(crate::specs::Fresh::fresh_of))]
pub fn fresh(image: &mut [u8], file_len: u64, settings: Settings) -> Result<QueueFile, Refusal>
    ensures { (result, image.new) ≡ fresh_of file_len settings image.old }
{
    if file_len < V2_DATA_START {
        return Err(Refusal::Unsound);
    }
    if file_len >= 0x8000_0000_0000_0000 {
        return Err(Refusal::Unsound);
    }
    if file_len > image.len() as u64 {
        return Err(Refusal::BufferTooSmall);
    }
    let q = fresh_queue(file_len, settings);
    wire::fill_at(image, 0, file_len as usize, 0);
    store_slot(q, image);
    Ok(q)
}
