// Strict opening: a queue is opened only where it is one whole trail, each element behind the one before and linked to it.
ghost use Rattle.std.specs.Prelude.{◌≡◌, ◌-◌, ◌^◌, ◌≤◌, ◌<◌, length};
ghost use Rattle.queue.specs.Strict.{strict_element, check_trail, open_strictly};

use crate::element::{Element, header_in_sequence, validate_footer};
use crate::opening::open;
use crate::places;
use crate::sound_queue::SoundQueue;
use crate::state::{QueueFile, Settings};
use format::{V2_ELEM_OVERHEAD, V2ElementHeader};
use header::V2_DATA_START;
use refusal::Refusal;

// The backlink that the first element of a whole trail has.
const FIRST_LINK: u64 = 0;

// The header at a place of the ring, where that sequence and that backlink stand in it and its footer is its own.
fn strict_element(
    image: &[u8],
    file_len: u64,
    pos: u64,
    seq: u64,
    link: u64,
) -> Result<V2ElementHeader, Refusal>
    requires { (8192 < file_len) × (file_len ≤ length image.now) × (file_len < 2 ^ 63) × (pos < file_len - 8192) }
    ensures { result ≡ strict_element image.now file_len pos seq link }
{
    let header = header_in_sequence(image, file_len, pos, seq)?;
    if header.prev_pos != link {
        return Err(Refusal::BrokenLink);
    }
    validate_footer(image, file_len, Element::here(pos, header))?;
    Ok(header)
}

impl SoundQueue {
    // Whether the elements from first on are one whole trail that ends with last.
    fn check_trail(self, image: &[u8]) -> Result<(), Refusal>
        requires { self.image_len ≡ length image.now }
        ensures { result ≡ check_trail self.state image.now }
    {
        let q = self.state;
        if q.elem_cnt == 0 {
            return Ok(());
        }
        let capacity = q.file_len - V2_DATA_START;
        let mut pos = q.first.pos;
        // The first one's sequence: 0, which no element has, where there are more elements than sequences.
        let mut seq = q.format.next_seq.saturating_sub(q.elem_cnt as u64);
        let mut link = FIRST_LINK;
        let mut spans = 0;
        for _ in 0..q.elem_cnt {
            let header = strict_element(image, q.file_len, pos, seq, link)?;
            let span = header.payload_len + V2_ELEM_OVERHEAD;
            spans += span;
            if spans > capacity {
                return Err(Refusal::Unsound);
            }
            link = V2_DATA_START + pos;
            pos = places::add(self.image_len, q.file_len, pos, span);
            seq += 1;
        }
        if link != V2_DATA_START + q.last.pos {
            return Err(Refusal::BrokenLink);
        }
        Ok(())
    }
}

// Opens the file of that real length at the image's front, where its queue is sound and one whole trail.
#[tactic(auto, using(crate::proofs::SoundQueueLaws::asked), unfolding(crate::specs::Strict::open_strictly))]
pub fn open_strict(image: &[u8], real_len: u64, settings: Settings) -> Result<QueueFile, Refusal>
    ensures { result ≡ open_strictly image.now real_len settings }
{
    let q = open(image, real_len, settings)?;
    q.sound(image.len() as u64)?.check_trail(image)?;
    Ok(q)
}
