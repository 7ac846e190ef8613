// The first element's payload: copied to an output, or lent where it lies. Its footer is checked before anything is handed out.
ghost use Rattle.std.specs.Prelude.{◌≡◌, length};
ghost use Rattle.queue.specs.Element.{payload_at};
ghost use Rattle.queue.specs.Peek.{fit_peek, judge_peek, peeked_output, judge_peek_place, peeked_part};

use crate::element::{read_payload, validate_footer};
use crate::places;
use crate::state::QueueFile;
use format::V2_ELEM_HDR_LEN;
use header::V2_DATA_START;
use refusal::Refusal;

// Bytes of the image.
#[derive(Clone, Copy, Debug, PartialEq, Eq)]
pub struct Part {
    pub offset: u64,
    pub len: u64,
}

impl QueueFile {
    // Copies the first element's payload to the output's front, and answers how many bytes it has; nothing where the queue is empty.
    #[tactic(auto, unfolding(crate::specs::Peek::judge_peek))]
    pub fn peek_into(self, image: &[u8], out: &mut [u8]) -> Result<Option<u64>, Refusal>
        ensures value { result ≡ judge_peek self image.now (length out.old) }
        ensures out_after { out.new ≡ peeked_output result (payload_at image.now self.file_len self.first) out.old }
    {
        let Some(len) = self.fit_peek(image.len() as u64, out.len() as u64)? else {
            return Ok(None);
        };
        validate_footer(image, self.file_len, self.first)?;
        read_payload(image, self.file_len, self.first, out);
        Ok(Some(len))
    }

    // Whether there is a payload and an output of that room holds it.
    #[tactic(auto, using(crate::proofs::SoundQueueLaws::asked), unfolding(crate::specs::Peek::fit_peek))]
    fn fit_peek(self, image_len: u64, room: u64) -> Result<Option<u64>, Refusal>
        ensures { result ≡ fit_peek self image_len room }
    {
        self.sound(image_len)?;
        if self.elem_cnt == 0 {
            return Ok(None);
        }
        if self.first.len > room {
            return Err(Refusal::OutputTooSmall);
        }
        Ok(Some(self.first.len))
    }

    // Where the first element's payload lies in the image, unless the ring's end cuts it in two.
    #[tactic(auto, using(crate::proofs::SoundQueueLaws::asked), unfolding(crate::specs::Peek::judge_peek_place))]
    pub fn peek_place(self, image: &[u8]) -> Result<Option<Part>, Refusal>
        ensures { result ≡ judge_peek_place self image.now }
    {
        self.sound(image.len() as u64)?;
        if self.elem_cnt == 0 {
            return Ok(None);
        }
        let first = self.first;
        let start = places::add(
            image.len() as u64,
            self.file_len,
            first.pos,
            V2_ELEM_HDR_LEN,
        );
        if start + first.len > self.file_len - V2_DATA_START {
            return Err(Refusal::CrossesEnd);
        }
        validate_footer(image, self.file_len, first)?;
        Ok(Some(Part {
            offset: V2_DATA_START + start,
            len: first.len,
        }))
    }

    // That part of the image: no bytes where the queue is empty or the payload is refused.
    pub fn peek_part(self, image: &[u8]) -> &[u8]
        ensures { result.now ≡ peeked_part image.now (judge_peek_place self image.now) }
    {
        let Ok(Some(part)) = self.peek_place(image) else {
            return &image[0..0];
        };
        wire::part(image, part.offset as usize, part.len as usize)
    }
}
