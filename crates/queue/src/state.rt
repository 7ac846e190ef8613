// The state of a queue, when it is sound, and how much of the file it uses.
ghost use Rattle.std.specs.Prelude.{◌≡◌, true, ◌-◌, ◌≤◌, ◌<◌, leb};
ghost use Rattle.format.specs.Element.{element_span};
ghost use Rattle.queue.specs.Element.{Lies};
ghost use Rattle.queue.specs.State.{sound_lengths, sound_numbers, no_ends, ends_used, sound_ends, sound, used_bytes, judge_used, judge_remaining};

use crate::element::Element;
use crate::places;
use format::{V2_ELEM_OVERHEAD, V2Format};
use header::V2_DATA_START;
use refusal::Refusal;

// What the caller chooses: the capacity is the file length to which a queue that is cleared goes back.
#[derive(Clone, Copy, Debug, PartialEq, Eq)]
pub struct Settings {
    pub capacity: u64,
    pub overwrite_on_remove: bool,
}

#[derive(Clone, Copy, Debug, PartialEq, Eq)]
pub struct QueueFile {
    pub file_len: u64,
    pub real_len: u64,
    pub format: V2Format,
    pub elem_cnt: u32,
    pub first: Element,
    pub last: Element,
    pub settings: Settings,
}

impl QueueFile {
    // Whether the state can be that of a queue in an image of so many bytes.
    #[tactic(auto, unfolding(crate::specs::State::sound))]
    pub fn is_sound(self, image_len: u64) -> bool
        ensures { result ≡ sound self image_len }
    {
        self.has_sound_lengths(image_len)
            && self.has_sound_numbers()
            && if self.elem_cnt == 0 {
                self.has_no_ends()
            } else {
                self.has_sound_ends(image_len)
            }
    }

    #[tactic(auto, unfolding(crate::specs::State::sound_lengths))]
    fn has_sound_lengths(self, image_len: u64) -> bool
        ensures { result ≡ sound_lengths self image_len }
    {
        V2_DATA_START <= self.file_len
            && self.file_len <= self.real_len
            && self.real_len <= image_len
            && self.real_len < 0x8000_0000_0000_0000
    }

    #[tactic(auto, unfolding(crate::specs::State::sound_numbers))]
    fn has_sound_numbers(self) -> bool
        ensures { result ≡ sound_numbers self }
    {
        let format = self.format;
        format.next_seq != 0
            && format.next_seq < 0x8000_0000_0000_0000
            && format.generation < 0x8000_0000_0000_0000
            && self.elem_cnt < 0x8000_0000
    }

    // First and last, where there are no elements.
    #[tactic(auto, unfolding(crate::specs::State::no_ends))]
    fn has_no_ends(self) -> bool
        ensures { result ≡ no_ends self }
    {
        self.first.is_empty() && self.last.is_empty()
    }

    // First and last, where there are elements.
    #[tactic(auto, unfolding(crate::specs::State::sound_ends))]
    fn has_sound_ends(self, image_len: u64) -> bool
        requires { sound_lengths self image_len ≡ true }
        ensures { result ≡ sound_ends self }
    {
        let capacity = self.file_len - V2_DATA_START;
        self.first.pos < capacity
            && self.last.pos < capacity
            && span_within(self.first.len, capacity)
            && span_within(self.last.len, capacity)
            && self.ends_used(image_len) <= self.file_len
    }

    // The bytes of the slots and those from first to the end of last, where there are elements.
    pub(crate) fn ends_used(self, image_len: u64) -> u64
        requires lies { Lies image_len self.file_len self.last }
        requires pos_bound { self.first.pos < self.file_len - 8192 }
        ensures { result ≡ ends_used self }
    {
        let distance = places::distance(image_len, self.file_len, self.first.pos, self.last.pos);
        distance + (self.last.len + V2_ELEM_OVERHEAD) + V2_DATA_START
    }

    // The bytes of the file that are in use: the slots, and from first to the end of last.
    #[tactic(auto, using(crate::proofs::SoundQueueLaws::asked))]
    pub fn used_bytes(self, image_len: u64) -> Result<u64, Refusal>
        ensures { result ≡ judge_used self image_len }
    {
        let q = self.sound(image_len)?;
        Ok(q.used())
    }

    // The bytes of the file that are not in use.
    #[tactic(auto, using(crate::proofs::SoundQueueLaws::asked))]
    pub fn remaining_bytes(self, image_len: u64) -> Result<u64, Refusal>
        ensures { result ≡ judge_remaining self image_len }
    {
        let q = self.sound(image_len)?;
        Ok(q.remaining())
    }
}

// Whether an element of that payload fits a ring of that capacity. Its span may be too large to take.
fn span_within(len: u64, capacity: u64) -> bool
    ensures { result ≡ leb (element_span len) capacity }
{
    V2_ELEM_OVERHEAD <= capacity && len <= capacity - V2_ELEM_OVERHEAD
}
