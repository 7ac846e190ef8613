// Iteration: one element a step, from first on. What remembers the place is a cursor, which the caller keeps.
ghost use Rattle.std.specs.Prelude.{◌≡◌, length};
ghost use Rattle.queue.specs.Iter.{start_of, cursor_after, judge_step, stepped_output, reader_of, next_of, next_output};

use crate::element::{Element, header_at, read_payload, validate_footer};
use crate::places;
use crate::state::QueueFile;
use format::V2_ELEM_OVERHEAD;
use header::V2_DATA_START;
use refusal::Refusal;

// The element that comes next: how many came before it, and its place.
#[derive(Clone, Copy, Debug, PartialEq, Eq)]
pub struct Cursor {
    pub next_elem_index: u64,
    pub next_elem_pos: u64,
}

impl Cursor {
    // Where to go on after a step from here: past a refusal or the end it does not go.
    pub fn after(self, stepped: Result<Option<Step>, Refusal>) -> Cursor
        ensures { result ≡ cursor_after stepped self }
    {
        match stepped {
            Ok(Some(step)) => step.next,
            _ => self,
        }
    }
}

// An element that was handed out: what its header says, and where to go on. Its payload is at the output's front.
#[derive(Clone, Copy, Debug, PartialEq, Eq)]
pub struct Step {
    pub index: u64,
    pub elem: Element,
    pub prev_pos: u64,
    pub next: Cursor,
}

impl QueueFile {
    // The cursor at the first element.
    pub fn iter(self) -> Cursor
        ensures { result ≡ start_of self }
    {
        Cursor {
            next_elem_index: 0,
            next_elem_pos: self.first.pos,
        }
    }

    // Hands out the element at a cursor, or nothing behind the last, and copies its payload to the output's front.
    pub fn step(self, image: &[u8], cursor: Cursor, out: &mut [u8]) -> Result<Option<Step>, Refusal>
        ensures value { result ≡ judge_step self image.now cursor (length out.old) }
        ensures out_after { out.new ≡ stepped_output result image.now self.file_len out.old }
    {
        let stepped = self.judge_step(image, cursor, out.len() as u64)?;
        if let Some(step) = stepped {
            read_payload(image, self.file_len, step.elem, out);
        }
        Ok(stepped)
    }

    // What a step hands out, beside the payload.
    #[tactic(auto, using(crate::proofs::SoundQueueLaws::asked), unfolding(crate::specs::Iter::judge_step))]
    fn judge_step(self, image: &[u8], cursor: Cursor, room: u64) -> Result<Option<Step>, Refusal>
        ensures { result ≡ judge_step self image.now cursor room }
    {
        self.sound(image.len() as u64)?;
        if cursor.next_elem_index >= self.elem_cnt as u64 {
            return Ok(None);
        }
        if cursor.next_elem_pos >= self.file_len - V2_DATA_START {
            return Err(Refusal::Unsound);
        }
        let header = header_at(image, self.file_len, cursor.next_elem_pos)?;
        if header.payload_len > room {
            return Err(Refusal::OutputTooSmall);
        }
        let elem = Element::here(cursor.next_elem_pos, header);
        validate_footer(image, self.file_len, elem)?;
        let span = elem.len + V2_ELEM_OVERHEAD;
        Ok(Some(Step {
            index: cursor.next_elem_index,
            elem,
            prev_pos: header.prev_pos,
            next: Cursor {
                next_elem_index: cursor.next_elem_index + 1,
                next_elem_pos: places::add(image.len() as u64, self.file_len, elem.pos, span),
            },
        }))
    }
}

// A reader that remembers its place. It borrows the image, so that nothing is stored there as long as it is used.
#[derive(Clone, Copy, Debug, PartialEq, Eq)]
pub struct Iter<'a> {
    pub image: &'a [u8],
    pub state: QueueFile,
    pub cursor: Cursor,
}

// What a reader's step gives: the answer, and the reader to go on with, since a state goes in and out by value.
#[derive(Clone, Copy, Debug, PartialEq, Eq)]
pub struct Next<'a> {
    pub stepped: Result<Option<Step>, Refusal>,
    pub iter: Iter<'a>,
}

impl<'a> Iter<'a> {
    // The reader at the first element.
    pub fn new(image: &'a [u8], state: QueueFile) -> Iter<'a>
        ensures { result ≡ reader_of image.entry state }
    {
        let cursor = state.iter();
        Iter {
            image,
            state,
            cursor,
        }
    }

    // Hands out the element at the reader's place, as `step` does. Past a refusal or the end the reader does not go.
    pub fn next(self, out: &mut [u8]) -> Next<'a>
        ensures value { result ≡ next_of self.entry (length out.old) }
        ensures out_after { out.new ≡ next_output self.entry out.old }
    {
        let stepped = self.state.step(self.image, self.cursor, out);
        let cursor = self.cursor.after(stepped);
        Next {
            stepped,
            iter: Iter { cursor, ..self },
        }
    }
}
