// The bench: what goes from line to line, and the operations on it.
use crate::answer::{Answer, Fault};
use queue::QueueFile;

// What a script runs on.
#[derive(Drop)]
pub struct Bench {
    // The byte strings of a line, of which there are two at most.
    pub strings: [u8; 524288],
    // What an operation reads goes here: a longer payload is refused.
    pub output: [u8; 65536],
    // The image is all of this, whatever the real length.
    pub image: [u8; 262144],
    // The state, or nothing before the first and behind an image that was not opened.
    pub held: Option<QueueFile>,
}

impl Bench {
    pub fn new() -> Bench {
        Bench {
            strings: [0; 524288],
            output: [0; 65536],
            image: [0; 262144],
            held: None,
        }
    }

    // The answer to a line, which leaves a state. All but these need one.
    pub fn answer(&mut self, line: &[u8]) -> Answer {
        match script::word(line, 0) {
            b"state" => self.give(line),
            b"image" => self.load(line),
            b"fresh" => self.fresh(line),
            name => {
                let q = self.held.ok_or(Fault::Bad)?;
                self.answer_on(name, line, q)
            }
        }
    }

    fn answer_on(&mut self, name: &[u8], line: &[u8], q: QueueFile) -> Answer {
        match name {
            b"poke" => self.poke(line),
            b"extend" => self.extend(line, q),
            b"ring_add" => self.ring_add(line, q),
            b"ring_distance" => self.ring_distance(line, q),
            b"ring_read" => self.ring_read(line, q),
            b"ring_write" => self.ring_write(line, q),
            b"ring_erase" => self.ring_erase(line, q),
            b"relocate" => self.relocate(line),
            b"add" => self.add(line, q),
            b"remove" => self.remove(line, q),
            b"clear" => self.clear(line, q),
            b"commit" => self.commit(line, q),
            b"grow" => self.grow(line, q),
            b"reopen" => self.reopen(line, q),
            b"strict" => self.reopen_strictly(line, q),
            b"overwrite" => self.set_overwrite(line, q),
            b"capacity" => self.set_capacity(line, q),
            b"peek" => self.peek(line, q),
            b"peek_into" => self.peek_into(line, q),
            b"peek_place" => self.peek_place(line, q),
            b"peek_part" => self.peek_part(line, q),
            b"iterate" => self.iterate(line, q),
            b"step" => self.step(line, q),
            b"recover" => self.recover(line, q),
            b"used" => self.used(line, q),
            _ => Err(Fault::Bad),
        }
    }
}
