// The operations that read the queue and leave it as it is: `peek`, `peek_into`, `peek_place`, `peek_part`, `iterate`, `step`, `recover`
// and `used`. Its image is the whole buffer.
use crate::answer::{Answer, Fault, Told};
use crate::bench::Bench;
use crate::words;
use queue::{Cursor, QueueFile};

impl Bench {
    // `peek`
    pub fn peek(&mut self, line: &[u8], q: QueueFile) -> Answer {
        words::count(line, 1)?;
        peeked(&self.image, q, &mut self.output)
    }

    // `peek_into LEN`
    pub fn peek_into(&mut self, line: &[u8], q: QueueFile) -> Answer {
        let [len] = words::numbers::<1>(line)?;
        let out = front(&mut self.output, len)?;
        peeked(&self.image, q, out)
    }

    // `peek_place`
    pub fn peek_place(&mut self, line: &[u8], q: QueueFile) -> Answer {
        words::count(line, 1)?;
        match q.peek_place(&self.image)? {
            Some(part) => Ok(Told::Place(part)),
            None => Ok(Told::Empty),
        }
    }

    // `peek_part`
    pub fn peek_part(&mut self, line: &[u8], q: QueueFile) -> Answer {
        words::count(line, 1)?;
        Ok(payload(q.peek_part(&self.image)))
    }

    // `iterate`
    pub fn iterate(&mut self, line: &[u8], q: QueueFile) -> Answer {
        words::count(line, 1)?;
        Ok(Told::Elements(q))
    }

    // `step INDEX PLACE LEN`
    pub fn step(&mut self, line: &[u8], q: QueueFile) -> Answer {
        let [index, place, len] = words::numbers::<3>(line)?;
        let cursor = Cursor {
            next_elem_index: index,
            next_elem_pos: place,
        };
        let out = front(&mut self.output, len)?;
        match q.step(&self.image, cursor, out)? {
            Some(step) => Ok(Told::Step(step)),
            None => Ok(Told::End),
        }
    }

    // `recover PLACE SEQUENCE N`. A count has 32 bits: a larger one is a bad word.
    pub fn recover(&mut self, line: &[u8], q: QueueFile) -> Answer {
        let [place, seq, n] = words::numbers::<3>(line)?;
        let count = u32::try_from(n).map_err(|_| Fault::Bad)?;
        let head = queue::recover_v2_head(&self.image, q.file_len, place, seq, count)?;
        Ok(Told::Head(head))
    }

    // `used`
    pub fn used(&mut self, line: &[u8], q: QueueFile) -> Answer {
        words::count(line, 1)?;
        Ok(Told::Number(q.used_bytes(self.image.len() as u64)?))
    }
}

// The first `len` bytes of the output, of which there have to be so many.
pub fn front(output: &mut [u8], len: u64) -> Result<&mut [u8], Fault> {
    output.get_mut(..len as usize).ok_or(Fault::Bad)
}

fn peeked(image: &[u8], q: QueueFile, out: &mut [u8]) -> Answer {
    match q.peek_into(image, out)? {
        Some(len) => Ok(payload(wire::part(out, 0, len as usize))),
        None => Ok(Told::Empty),
    }
}

// A payload is told by its length and its CRC-32.
fn payload(bytes: &[u8]) -> Told {
    Told::Payload(bytes.len() as u64, crc::crc32(bytes))
}
