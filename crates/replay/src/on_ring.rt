// The operations on the ring: `ring_add`, `ring_distance`, `ring_read`, `ring_write`, `ring_erase` and `relocate`. Its file length is
// the state's, and its image is the whole buffer.
use crate::answer::{Answer, Told};
use crate::bench::Bench;
use crate::on_queue::front;
use crate::words;
use queue::QueueFile;

impl Bench {
    // `ring_add PLACE DISTANCE`
    pub fn ring_add(&mut self, line: &[u8], q: QueueFile) -> Answer {
        let [place, distance] = words::numbers::<2>(line)?;
        let image_len = self.image.len() as u64;
        Ok(Told::Number(ring::add(image_len, q.file_len, place, distance)?))
    }

    // `ring_distance FROM TO`
    pub fn ring_distance(&mut self, line: &[u8], q: QueueFile) -> Answer {
        let [from, to] = words::numbers::<2>(line)?;
        let image_len = self.image.len() as u64;
        Ok(Told::Number(ring::distance(image_len, q.file_len, from, to)?))
    }

    // `ring_read PLACE N`
    pub fn ring_read(&mut self, line: &[u8], q: QueueFile) -> Answer {
        let [place, n] = words::numbers::<2>(line)?;
        let out = front(&mut self.output, n)?;
        ring::read_at(&self.image, q.file_len, place, out)?;
        Ok(Told::Output(out.len()))
    }

    // `ring_write PLACE HEX`
    pub fn ring_write(&mut self, line: &[u8], q: QueueFile) -> Answer {
        words::count(line, 3)?;
        let place = words::number(line, 1)?;
        let bytes = words::string(line, 2, &mut self.strings)?;
        ring::write_at(&mut self.image, q.file_len, place, bytes)?;
        Ok(Told::Nothing)
    }

    // `ring_erase PLACE N`
    pub fn ring_erase(&mut self, line: &[u8], q: QueueFile) -> Answer {
        let [place, n] = words::numbers::<2>(line)?;
        ring::erase_at(&mut self.image, q.file_len, place, n)?;
        Ok(Told::Nothing)
    }

    // `relocate OLD C`
    pub fn relocate(&mut self, line: &[u8]) -> Answer {
        let [old, count] = words::numbers::<2>(line)?;
        ring::relocate(&mut self.image, old, count)?;
        Ok(Told::Nothing)
    }
}
