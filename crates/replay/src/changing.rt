// The operations that change a queue, `fresh`, `add`, `remove`, `clear`, `commit` and `grow`.
use crate::answer::{Answer, Told};
use crate::bench::Bench;
use crate::words;
use queue::QueueFile;

impl Bench {
    // `fresh LEN CAPACITY OVERWRITE`
    pub fn fresh(&mut self, line: &[u8]) -> Answer {
        let [len, capacity, overwrite] = words::numbers::<3>(line)?;
        let settings = words::settings(capacity, overwrite)?;
        let changed = writing::fresh(&mut self.image, len, settings)?;
        self.keep(changed)
    }

    // `add HEX`
    pub fn add(&mut self, line: &[u8], q: QueueFile) -> Answer {
        words::count(line, 2)?;
        let payload = words::string(line, 1, &mut self.strings)?;
        let changed = writing::add(q, &mut self.image, payload)?;
        self.keep(changed)
    }

    // `remove N`
    pub fn remove(&mut self, line: &[u8], q: QueueFile) -> Answer {
        let [n] = words::numbers::<1>(line)?;
        let changed = writing::remove_n(q, &mut self.image, n)?;
        self.keep(changed)
    }

    // `clear`
    pub fn clear(&mut self, line: &[u8], q: QueueFile) -> Answer {
        words::count(line, 1)?;
        let changed = writing::clear(q, &mut self.image)?;
        self.keep(changed)
    }

    // `commit`
    pub fn commit(&mut self, line: &[u8], q: QueueFile) -> Answer {
        words::count(line, 1)?;
        let changed = writing::commit(q, &mut self.image)?;
        self.keep(changed)
    }

    // `grow SPAN`
    pub fn grow(&mut self, line: &[u8], q: QueueFile) -> Answer {
        let [span] = words::numbers::<1>(line)?;
        let changed = writing::expand_if_necessary(q, &mut self.image, span)?;
        self.keep(changed)
    }

    // What an opening or a change leaves is held; where it is refused, the state before it still is.
    pub fn keep(&mut self, q: QueueFile) -> Answer {
        self.held = Some(q);
        Ok(Told::Nothing)
    }
}

// `grow_length L R D`, which needs no bench.
pub fn grow_length(line: &[u8]) -> Answer {
    let [len, remaining, span] = words::numbers::<3>(line)?;
    Ok(Told::Number(writing::compute_expanded_len(len, remaining, span)?))
}
