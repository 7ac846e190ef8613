// The operations that open a queue, `image`, `reopen` and `strict`, and those that change its settings, `overwrite` and `capacity`.
use crate::answer::{Answer, Fault, Told};
use crate::bench::Bench;
use crate::words;
use queue::{QueueFile, Settings};

impl Bench {
    // `image HEX CAPACITY OVERWRITE`. The bytes stay where the opening is refused, so the state of those before them does not.
    pub fn load(&mut self, line: &[u8]) -> Answer {
        let [capacity, overwrite] = words::numbers_from::<2>(line, 2)?;
        let settings = words::settings(capacity, overwrite)?;
        let bytes = words::string(line, 1, &mut self.strings)?;
        let len = bytes.len() as u64;
        wire::fill(&mut self.image, 0);
        wire::put(&mut self.image, 0, bytes);
        self.held = None;
        let opened = queue::open(&self.image, len, settings)?;
        self.keep(opened)
    }

    // `reopen CAPACITY OVERWRITE`
    pub fn reopen(&mut self, line: &[u8], q: QueueFile) -> Answer {
        let settings = settings(line)?;
        let opened = queue::open(&self.image, q.real_len, settings)?;
        self.keep(opened)
    }

    // `strict CAPACITY OVERWRITE`
    pub fn reopen_strictly(&mut self, line: &[u8], q: QueueFile) -> Answer {
        let settings = settings(line)?;
        let opened = queue::open_strict(&self.image, q.real_len, settings)?;
        self.keep(opened)
    }

    // `overwrite 0/1`
    pub fn set_overwrite(&mut self, line: &[u8], q: QueueFile) -> Answer {
        let [overwrite] = words::numbers::<1>(line)?;
        let mut after = q;
        after.settings.overwrite_on_remove = words::flag(overwrite)?;
        self.held = Some(after);
        Ok(Told::Nothing)
    }

    // `capacity N`
    pub fn set_capacity(&mut self, line: &[u8], q: QueueFile) -> Answer {
        let [capacity] = words::numbers::<1>(line)?;
        let mut after = q;
        after.settings.capacity = capacity;
        self.held = Some(after);
        Ok(Told::Nothing)
    }
}

fn settings(line: &[u8]) -> Result<Settings, Fault> {
    let [capacity, overwrite] = words::numbers::<2>(line)?;
    words::settings(capacity, overwrite)
}
