// The operations that set the bench up: `state`, `poke` and `extend`.
use crate::answer::{Answer, Fault, Told};
use crate::bench::Bench;
use crate::words;
use format::V2Format;
use header::HeaderSlot;
use queue::{Element, QueueFile};

impl Bench {
    // `state SLOT GENERATION FILE_LEN REAL_LEN COUNT NEXT_SEQ FIRST_POS FIRST_LEN FIRST_SEQ LAST_POS LAST_LEN LAST_SEQ CAPACITY
    // OVERWRITE`
    pub fn give(&mut self, line: &[u8]) -> Answer {
        self.held = Some(state(line)?);
        Ok(Told::Nothing)
    }

    // `poke OFFSET HEX`
    pub fn poke(&mut self, line: &[u8]) -> Answer {
        words::count(line, 3)?;
        let offset = words::number(line, 1)?;
        let bytes = words::string(line, 2, &mut self.strings)?;
        let end = offset.checked_add(bytes.len() as u64).ok_or(Fault::Bad)?;
        let place = place(&mut self.image, offset, end)?;
        wire::put(place, 0, bytes);
        Ok(Told::Nothing)
    }

    // `extend N`. A file that grows has bytes that nobody wrote: a5 tells them from bytes that were made zero.
    pub fn extend(&mut self, line: &[u8], q: QueueFile) -> Answer {
        let [n] = words::numbers::<1>(line)?;
        let mut after = q;
        after.real_len = q.real_len.checked_add(n).ok_or(Fault::Bad)?;
        let grown = place(&mut self.image, q.real_len, after.real_len)?;
        wire::fill(grown, 0xa5);
        self.held = Some(after);
        Ok(Told::Nothing)
    }
}

// The bytes of the image between two places, all of which have to be there.
fn place(image: &mut [u8], start: u64, end: u64) -> Result<&mut [u8], Fault> {
    image
        .get_mut(start as usize..end as usize)
        .ok_or(Fault::Bad)
}

// The state that the words of a line spell. A count has 32 bits: a larger one is a bad word.
fn state(line: &[u8]) -> Result<QueueFile, Fault> {
    let active_slot = slot(script::word(line, 1))?;
    let [
        generation,
        file_len,
        real_len,
        count,
        next_seq,
        first_pos,
        first_len,
        first_seq,
        last_pos,
        last_len,
        last_seq,
        capacity,
        overwrite,
    ] = words::numbers_from::<13>(line, 2)?;
    Ok(QueueFile {
        file_len,
        real_len,
        format: V2Format {
            active_slot,
            generation,
            next_seq,
        },
        elem_cnt: u32::try_from(count).map_err(|_| Fault::Bad)?,
        first: Element {
            pos: first_pos,
            len: first_len,
            seq: first_seq,
        },
        last: Element {
            pos: last_pos,
            len: last_len,
            seq: last_seq,
        },
        settings: words::settings(capacity, overwrite)?,
    })
}

// `HeaderSlot` is another crate's, so no conversion can be given to it here.
fn slot(word: &[u8]) -> Result<HeaderSlot, Fault> {
    match word {
        b"A" => Ok(HeaderSlot::A),
        b"B" => Ok(HeaderSlot::B),
        _ => Err(Fault::Bad),
    }
}
