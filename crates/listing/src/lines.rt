// The lines of a listing.
use queue::{QueueFile, Step};
use refusal::Refusal;
use std::io;
use std::io::Write;

// All that is said of an image that does not open.
pub fn put_refused<W: Write>(out: &mut W, refusal: Refusal) -> io::Result<()> {
    writeln!(out, "refused {}", refusal.number())
}

// Line one: format, slot, generation, file length, count, next sequence.
pub fn put_state<W: Write>(out: &mut W, q: QueueFile) -> io::Result<()> {
    let format = q.format;
    writeln!(
        out,
        "V2 {} {} {} {} {}",
        format.active_slot, format.generation, q.file_len, q.elem_cnt, format.next_seq
    )
}

// An element: index, place, payload length, sequence, backlink.
pub fn put_element<W: Write>(out: &mut W, step: Step) -> io::Result<()> {
    let elem = step.elem;
    writeln!(
        out,
        "{} {} {} {} {}",
        step.index, elem.pos, elem.len, elem.seq, step.prev_pos
    )
}

// The last line: the number of the refusal that stopped the iteration, or 0.
pub fn put_end<W: Write>(out: &mut W, stopped: Option<Refusal>) -> io::Result<()> {
    let number = stopped.map_or(0, |refusal| refusal.number());
    writeln!(out, "end {number}")
}
