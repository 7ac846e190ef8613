// Elements of a queue as text. An iteration is printed as it goes: its elements may be more than any room holds.
use crate::output::put_refusal;
use queue::{QueueFile, Step};
use refusal::Refusal;
use std::io;
use std::io::Write;

// An element that was handed out, and a space. Its payload is at the output's front.
fn put_element<W: Write>(out: &mut W, step: Step, output: &[u8]) -> io::Result<()> {
    let elem = step.elem;
    let sum = crc::crc32(wire::part(output, 0, elem.len as usize));
    write!(
        out,
        "{},{},{},{},{sum:08x} ",
        elem.pos, elem.len, elem.seq, step.prev_pos
    )
}

// The element that a step handed out, and the cursor to go on from.
pub fn put_step<W: Write>(out: &mut W, step: Step, output: &[u8]) -> io::Result<()> {
    let next = step.next;
    put_element(out, step, output)?;
    write!(out, "{} {}", next.next_elem_index, next.next_elem_pos)
}

// The elements of a queue and what stopped the iteration. The output serves each payload in turn.
pub fn put_elements<W: Write>(
    out: &mut W,
    q: QueueFile,
    image: &[u8],
    output: &mut [u8],
) -> io::Result<()> {
    // `listing` has such a loop too. One that both share would take what is printed as closures, and hand their errors on.
    let mut cursor = q.iter();
    // No iteration hands out more elements than the state counts, so the step behind them is its last.
    for _ in 0..q.elem_cnt {
        match q.step(image, cursor, output) {
            Ok(Some(step)) => {
                put_element(out, step, output)?;
                cursor = step.next;
            }
            Ok(None) => return put_end(out, None),
            Err(refusal) => return put_end(out, Some(refusal)),
        }
    }
    put_end(out, q.step(image, cursor, output).err())
}

// The end of an iteration, and what stopped it, if not the end of the queue.
fn put_end<W: Write>(out: &mut W, stopped: Option<Refusal>) -> io::Result<()> {
    match stopped {
        Some(refusal) => {
            write!(out, "end ")?;
            put_refusal(out, refusal)
        }
        None => write!(out, "end 0 0 0"),
    }
}
