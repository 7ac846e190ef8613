// Lists a queue file. It reads the file's image on standard input and prints, for a whole trail of three elements:
//
//     V2 B 6 16584 3 5      format, slot, generation, file length, count, next sequence
//     0 44 0 2 8292         an element: index, place, payload length, sequence, backlink
//     1 88 0 3 8236
//     2 132 0 4 8280
//     end 0                 the number of the refusal that stopped the iteration, or 0
//
// Where the image does not open, `refused` and the refusal's number is all that it prints. docs/REFUSALS.md has the numbers.
//
// Here is the way from the input to the last line; lines.rt spells a line.
#![tactic(auto)]

mod lines;

use arrayvec::ArrayVec;
use queue::{QueueFile, Settings};
use refusal::Refusal;
use std::io;
use std::io::{Read, Write};
use text::Text;

// An input that has more bytes is not listed.
const MOST_BYTES: usize = 65536;

// Opening asks for them. What is only read does not depend on them.
const SETTINGS: Settings = Settings {
    capacity: 8192,
    overwrite_on_remove: true,
};

fn main(rt: HostRuntime) -> io::Result<()> {
    // Room for one byte more than is listed, so that an input that is too long shows.
    let mut input = ArrayVec::<u8, 65537>::new();
    io::copy(&mut rt.stdin().take(65537), &mut input)?;
    let mut stdout = rt.stdout();
    let mut out = Text::from(&mut stdout);
    list(&mut out, input.as_slice())?;
    out.flush()
}

// Lists an image, whose length is the file's real length.
fn list<W: Write>(out: &mut W, image: &[u8]) -> io::Result<()> {
    if image.len() > MOST_BYTES {
        return lines::put_refused(out, Refusal::BufferTooSmall);
    }
    match queue::open(image, image.len() as u64, SETTINGS) {
        Ok(q) => list_queue(out, image, q),
        Err(refusal) => lines::put_refused(out, refusal),
    }
}

// Lists a queue that opened: its elements from first on, and what stopped that, which is the first step that is refused, or the one
// behind the last element, which gives the end. A payload is shorter than the image, so that there is room for every one. `replay` has
// such a loop; one that both share would take what is printed as closures.
fn list_queue<W: Write>(out: &mut W, image: &[u8], q: QueueFile) -> io::Result<()> {
    let mut payload = [0; MOST_BYTES];
    let mut cursor = q.iter();
    lines::put_state(out, q)?;
    for _ in 0..q.elem_cnt {
        match q.step(image, cursor, &mut payload) {
            Ok(Some(step)) => {
                lines::put_element(out, step)?;
                cursor = step.next;
            }
            Ok(None) => return lines::put_end(out, None),
            Err(refusal) => return lines::put_end(out, Some(refusal)),
        }
    }
    lines::put_end(out, q.step(image, cursor, &mut payload).err())
}
