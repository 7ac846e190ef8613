// The line of an operation: the refusal, the state where it is shown, and the answer.
use crate::answer::{Answer, Fault, Told};
use crate::bench::Bench;
use crate::listing::{put_elements, put_step};
use format::V2OpenState;
use header::SlotData;
use queue::QueueFile;
use refusal::Refusal;
use std::io;
use std::io::Write;

// The line of an operation on this bench.
pub fn put_line<W: Write>(
    out: &mut W,
    answer: Answer,
    shown: Option<QueueFile>,
    bench: &mut Bench,
) -> io::Result<()> {
    match answer {
        Err(Fault::Bad) => writeln!(out, "bad"),
        Err(Fault::Refused(refusal)) => {
            put_refusal(out, refusal)?;
            put_shown(out, shown, &bench.image)?;
            writeln!(out, " : ")
        }
        Ok(told) => {
            write!(out, "0 0 0")?;
            put_shown(out, shown, &bench.image)?;
            write!(out, " : ")?;
            put_told(out, told, bench)?;
            writeln!(out, "")
        }
    }
}

// A refusal's number and its two values.
pub fn put_refusal<W: Write>(out: &mut W, refusal: Refusal) -> io::Result<()> {
    let (first, second) = refusal.values();
    write!(out, "{} {first} {second}", refusal.number())
}

// The state and the checksum of the image up to its real length, where they are shown.
fn put_shown<W: Write>(out: &mut W, shown: Option<QueueFile>, image: &[u8]) -> io::Result<()> {
    let Some(q) = shown else {
        return Ok(());
    };
    let sum = crc::crc32(wire::part(image, 0, q.real_len as usize));
    put_state(out, q)?;
    write!(out, " {sum:08x}")
}

fn put_state<W: Write>(out: &mut W, q: QueueFile) -> io::Result<()> {
    let QueueFile {
        file_len,
        real_len,
        format,
        elem_cnt,
        first,
        last,
        settings,
    } = q;
    write!(
        out,
        " {} {} {file_len} {real_len} {elem_cnt} {}",
        format.active_slot, format.generation, format.next_seq
    )?;
    // `Element` is another crate's, so no `Display` can be given to it here.
    write!(out, " {} {} {}", first.pos, first.len, first.seq)?;
    write!(out, " {} {} {}", last.pos, last.len, last.seq)?;
    write!(
        out,
        " {} {}",
        settings.capacity,
        u64::from(settings.overwrite_on_remove)
    )
}

// What an operation tells.
fn put_told<W: Write>(out: &mut W, told: Told, bench: &mut Bench) -> io::Result<()> {
    match told {
        Told::Nothing => Ok(()),
        Told::Empty => write!(out, "empty"),
        Told::End => write!(out, "end"),
        Told::Number(n) => write!(out, "{n}"),
        Told::Checksum(sum) => write!(out, "{sum:08x}"),
        Told::Payload(len, sum) => write!(out, "{len} {sum:08x}"),
        Told::Place(part) => write!(out, "{} {}", part.offset, part.len),
        Told::Head(elem) => write!(out, "{} {} {}", elem.pos, elem.len, elem.seq),
        Told::Slot(data) => put_slot(out, data),
        Told::Elected(state) => put_elected(out, state),
        Told::Header(data) => write!(out, "{} {} {}", data.payload_len, data.seq, data.prev_pos),
        Told::FileHeader(data) => write!(
            out,
            "{} {} {} {}",
            data.file_len, data.elem_cnt, data.first_pos, data.last_pos
        ),
        Told::SlotBytes(bytes) => put_hex(out, &bytes),
        Told::HeaderBytes(bytes) => put_hex(out, &bytes),
        Told::FooterBytes(bytes) => put_hex(out, &bytes),
        Told::LegacyBytes(bytes) => put_hex(out, &bytes),
        Told::V1Bytes(bytes) => put_hex(out, &bytes),
        Told::Output(n) => put_output(out, wire::part(&bench.output, 0, n)),
        Told::Step(step) => put_step(out, step, &bench.output),
        Told::Elements(q) => put_elements(out, q, &bench.image, &mut bench.output),
    }
}

fn put_slot<W: Write>(out: &mut W, data: SlotData) -> io::Result<()> {
    write!(
        out,
        "{} {} {} {} {} {}",
        data.file_length,
        data.element_count,
        data.first_position,
        data.last_position,
        data.generation,
        data.next_sequence_number
    )
}

fn put_elected<W: Write>(out: &mut W, state: V2OpenState) -> io::Result<()> {
    write!(out, "{} ", state.active_slot)?;
    put_slot(out, state.slot)
}

// What was read into the output, a byte string: `-` where it has no bytes.
fn put_output<W: Write>(out: &mut W, read: &[u8]) -> io::Result<()> {
    if read.is_empty() {
        return write!(out, "-");
    }
    put_hex(out, read)
}

// Bytes in lower-case hex, 64 at a time: a `write!` for each is five times slower.
fn put_hex<W: Write>(out: &mut W, bytes: &[u8]) -> io::Result<()> {
    for part in bytes.chunks(64) {
        let mut room = [0; 128];
        let text = &mut room[..2 * part.len()];
        hex::encode_to_slice(part, text).unwrap();
        out.write_all(text)?;
    }
    Ok(())
}
