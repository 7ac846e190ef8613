// The header slots of a V2 file: which of the two is active, what a slot holds, and its 56 bytes both ways.
// The bytes are laid out in specs/Slot.antt, as docs/FORMAT.md has them.
// Each definition that an answer equals is a list of demands: `pass` and `stop` say what it is past one that is met, and at one that is not.
#![tactic(auto, using(refusal::proofs::Laws::pass, refusal::proofs::Laws::stop, std::proofs::lemmas::Bool::Decides::nat_tests))]

ghost use Rattle.std.specs.Prelude.{◌≡◌, Some};
ghost use Rattle.header.specs.Slot.{other_slot, slot_offset, slot_letter, slot_bytes, judge_fields, encode_slot, slot_at, judge_slot, parse_slot};

use refusal::Refusal;
use std::fmt;

// Where the ring of elements starts in the file.
pub const V2_DATA_START: u64 = 8192;

// The bytes that a slot begins with: the magic bytes, version 2, three zeros.
const SLOT_START: [u8; 8] = *b"QFMH\x02\x00\x00\x00";

// The bytes of a slot.
pub const V2_SLOT_LEN: u64 = 56;

#[derive(Clone, Copy, Debug, PartialEq, Eq)]
pub enum HeaderSlot {
    A,
    B,
}

impl HeaderSlot {
    // The other slot.
    pub fn toggle(self) -> Self
        ensures { result ≡ other_slot self }
    {
        match self {
            HeaderSlot::A => HeaderSlot::B,
            HeaderSlot::B => HeaderSlot::A,
        }
    }

    // Where the slot stands in the file.
    pub fn offset(self) -> u64
        ensures { result ≡ slot_offset self }
    {
        match self {
            HeaderSlot::A => 0,
            HeaderSlot::B => 4096,
        }
    }
}

impl fmt::Display for HeaderSlot {
    ghost output = { λ slot. Some (slot_letter slot) };

    fn fmt<W: fmt::Write>(&self, f: &mut fmt::Formatter<W>) -> fmt::Result {
        f.write_str(match self {
            HeaderSlot::A => "A",
            HeaderSlot::B => "B",
        })
    }
}

// What a slot holds. The two positions are offsets in the file, both 0 where the queue is empty.
#[derive(Clone, Copy, Debug, PartialEq, Eq)]
pub struct SlotData {
    pub file_length: u64,
    pub element_count: u32,
    pub first_position: u64,
    pub last_position: u64,
    pub generation: u64,
    pub next_sequence_number: u64,
}

// The bytes of a slot, whatever it holds. What the file's signed fields cannot hold is written too, and does not parse.
pub fn build_slot_bytes(data: SlotData) -> [u8; 56]
    ensures { result ≡ slot_bytes «data» }
{
    let mut slot = [0u8; 56];
    wire::put(&mut slot, 0, &SLOT_START);
    wire::put_number(&mut slot, 8, data.file_length);
    wire::put_number(&mut slot, 16, data.element_count);
    wire::put_number(&mut slot, 20, data.first_position);
    wire::put_number(&mut slot, 28, data.last_position);
    wire::put_number(&mut slot, 36, data.generation);
    wire::put_number(&mut slot, 44, data.next_sequence_number);
    let sum = crc::crc32(&slot[..52]);
    wire::put_number(&mut slot, 52, sum);
    slot
}

// The bytes of the slot that a commit writes. A count that fits 32 bits is taken, though above 2^31 - 1 it does not parse;
// neither the generation nor the next sequence is judged. Six numbers and no `SlotData`, as in the Rust: a count may be too long for one.
pub fn encode_v2_slot(
    file_len: u64,
    elem_cnt: u64,
    first_phys: u64,
    last_phys: u64,
    generation: u64,
    next_seq: u64,
) -> Result<[u8; 56], Refusal>
    ensures { result ≡ encode_slot file_len elem_cnt first_phys last_phys generation next_seq }
{
    judge_fields(
        0x8000_0000_0000_0000,
        0x1_0000_0000,
        file_len,
        elem_cnt,
        first_phys,
        last_phys,
    )?;
    Ok(build_slot_bytes(SlotData {
        file_length: file_len,
        element_count: elem_cnt as u32,
        first_position: first_phys,
        last_position: last_phys,
        generation,
        next_sequence_number: next_seq,
    }))
}

// Whether the fields that every file header has are below their limits: the file length and the two positions below one, the
// count below another. The first that is not gives the refusal. Four numbers, since the encoders are promised by these.
pub fn judge_fields(
    limit: u64,
    count_limit: u64,
    file_len: u64,
    elem_cnt: u64,
    first_phys: u64,
    last_phys: u64,
) -> Result<(), Refusal>
    ensures { result ≡ judge_fields limit count_limit file_len elem_cnt first_phys last_phys }
{
    if file_len >= limit {
        return Err(Refusal::FieldTooLarge { field: 1 });
    }
    if elem_cnt >= count_limit {
        return Err(Refusal::FieldTooLarge { field: 2 });
    }
    if first_phys >= limit {
        return Err(Refusal::FieldTooLarge { field: 3 });
    }
    if last_phys >= limit {
        return Err(Refusal::FieldTooLarge { field: 4 });
    }
    Ok(())
}

// What the first 56 bytes hold, where they are a slot.
pub fn parse_slot(s: &[u8]) -> Result<SlotData, Refusal>
    ensures { result ≡ parse_slot s.now }
{
    if s.len() < 56 {
        return Err(Refusal::Short);
    }
    if !wire::starts_with(s, &SLOT_START) {
        return Err(Refusal::NotASlot);
    }
    let data = read_slot(s);
    let stored: u32 = wire::get(s, 52);
    let sum = crc::crc32(&s[..52]);
    judge_slot(data, stored, sum)
}

// The fields as they stand, unjudged.
fn read_slot(s: &[u8]) -> SlotData
    ensures { result ≡ slot_at s.now }
{
    SlotData {
        file_length: wire::get(s, 8),
        element_count: wire::get(s, 16),
        first_position: wire::get(s, 20),
        last_position: wire::get(s, 28),
        generation: wire::get(s, 36),
        next_sequence_number: wire::get(s, 44),
    }
}

// In the file the fields are signed, and none is negative.
fn judge_slot(data: SlotData, stored: u32, sum: u32) -> Result<SlotData, Refusal>
    ensures { result ≡ judge_slot «data» stored sum }
{
    if data.file_length >= 0x8000_0000_0000_0000
        || data.element_count >= 0x8000_0000
        || data.first_position >= 0x8000_0000_0000_0000
        || data.last_position >= 0x8000_0000_0000_0000
        || data.generation >= 0x8000_0000_0000_0000
        || data.next_sequence_number >= 0x8000_0000_0000_0000
        || stored != sum
    {
        return Err(Refusal::NotASlot);
    }
    Ok(data)
}
