// An element of a V2 queue: a header of 28 bytes, the payload, a footer of 16.
// The bytes are laid out in specs/Element.antt, as docs/FORMAT.md has them.
ghost use Rattle.std.specs.Prelude.{◌≡◌, ◌++◌};
ghost use Rattle.format.specs.Element.{header_bytes, encode_header, judge_header, parse_header, footer_bytes, check_footer};

use refusal::Refusal;

// The bytes that a header begins with, and those of a footer.
const V2_ELEM_HDR_MAGIC: [u8; 4] = *b"ITHD";

const V2_ELEM_FTR_MAGIC: [u8; 4] = *b"ITFT";

// The bytes of an element before its payload.
pub const V2_ELEM_HDR_LEN: u64 = 28;

// The bytes of an element beside its payload: header and footer.
pub const V2_ELEM_OVERHEAD: u64 = 44;

// What a header says of its element. The position of the element before is an offset in the file, or 0.
#[derive(Clone, Copy, Debug, PartialEq, Eq)]
pub struct V2ElementHeader {
    pub payload_len: u64,
    pub seq: u64,
    pub prev_pos: u64,
}

// The header of a payload of that length. The sequence is not judged: 0 is written, and does not parse.
pub fn encode_v2_element_header(
    seq: u64,
    prev_phys: u64,
    payload_len: u64,
) -> Result<[u8; 28], Refusal>
    ensures { result ≡ encode_header seq prev_phys payload_len }
{
    if payload_len >= 0x8000_0000 {
        return Err(Refusal::ElementTooBig);
    }
    Ok(header_bytes(seq, prev_phys, payload_len as u32))
}

fn header_bytes(seq: u64, prev_phys: u64, len: u32) -> [u8; 28]
    ensures { result ≡ header_bytes seq prev_phys len }
{
    let mut hdr = [0u8; 28];
    wire::put(&mut hdr, 0, &V2_ELEM_HDR_MAGIC);
    wire::put_number(&mut hdr, 4, seq);
    wire::put_number(&mut hdr, 12, prev_phys);
    wire::put_number(&mut hdr, 20, len);
    let sum = crc::crc32(&hdr[..24]);
    wire::put_number(&mut hdr, 24, sum);
    hdr
}

// What the first 28 bytes say, where they are the header of an element that a ring of that capacity can hold.
pub fn parse_v2_element_header(s: &[u8], capacity: u64) -> Result<V2ElementHeader, Refusal>
    ensures { result ≡ parse_header s.now capacity }
{
    if s.len() < 28 {
        return Err(Refusal::Short);
    }
    if !wire::starts_with(s, &V2_ELEM_HDR_MAGIC) {
        return Err(Refusal::HeaderMagic);
    }
    let read = V2ElementHeader {
        payload_len: wire::get::<u32, _>(s, 20) as u64,
        seq: wire::get(s, 4),
        prev_pos: wire::get(s, 12),
    };
    let stored: u32 = wire::get(s, 24);
    let sum = crc::crc32(&s[..24]);
    judge_header(read, stored, sum, capacity)
}

// A header's length is an i32 in the file, and not negative.
fn judge_header(
    read: V2ElementHeader,
    stored: u32,
    sum: u32,
    capacity: u64,
) -> Result<V2ElementHeader, Refusal>
    ensures { result ≡ judge_header read.seq read.prev_pos read.payload_len stored sum capacity }
{
    if read.payload_len >= 0x8000_0000 {
        return Err(Refusal::HeaderLength);
    }
    if read.seq == 0 {
        return Err(Refusal::HeaderSequence);
    }
    if stored != sum {
        return Err(Refusal::HeaderCrc);
    }
    if read.payload_len + V2_ELEM_OVERHEAD > capacity {
        return Err(Refusal::HeaderSpan);
    }
    Ok(read)
}

// The footer of that payload.
pub fn encode_v2_footer(seq: u64, payload: &[u8]) -> [u8; 16]
    ensures { result ≡ footer_bytes seq payload.now }
{
    let mut ftr = [0u8; 16];
    wire::put(&mut ftr, 0, &V2_ELEM_FTR_MAGIC);
    wire::put_number(&mut ftr, 4, seq);
    let sum = crc::crc32_joined(payload, &ftr[..12]);
    wire::put_number(&mut ftr, 12, sum);
    ftr
}

// Whether the first 16 bytes of s are the footer of that payload, which comes in two parts, since the ring may cut it in two.
pub fn validate_v2_footer(s: &[u8], seq: u64, payload: &[u8], rest: &[u8]) -> Result<(), Refusal>
    ensures { result ≡ check_footer s.now seq (payload.now ++ rest.now) }
{
    if s.len() < 16 {
        return Err(Refusal::Short);
    }
    if !wire::starts_with(s, &V2_ELEM_FTR_MAGIC) {
        return Err(Refusal::FooterMagic);
    }
    if wire::get::<u64, _>(s, 4) != seq {
        return Err(Refusal::FooterSequence);
    }
    let stored: u32 = wire::get(s, 12);
    let sum = crc::crc32_of_three(payload, rest, &s[..12]);
    if stored != sum {
        return Err(Refusal::FooterCrc);
    }
    Ok(())
}
