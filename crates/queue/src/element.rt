// An element as it lies in the ring: its header, its payload and its footer, each read where the ring has it.
ghost use Rattle.std.specs.Prelude.{◌≡◌, ◌≤◌, ◌<◌, length};
ghost use Rattle.wire.specs.Wire.{put_at};
ghost use Rattle.queue.specs.Element.{is_empty_element, element_here, header_at, read_header, header_in_sequence, payload_at, footer_verdict, Lies};

use format::{V2_ELEM_HDR_LEN, V2ElementHeader};
use header::V2_DATA_START;
use refusal::Refusal;

// Where an element stands in the ring, the length of its payload and its sequence.
#[derive(Clone, Copy, Debug, PartialEq, Eq)]
pub struct Element {
    pub pos: u64,
    pub len: u64,
    pub seq: u64,
}

impl Element {
    // First and last of a queue that has no elements.
    pub const EMPTY: Element = Element {
        pos: 0,
        len: 0,
        seq: 0,
    };

    #[tactic(auto, unfolding(crate::specs::Element::is_empty_element))]
    pub(crate) fn is_empty(self) -> bool
        ensures { result ≡ is_empty_element self }
    {
        self == Element::EMPTY
    }

    // The element at a place, as its header tells of it.
    pub fn here(pos: u64, header: V2ElementHeader) -> Element
        ensures { result ≡ element_here pos header }
    {
        Element {
            pos,
            len: header.payload_len,
            seq: header.seq,
        }
    }
}

// What the ring's 28 bytes at a place say. The place may lie past the ring's end: it is reduced for this reading only.
#[tactic(auto, unfolding(crate::specs::Element::header_at))]
pub(crate) fn header_at(image: &[u8], file_len: u64, pos: u64) -> Result<V2ElementHeader, Refusal>
    requires { (8192 < file_len) × (file_len ≤ length image.now) }
    ensures { result ≡ header_at image.now file_len pos }
{
    let mut bytes = [0u8; 28];
    ring::read_at(image, file_len, pos, &mut bytes).unwrap();
    format::parse_v2_element_header(&bytes, file_len - V2_DATA_START)
}

// The same of any ring, which may not be there.
#[tactic(auto, using(refusal::proofs::Laws::decide))]
pub fn validate_v2_element_header(
    image: &[u8],
    file_len: u64,
    logical_pos: u64,
) -> Result<V2ElementHeader, Refusal>
    ensures { result ≡ read_header image.now file_len logical_pos }
{
    if !ring::has_ring(V2_DATA_START, image.len() as u64, file_len) {
        return Err(Refusal::Unsound);
    }
    header_at(image, file_len, logical_pos)
}

// What they say in a ring that is there, of a header that has to have a certain sequence.
#[tactic(auto, using(refusal::proofs::Laws::decide))]
pub(crate) fn header_in_sequence(
    image: &[u8],
    file_len: u64,
    pos: u64,
    seq: u64,
) -> Result<V2ElementHeader, Refusal>
    requires { (8192 < file_len) × (file_len ≤ length image.now) }
    ensures { result ≡ header_in_sequence image.now file_len pos seq }
{
    let header = header_at(image, file_len, pos)?;
    if header.seq != seq {
        return Err(Refusal::SequenceMismatch {
            expected: seq,
            found: header.seq,
        });
    }
    Ok(header)
}

// Whether the footer behind an element's payload is its own. The payload is checked where it lies.
pub(crate) fn validate_footer(image: &[u8], file_len: u64, elem: Element) -> Result<(), Refusal>
    requires { Lies (length image.now) file_len elem }
    ensures { result ≡ footer_verdict image.now file_len elem }
{
    let payload_start = elem.pos + V2_ELEM_HDR_LEN;
    let mut footer = [0u8; 16];
    ring::read_at(image, file_len, payload_start + elem.len, &mut footer).unwrap();
    format::validate_v2_footer(
        &footer,
        elem.seq,
        ring::front_part(image, file_len, payload_start, elem.len),
        ring::wrapped_part(image, file_len, payload_start, elem.len),
    )
}

// Copies an element's payload to the front of the output, which is long enough.
pub(crate) fn read_payload(image: &[u8], file_len: u64, elem: Element, out: &mut [u8])
    requires lies { Lies (length image.now) file_len elem }
    requires len_in_bounds { elem.len ≤ length out.old }
    ensures { out.new ≡ put_at out.old 0 (payload_at image.now file_len elem) }
{
    let payload_start = elem.pos + V2_ELEM_HDR_LEN;
    ring::read_at(
        image,
        file_len,
        payload_start,
        &mut out[..elem.len as usize],
    )
    .unwrap();
}
