// What a format says of the file and of its elements.
ghost use Rattle.std.specs.Prelude.{◌≡◌};
ghost use Rattle.format.specs.FormatState.{data_start, elem_hdr_len, overhead, elem_span, next_seq, with_next_seq};

use crate::element::{V2_ELEM_HDR_LEN, V2_ELEM_OVERHEAD};
use header::{HeaderSlot, V2_DATA_START};
use refusal::Refusal;

// The state of a V2 file's header: the slot that holds, its generation, and the sequence that the next element gets.
#[derive(Clone, Copy, Debug, PartialEq, Eq)]
pub struct V2Format {
    pub active_slot: HeaderSlot,
    pub generation: u64,
    pub next_seq: u64,
}

#[derive(Clone, Copy, Debug, PartialEq, Eq)]
pub enum FormatState {
    Legacy,
    V1,
    V2(V2Format),
}

impl FormatState {
    // Where the ring of elements starts in the file.
    pub fn data_start(self) -> u64
        ensures { result ≡ data_start self }
    {
        match self {
            FormatState::Legacy => 16,
            FormatState::V1 => 32,
            FormatState::V2(_) => V2_DATA_START,
        }
    }

    // How many bytes stand before an element's payload.
    pub fn elem_hdr_len(self) -> u64
        ensures { result ≡ elem_hdr_len self }
    {
        match self {
            FormatState::Legacy | FormatState::V1 => 4,
            FormatState::V2(_) => V2_ELEM_HDR_LEN,
        }
    }

    // How many bytes an element with a payload of that length takes.
    pub fn elem_span(self, payload_len: u64) -> Result<u64, Refusal>
        ensures { result ≡ elem_span self payload_len }
    {
        payload_len
            .checked_add(self.overhead())
            .ok_or(Refusal::Overflow)
    }

    fn overhead(self) -> u64
        ensures { result ≡ overhead self }
    {
        match self {
            FormatState::Legacy | FormatState::V1 => 4,
            FormatState::V2(_) => V2_ELEM_OVERHEAD,
        }
    }

    // The sequence that the next element gets, or 0 where elements have none, as this function has always promised.
    pub fn next_seq(self) -> u64
        ensures { result ≡ next_seq self }
    {
        match self {
            FormatState::Legacy | FormatState::V1 => 0,
            FormatState::V2(f) => f.next_seq,
        }
    }

    // The format with another next sequence, where elements have one.
    pub fn with_next_seq(self, seq: u64) -> Self
        ensures { result ≡ with_next_seq self seq }
    {
        match self {
            FormatState::V2(f) => FormatState::V2(V2Format { next_seq: seq, ..f }),
            other => other,
        }
    }
}
