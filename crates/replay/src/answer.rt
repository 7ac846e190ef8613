// What an operation answers: what it tells, or why it does nothing. It is a value, so that no operation prints, and one function prints
// them all.
use format::{QueueMetadata, V2ElementHeader, V2OpenState};
use header::SlotData;
use queue::{Element, Part, QueueFile, Step};
use refusal::Refusal;

pub type Answer = Result<Told, Fault>;

// Why an operation does nothing: the error of an answer.
#[derive(Clone, Copy, Debug, PartialEq, Eq)]
pub enum Fault {
    // The line is no operation.
    Bad,
    Refused(Refusal),
}

impl From<Refusal> for Fault {
    fn from(refusal: Refusal) -> Fault {
        Fault::Refused(refusal)
    }
}

// What an operation tells that is done.
#[derive(Clone, Copy, Debug, PartialEq, Eq)]
pub enum Told {
    Nothing,
    // The queue has no element.
    Empty,
    // The iteration has no next element.
    End,
    // A place, a distance or a number of bytes.
    Number(u64),
    Checksum(u32),
    // Length and checksum of a payload.
    Payload(u64, u32),
    Place(Part),
    Head(Element),
    Slot(SlotData),
    Elected(V2OpenState),
    Header(V2ElementHeader),
    FileHeader(QueueMetadata),
    // What was encoded, as the encoder gives it: arrays of different lengths are different types, and a room for the longest would have to
    // be filled for each.
    SlotBytes([u8; 56]),
    HeaderBytes([u8; 28]),
    FooterBytes([u8; 16]),
    LegacyBytes([u8; 16]),
    V1Bytes([u8; 32]),
    // So many bytes, which were put in the output: what is told lends nothing.
    Output(usize),
    // An element, whose payload was put in the output.
    Step(Step),
    // All elements of a queue, which are read as they are printed.
    Elements(QueueFile),
}
