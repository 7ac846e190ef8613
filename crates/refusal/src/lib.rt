// Refusals: why a call does not do what it is asked. A call that can refuse answers a `Result` whose error is one of these, and the table in
// docs/REFUSALS.md has a number and two values for each.
//
// The numbers stand here and, in specs/Table.antt, as what is promised of them; nowhere else does a number stand for a refusal.
#![tactic(auto)]

ghost use Rattle.std.specs.Prelude.{◌≡◌};
ghost use Rattle.refusal.specs.Table.{number_of, values_of};

#[derive(Clone, Copy, Debug, PartialEq, Eq)]
pub enum Refusal {
    // Bytes that are too few for the layout they are to hold.
    Short,

    // An element's header.
    HeaderMagic,
    HeaderLength,
    HeaderSequence,
    HeaderCrc,
    HeaderSpan,

    // An element's footer.
    FooterMagic,
    FooterSequence,
    FooterCrc,

    // The header slots, and what the elected one says.
    NoSlot,
    SlotLength,
    SlotTruncated,
    SlotSequence,
    EmptyPointer,
    ZeroPointer,
    PointerBounds,

    // An element has another sequence than the one that its place asks for.
    SequenceMismatch { expected: u64, found: u64 },

    // Recovery of the head from the tail.
    BacklinkZero,
    BacklinkLow,
    RecoveryEmpty,
    RecoverySequence,

    // A field of a file header or a slot does not fit: 1 file length, 2 count, 3 first, 4 last. A number and no enum of four: `values`
    // gives back any number that it was made with.
    FieldTooLarge { field: u64 },

    // A versioned file header has another version than 1.
    UnsupportedVersion { version: u64 },

    // Limits of the format, of the lent buffer and of the numbers.
    ElementTooBig,
    TooManyElements,
    BufferTooSmall,
    Overflow,

    // A state, a file length or a place that no operation can work on.
    Unsound,

    // The caller's output has no room for the payload.
    OutputTooSmall,

    // A commit would take the generation or the next sequence past its limit.
    Exhausted,

    // Bytes that are no slot; an element that does not link to the one before; a payload in two pieces.
    NotASlot,
    BrokenLink,
    CrossesEnd,
}

impl Refusal {
    // The table's number.
    pub fn number(self) -> u32
        ensures { result ≡ number_of self }
    {
        match self {
            Refusal::Short => 1,
            Refusal::HeaderMagic => 2,
            Refusal::HeaderLength => 3,
            Refusal::HeaderSequence => 4,
            Refusal::HeaderCrc => 5,
            Refusal::HeaderSpan => 6,
            Refusal::FooterMagic => 7,
            Refusal::FooterSequence => 8,
            Refusal::FooterCrc => 9,
            Refusal::NoSlot => 10,
            Refusal::SlotLength => 11,
            Refusal::SlotTruncated => 12,
            Refusal::SlotSequence => 13,
            Refusal::EmptyPointer => 14,
            Refusal::ZeroPointer => 15,
            Refusal::PointerBounds => 16,
            Refusal::SequenceMismatch { .. } => 17,
            Refusal::BacklinkZero => 18,
            Refusal::BacklinkLow => 19,
            Refusal::RecoveryEmpty => 20,
            Refusal::RecoverySequence => 21,
            Refusal::FieldTooLarge { .. } => 22,
            Refusal::UnsupportedVersion { .. } => 23,
            Refusal::ElementTooBig => 24,
            Refusal::TooManyElements => 25,
            Refusal::BufferTooSmall => 26,
            Refusal::Overflow => 27,
            Refusal::Unsound => 28,
            Refusal::OutputTooSmall => 29,
            Refusal::Exhausted => 30,
            Refusal::NotASlot => 31,
            Refusal::BrokenLink => 32,
            Refusal::CrossesEnd => 33,
        }
    }

    // The table's two values, which are 0 and 0 but for the numbers 17, 22 and 23.
    pub fn values(self) -> (u64, u64)
        ensures { result ≡ values_of self }
    {
        match self {
            Refusal::SequenceMismatch { expected, found } => (expected, found),
            Refusal::FieldTooLarge { field } => (field, 0),
            Refusal::UnsupportedVersion { version } => (version, 0),
            _ => (0, 0),
        }
    }
}
