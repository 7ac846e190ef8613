// The formats of a queue file: an element's header and footer, the file headers that came before V2, what each format says
// of its elements, and which of two header slots holds.
// Each definition that an answer equals is a list of demands: `pass` and `stop` say what it is past one that is met, and at one that is not.
#![tactic(auto, using(refusal::proofs::Laws::pass, refusal::proofs::Laws::stop, std::proofs::lemmas::Bool::Decides::nat_tests))]

mod element;
mod file_header;
mod slots;
mod state;

pub use element::{
    V2_ELEM_HDR_LEN, V2_ELEM_OVERHEAD, V2ElementHeader, encode_v2_element_header, encode_v2_footer,
    parse_v2_element_header, validate_v2_footer,
};
pub use file_header::{
    QueueMetadata, encode_legacy_header, encode_v1_header, parse_legacy_header,
    parse_versioned_header,
};
pub use slots::{V2OpenState, elect_canonical_slot, validate_v2_slot_data};
pub use state::{FormatState, V2Format};
