// The ring of bytes in which a file keeps its elements: it lies in the image from 8192 up to the file's end, and a place that passes
// its end goes on at its start.
//
// The image is lent and the file length given. Where there is no ring, since not 8192 < file length <= image length, every call but
// `relocate` answers `Unsound`. The definitions take the place where a ring starts as a parameter; the private workers are lent the ring,
// which they ask not to be empty: a slice that is known not to be would be made at each call, and taken once.
// No struct holds image and length together: the specification wants functions on slice and place, and one reader that holds a reference.
// Each definition that an answer equals is a list of demands: `pass` and `stop` say what it is past one that is met, and at one that is not.
#![tactic(auto, using(refusal::proofs::Laws::pass, refusal::proofs::Laws::stop, std::proofs::lemmas::Bool::Decides::nat_tests))]

mod parts;
mod place;
mod read;
mod relocation;
mod write;

pub use parts::{Parts, front_part, split, wrapped_part};
pub use place::{add, distance, has_ring};
pub use read::read_at;
pub use relocation::relocate;
pub use write::{erase_at, write_at};
