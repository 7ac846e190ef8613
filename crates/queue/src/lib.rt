// The queue of a V2 file: its state, which is a value, and what is done with it over a byte image that the caller lends.
//
// The real length is the file's and stands in the state; the image may be longer. Where a state is not sound over its image, every
// call that reads the image by it answers `Unsound`, and `peek_part` lends no bytes.
//
// Functions take the image and the file length beside each other, and an inner one asks that the ring lies in the image: the specification
// wants functions on slice and place, and `Iter` alone as what holds a reference. A type for a place that is below the capacity, for an
// element that lies in the ring or for a length below 2^63 would be no plainer: each is made anew at every step, and taken once.
#![tactic(auto)]

mod element;
mod iter;
mod opening;
mod peek;
mod places;
mod recover;
mod sound_queue;
mod state;
mod strict;

pub use element::{Element, validate_v2_element_header};
pub use iter::{Cursor, Iter, Next, Step};
pub use opening::open;
pub use peek::Part;
pub use places::to_logical;
pub use recover::recover_v2_head;
pub use sound_queue::SoundQueue;
pub use state::{QueueFile, Settings};
pub use strict::open_strict;
