// The queue's writing side: a fresh image, commit, add, remove, clear and growth. Each takes the state and the image that the caller
// lends, and answers the state after it, or why there is none: then the image is as it was.
//
// Functions take the image and the file length beside each other, as in `queue`; where one takes a `SoundQueue` beside the image, it
// asks that the image is as long as the one that the state was judged over, since the type knows a number and not the image.
//
// An operation judges first and stores then: what judges takes the image to read, and what stores asks for what was judged.
#![tactic(auto)]

mod adding;
mod clearing;
mod committing;
mod expanded_len;
mod expansion;
mod fresh_image;
mod growth;
mod removal;

pub use adding::{add, judge_add};
pub use clearing::clear;
pub use committing::commit;
pub use expanded_len::compute_expanded_len;
pub use expansion::expand_if_necessary;
pub use fresh_image::fresh;
pub use removal::remove_n;
