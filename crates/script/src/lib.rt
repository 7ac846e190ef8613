// What a line of a replay script is made of: where it ends, its words, and the numbers and byte strings that words spell.
// Every function answers for every input, and its contract cites the definition of specs/ that says which answer is right.
#![tactic(auto)]

mod decimal;
mod digit;
mod hex;
mod line;

pub use decimal::parse_number;
pub use hex::parse_bytes;
pub use line::{count_words, line_end, word};
