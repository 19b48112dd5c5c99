//! Lines, words, numbers and timecodes of the two text languages: scripts and edit lists.
#![tactic(auto)]

mod blanks;
mod laws;
mod lines;
mod numbers;
mod timecodes;

pub use blanks::{Blanks, is_text, text, trim, words};
pub use laws::{
    lines_are_few, lines_read_back, numbers_read_back, timecodes_read_back, words_read_back,
};
pub use lines::next_line;
pub use numbers::{number, put_number, signed_number};
pub use timecodes::{put_timecode, timecode};

#[cfg(test)]
mod tests;
