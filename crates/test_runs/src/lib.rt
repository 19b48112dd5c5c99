//! Scripts, clips and words for tests of the top calls, the outside that they run over in memory, and how their runs are to end.
#![tactic(auto)]

mod clips;
mod courses;
mod exported;
mod failing;
mod lists;
mod made;
mod outside;
mod words;

pub use clips::{GREY, PACKET, RECORD_LEN, WHOLE, grey};
pub use courses::{COURSES, PLAYED};
pub use exported::is_whole;
pub use failing::FAILING;
pub use lists::LISTS;
pub use made::{MADE, Made};
pub use outside::{Ended, Failing, NONE_FAILS, Outside};
pub use words::{WORDS, words_of};
