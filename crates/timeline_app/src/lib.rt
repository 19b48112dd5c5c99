//! The top call of the editor: it reads the words of a command line, loads the clips of a script, and plays it.
#![tactic(auto)]

mod early;
mod ending;
mod head_lines;
mod made;
mod opening;
mod outcome;
mod play;
mod session;
mod together;
mod top;
mod way;
mod words;

pub use made::made_store;
pub use outcome::Outcome;
pub use session::HeadStop;
pub use top::{run, run_alone};
pub use words::{Asked, made_frames, read_words, wants_threads};
