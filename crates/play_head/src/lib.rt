//! Playing a script as one caller of an editing core, over any desk.
//!
//! `roll` has the calls that play a range of frames, `work` the turns of work that a caller does itself, `calls` the calls that
//! ask the desk one thing, each with its line, `told` the line of each reply, `say` the putting of lines and pictures,
//! `stop` what stops a script before its end, and `exports` the exports that are left.
#![tactic(auto)]

mod body;
mod calls;
mod edits;
mod ending;
mod exports;
mod halt;
mod lines;
mod lists;
mod pictures;
mod roll;
mod rolling;
mod say;
mod stop;
mod told;
mod work;
mod working;

pub use body::{play_body, play_script};
pub use edits::clip_number;
pub use ending::{Playback, store_word};
pub use exports::{carry, finish_exports};
pub use halt::Halt;
pub use roll::Roll;
pub use say::say as say_line;
pub use stop::Stop;
pub use told::fault_word;
