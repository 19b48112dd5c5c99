//! Golomb-Rice mode of FFV1 version 3, both ways: RFC 9043 section 3.8.2.
//!
//! A sample difference is coded as a number by a state of its context, or lies in a run of differences 0.
#![tactic(auto)]

mod code;
mod law;
mod lines;
mod reader;
mod runs;
mod state;
mod writer;

pub use law::{parameter_is_least, reads_differences, reads_lines, steps_are_samples};
pub use lines::RunWriter;
pub use reader::BitReader;
pub use runs::{Mode, RunReader, Step, raise};
pub use state::{OutOfRange, VlcState};
pub use writer::BitWriter;
