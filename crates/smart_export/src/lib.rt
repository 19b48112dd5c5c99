//! Writes a timeline as one file: a frame that a clip shows as it is keeps the clip's own packet, and any other is coded.
//!
//! `frame` gives the writer the packet of one frame, `sequence` goes through the timeline, and `stop` says what keeps a
//! frame from being written. What the file then is stands in specs/Ends, and which packet a frame has in specs/Rendered.
#![tactic(auto)]

mod frame;
mod sequence;
mod stop;

pub use sequence::export;

#[cfg(test)]
mod tests;
