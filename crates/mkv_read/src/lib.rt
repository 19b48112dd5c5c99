//! Reads Matroska files (RFC 9559): where the configuration record and the packets of their FFV1 track lie.
#![tactic(auto)]

mod block;
mod clip;
mod element;
mod fault;
mod file;
mod laws;
mod track;
mod visit;

pub use clip::{ClipIndex, MAX_FRAMES, MAX_PRIVATE, MAX_SIDE, Place, Places};
pub use fault::{ClipFault, Which};
pub use file::read_clip;
pub use laws::{depth_is_enough, elements_are_listed, one_clip, plain_is_whole};
