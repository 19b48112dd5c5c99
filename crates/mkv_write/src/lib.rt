//! Writes FFV1 packets as a Matroska file, one Cluster at a time.
#![tactic(auto)]

mod cluster;
mod cue;
mod element;
mod fault;
mod head;
mod history;
mod law;
mod put;
mod writer;

pub use fault::WriteFault;
pub use law::written_is_read_back;
pub use writer::{MkvWriter, put_is_prefix};
