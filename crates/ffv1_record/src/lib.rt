//! The configuration record of FFV1 version 3, both ways: RFC 9043 sections 4.1 to 4.3.
//!
//! A record is read from the private data of a clip and says how the frames of the clip are coded: the coder and its state
//! transition table, the chroma planes, the grid of slices, and the quantization tables.
#![tactic(auto)]

mod default;
mod entries;
mod fault;
mod field_reader;
mod field_writer;
mod law;
mod record;
mod table_reader;
mod tables;

pub use default::default_record;
pub use entries::Tables;
pub use fault::RecordFault;
pub use law::{clone_and_eq_are_exact, record_reads_back};
pub use record::{Coder, Record};
pub use tables::TableSet;

#[cfg(test)]
mod tests;
