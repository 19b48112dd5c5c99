//! One slice of a frame, both ways: its header, its rectangles in the planes, and its samples. RFC 9043 sections 4.5 to 4.8.
#![tactic(auto)]

mod area;
mod cells;
mod encode_part;
mod encode_plane;
mod encode_row;
mod fault;
mod header;
mod header_writer;
mod range_part;
mod range_plane;
mod range_row;
mod range_slice;
mod scratch;

pub use area::{Area, Areas};
pub use encode_part::encode_slice;
pub use encode_plane::first_samples;
pub use fault::{HeaderFault, SliceFault};
pub use header::{Grid, Header, read_header};
pub use header_writer::write_header;
pub use range_slice::{Quantization, decode_slice};
pub use scratch::Scratch;
