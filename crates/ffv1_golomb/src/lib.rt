//! The samples of one slice of a frame in Golomb-Rice mode, both ways: RFC 9043 sections 3.8.2, 4.7 and 4.8.
#![tactic(auto)]

mod law;
mod read_part;
mod read_plane;
mod read_row;
mod read_slice;
mod scratch;
mod write_part;
mod write_plane;
mod write_row;

pub use law::{finds_bits, packs_bits, reads_slices};
pub use read_slice::decode_rice_slice;
pub use scratch::RiceScratch;
pub use write_part::encode_rice_slice;
