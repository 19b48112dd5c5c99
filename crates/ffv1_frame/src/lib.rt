//! One frame of FFV1 version 3: its slices, and its picture. RFC 9043 sections 4.4 to 4.9.
#![tactic(auto)]

mod chain;
mod cover;
mod decode;
mod decode_range;
mod decode_rice;
mod encode;
mod encode_range;
mod encode_rice;
mod fault;
mod frame;
mod law;
mod samples;
mod written;

pub use decode::decode_frame;
pub use encode::encode_frame;
pub use fault::DecodeFault;
pub use law::one_decoding;
pub use written::{writes_one_packet, written_is_read_back};
