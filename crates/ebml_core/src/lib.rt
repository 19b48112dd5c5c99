//! Elements of EBML (RFC 8794): their ids and sizes, and a walk over them that takes no memory.
#![tactic(auto)]

mod element;
mod laws;
mod number;
mod vint;
mod walker;

pub use element::{EbmlFault, EbmlWhy, Element};
pub use laws::{known_is_spelled, one_end, one_listing, one_reading};
pub use number::unsigned;
pub use vint::{Size, VintFault, vint_id, vint_size};
pub use walker::Walker;
