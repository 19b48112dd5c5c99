//! The prediction of a sample and its context, from the samples around it. RFC 9043 sections 3.1 to 3.5.
//!
//! A slice's plane is coded row by row. A row needs the two rows above it; what a sample needs of its own row goes along.
#![tactic(auto)]

mod flat;
mod law;
mod left;
mod near;

pub use flat::are_near;
pub use law::coded_is_restored;
pub use left::Left;
pub use near::Near;
