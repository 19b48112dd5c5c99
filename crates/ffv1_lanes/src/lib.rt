//! Whole rows of samples at once: what is coded for a row, from its samples and their predictions (RFC 9043 section 3.8),
//! a step of a dissolve between two rows, and whether two rows are the same.
#![tactic(auto)]

mod blend;
mod residual;
mod same;

pub use blend::blend_row;
pub use residual::residual_row;
pub use same::same_row;
