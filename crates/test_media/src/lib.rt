//! Libraries of clips for tests: their pictures are numbers, so that a test sees which frame it was given.
#![tactic(auto)]

mod blanks;
mod numbers;

pub use blanks::Blanks;
pub use numbers::Numbers;
