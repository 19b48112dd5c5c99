//! The calls of one caller on an editing core, as a trait, and the caller of a board of its own.
#![tactic(auto)]

mod alone;
mod desk;

pub use alone::{Alone, answer_show};
pub use desk::Desk;

#[cfg(test)]
mod tests;
