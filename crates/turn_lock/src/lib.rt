//! One value behind a turn without a lock: a word that tells how many entries the value's list has and whether the turn
//! is taken, and passes, each with what its holder has seen of the list.
#![tactic(auto)]

mod journaled;
mod pass;
mod plays;
mod turn;
mod view;

pub use journaled::Journaled;
pub use pass::{Entered, Held, Note, Pass};
pub use turn::Turn;

#[cfg(test)]
mod tests;
