//! The segments of an edit list: each event finds its clip and its place, and what lies between them is black.
#![tactic(auto)]

mod building;
mod known;
mod order;
mod part;

pub use building::build;
