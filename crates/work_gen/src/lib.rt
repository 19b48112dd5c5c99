//! A script and a clip made from a number, for a first try of the editor.
#![tactic(auto)]

mod clip;
mod frames;
mod make;
mod pictures;
mod script;

pub use make::{Generated, generate};

#[cfg(test)]
mod tests;
