//! Tests of the container: elements, clips that are read, and files that are written, each through the public calls of its crate.
#![tactic(auto)]

#[cfg(test)]
mod clips;
#[cfg(test)]
mod elements;
#[cfg(test)]
mod writer;
