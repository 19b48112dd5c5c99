//! Tests of the texts: edit lists, their segments, scripts and lines of output, each through the public calls of its crate.
#![tactic(auto)]

#[cfg(test)]
mod lists;
#[cfg(test)]
mod scripts;
#[cfg(test)]
mod segments;
