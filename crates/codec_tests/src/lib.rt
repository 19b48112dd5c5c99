//! Tests of the codec: pictures, coded bits, rows, slices and frames, each through the public calls of its crate.
#![tactic(auto)]

#[cfg(test)]
mod frames;
#[cfg(test)]
mod golomb;
#[cfg(test)]
mod lanes;
#[cfg(test)]
mod planes;
#[cfg(test)]
mod prediction;
#[cfg(test)]
mod range;
#[cfg(test)]
mod rice;
#[cfg(test)]
mod slices;
