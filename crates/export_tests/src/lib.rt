//! Tests of what is loaded and exported where something is wrong: damaged packets, faulty records, clips that differ, vaults that fail.
#![tactic(auto)]

#[cfg(test)]
mod clips;
#[cfg(test)]
mod damaged;
#[cfg(test)]
mod dissolved;
#[cfg(test)]
mod exporting;
#[cfg(test)]
mod failing;
#[cfg(test)]
mod loads;
#[cfg(test)]
mod tables;
#[cfg(test)]
mod worked;
