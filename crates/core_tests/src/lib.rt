//! Tests of the editing core through its public calls: tables with a line a call, which says what the call is told.
#![tactic(auto)]

#[cfg(test)]
mod courses;
#[cfg(test)]
mod edits;
#[cfg(test)]
mod exporting;
#[cfg(test)]
mod holding;
#[cfg(test)]
mod jobs;
#[cfg(test)]
mod lanes;
#[cfg(test)]
mod owed;
#[cfg(test)]
mod printing;
#[cfg(test)]
mod random;
#[cfg(test)]
mod random_calls;
#[cfg(test)]
mod reading;
#[cfg(test)]
mod session;
#[cfg(test)]
mod wanting;
