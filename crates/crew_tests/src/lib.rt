//! Tests of the top call with threads, over objects in memory.
#![tactic(auto)]

#[cfg(test)]
mod alike;
#[cfg(test)]
mod beside;
#[cfg(test)]
mod clean;
#[cfg(test)]
mod gate;
#[cfg(test)]
mod ordered;
#[cfg(test)]
mod running;
