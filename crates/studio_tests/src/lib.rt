//! Tests of the studio through its public calls.
#![tactic(auto)]

#[cfg(test)]
mod caller;
#[cfg(test)]
mod dice;
#[cfg(test)]
mod doing;
#[cfg(test)]
mod judging;
#[cfg(test)]
mod line;
#[cfg(test)]
mod machine;
#[cfg(test)]
mod passes;
#[cfg(test)]
mod threads;
