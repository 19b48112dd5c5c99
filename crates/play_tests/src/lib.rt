//! Tests of the player: scripts that are played and exports that are carried out over a desk alone, through public calls.
#![tactic(auto)]

#[cfg(test)]
mod blacks;
#[cfg(test)]
mod carrying;
#[cfg(test)]
mod playing;
