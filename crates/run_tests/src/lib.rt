//! Tests of the top call over objects in memory: whole scripts, with what each part of the outside got.
#![tactic(auto)]

#[cfg(test)]
mod courses;
#[cfg(test)]
mod failing;
#[cfg(test)]
mod made;
#[cfg(test)]
mod running;
#[cfg(test)]
mod words;
