//! The library of clips: files are loaded onto a shelf, each under a name of its own.
//!
//! `shelf` keeps the clips that were loaded, `clip` reads one from its file, and `fault` says why a file isn't loaded. What a
//! file gives stands in specs/Clip, and what a load does in specs/Loading.
#![tactic(auto)]

mod clip;
mod dissolve;
mod fault;
mod format;
mod library;
mod shapes;
mod shelf;

pub use fault::LoadFault;
pub use format::Format;
pub use library::Library;
pub use shelf::Shelf;

#[cfg(test)]
mod tests;
