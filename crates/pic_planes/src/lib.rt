//! Pictures with planes of 8-bit samples, and their shapes.
#![tactic(auto)]

mod grid;
mod law;
mod picture;
mod shape;
mod shift;

pub use grid::reaches_ends;
pub use law::clone_and_eq_are_exact;
pub use picture::Picture;
pub use shape::{Chroma, Shape};
pub use shift::{shifted_down, shifted_up};
