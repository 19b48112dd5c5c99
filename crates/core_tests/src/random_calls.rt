//! Random calls with their answers.

mod one;
mod six;
mod tight;
mod two;

pub use one::ONE;
pub use six::SIX;
pub use tight::TIGHT;
pub use two::TWO;
