//! The range coder of FFV1 version 3, both ways: RFC 9043 section 3.8.1.
//!
//! A bit is coded with a state from 1 to 255, which a state transition table then moves. A symbol is a number as bits, each
//! with one of a set's 32 states.
#![tactic(auto)]

mod cursor;
mod law;
mod read_bit;
mod read_symbol;
mod reader;
mod states;
mod transition;
mod writer;

pub use law::{
    clone_and_eq_are_exact, codes_in_turn, default_is_standard, no_prefix, reads_closed_mode,
    reads_sentinel_mode, reads_symbols,
};
pub use reader::{RangeReader, TooLong};
pub use states::States;
pub use transition::{DEFAULT_TRANSITION, Transition};
pub use writer::RangeWriter;
