//! Why a configuration record can't be read.
ghost use Rattle.std.specs.Prelude.{◌≡◌};
ghost use Rattle.ffv1_record.specs.declared.fault.RecordFault.TheVariants.{Symbol, NoMemory};

use ffv1_range::TooLong;
use std::alloc::{AllocError, AllocFailed};

/// What is wrong with a record: the first fault in the order of its fields.
#[derive(Clone, Copy, Debug, PartialEq, Eq, Hash)]
pub enum RecordFault {
    /// The record has fewer than 6 bytes.
    Short,
    /// The last four bytes aren't the parity of those before.
    Parity,
    /// A symbol's exponent is over 31.
    Symbol,
    /// The version isn't 3.
    Version,
    /// The micro version isn't 4.
    Micro,
    /// The coder type is over 2.
    Coder,
    /// A delta gives a state that isn't 1 to 255.
    Transition,
    /// The color space isn't YCbCr.
    Color,
    /// The samples don't have 8 bits.
    Depth,
    /// A shift of the chroma planes is over 2.
    Subsample,
    /// There is an extra plane.
    ExtraPlane,
    /// The grid has over 1,024 slices.
    Slices,
    /// There are no table sets or over 8, a run passes entry 127 of its table, or a scale is over 32,768.
    Tables,
    /// A table set has initial states of its own.
    InitialStates,
    /// Error correction is neither 0 nor 1.
    Ec,
    /// Memory was wanting.
    NoMemory,
}

impl From<AllocError> for RecordFault {
    ghost from_gives = { λ _ e. e ≡ NoMemory };

    fn from(_e: AllocError) -> RecordFault {
        RecordFault::NoMemory
    }
}

impl<T: Drop> From<AllocFailed<T>> for RecordFault {
    ghost from_gives = { λ _ e. e ≡ NoMemory };

    fn from(_e: AllocFailed<T>) -> RecordFault {
        RecordFault::NoMemory
    }
}

impl From<TooLong> for RecordFault {
    ghost from_gives = { λ _ e. e ≡ Symbol };

    fn from(_e: TooLong) -> RecordFault {
        RecordFault::Symbol
    }
}
