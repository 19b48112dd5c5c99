//! Why a packet can't be decoded.
ghost use Rattle.std.specs.Prelude.{◌≡◌};
ghost use Rattle.ffv1_frame.specs.declared.fault.DecodeFault.TheVariants.{NoMemory};

use std::alloc::{AllocError, AllocFailed};
use tl_model::FrameFault;

/// What is wrong with a packet: the first fault in the order of `FrameFault`, or want of memory.
#[derive(Clone, Copy, Debug, PartialEq, Eq)]
pub enum DecodeFault {
    /// The packet has a fault.
    Frame(FrameFault),
    /// Memory was wanting.
    NoMemory,
}

impl From<AllocError> for DecodeFault {
    ghost from_gives = { λ _ e. e ≡ NoMemory };

    fn from(_e: AllocError) -> DecodeFault {
        DecodeFault::NoMemory
    }
}

impl<T: Drop> From<AllocFailed<T>> for DecodeFault {
    ghost from_gives = { λ _ e. e ≡ NoMemory };

    fn from(_e: AllocFailed<T>) -> DecodeFault {
        DecodeFault::NoMemory
    }
}
