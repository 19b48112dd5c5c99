//! What stops an export.

ghost use Rattle.std.specs.Prelude.{◌≡◌};
ghost use Rattle.smart_export.specs.declared.stop.Stop.TheVariants.{NoMemory};
ghost use Rattle.smart_export.specs.Stop.{CodesTo, WritesTo, ending_at};

use mkv_write::WriteFault;
use std::alloc::AllocError;
use tl_model::{EncodeFault, Ending, RenderFault};

/// Why a frame wasn't written.
#[derive(Clone, Copy, Debug, PartialEq, Eq)]
pub(crate) enum Stop {
    /// It couldn't be rendered.
    Fault(RenderFault),
    /// Its packet is too long.
    TooLong,
    /// The vault failed.
    Sink,
    /// Memory ran out.
    NoMemory,
}

impl Stop {
    /// How the export ends that stops at the frame of that place.
    pub(crate) fn ending_at(self, at: u32) -> Ending
        ensures { result ≡ ending_at self at }
    {
        match self {
            Stop::Fault(fault) => Ending::ClipFault { at, fault },
            Stop::TooLong => Ending::SliceTooLong { at },
            Stop::Sink => Ending::Sink,
            Stop::NoMemory => Ending::NoMemory,
        }
    }
}

impl From<AllocError> for Stop {
    ghost from_gives = { λ _ stop. stop ≡ NoMemory };

    fn from(_error: AllocError) -> Stop {
        Stop::NoMemory
    }
}

impl From<EncodeFault> for Stop {
    ghost from_gives = { CodesTo };

    fn from(fault: EncodeFault) -> Stop {
        match fault {
            EncodeFault::SliceTooLong => Stop::TooLong,
            EncodeFault::NoMemory => Stop::NoMemory,
        }
    }
}

impl From<WriteFault> for Stop {
    ghost from_gives = { WritesTo };

    fn from(fault: WriteFault) -> Stop {
        match fault {
            WriteFault::Sink => Stop::Sink,
            WriteFault::NoMemory => Stop::NoMemory,
        }
    }
}
