//! Why a file wasn't written.

ghost use Rattle.std.specs.Prelude.{◌≡◌};
ghost use Rattle.mkv_write.specs.declared.fault.WriteFault.TheVariants.{Sink, NoMemory};
ghost use Rattle.mkv_write.specs.Fault.{Becomes};

use std::alloc::{AllocError, AllocFailed};
use tl_ports::PutFault;

/// Why a file wasn't written to its end. What was put is then a prefix of it.
#[derive(Clone, Copy, Debug, PartialEq, Eq)]
pub enum WriteFault {
    /// The vault failed; its count of faults rose.
    Sink,
    /// Memory ran out; the vault's count of faults is as it was.
    NoMemory,
}

impl From<PutFault> for WriteFault {
    ghost from_gives = { Becomes };

    fn from(fault: PutFault) -> WriteFault {
        match fault {
            PutFault::Failed => WriteFault::Sink,
            PutFault::NoMemory => WriteFault::NoMemory,
        }
    }
}

impl From<AllocError> for WriteFault {
    ghost from_gives = { λ _ fault. fault ≡ NoMemory };

    fn from(_error: AllocError) -> WriteFault {
        WriteFault::NoMemory
    }
}

impl<T: Drop> From<AllocFailed<T>> for WriteFault {
    ghost from_gives = { λ _ fault. fault ≡ NoMemory };

    fn from(_error: AllocFailed<T>) -> WriteFault {
        WriteFault::NoMemory
    }
}
