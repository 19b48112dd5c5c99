use std::alloc::{AllocError, AllocFailed};

/// Which limit a clip passes.
#[derive(Clone, Copy, Debug, PartialEq, Eq)]
pub enum Which {
    Width,
    Height,
    Private,
    Frames,
}

/// Why no clip was read. Of several faults the first in this order is answered; `Laced` and `TimeOrder` share a place.
#[derive(Clone, Copy, Debug, PartialEq, Eq)]
pub enum ClipFault {
    /// An element is faulty, whose first byte is at this place.
    Ebml { at: u64 },
    /// The file isn't Matroska.
    DocType,
    /// There is no video track.
    NoTrack,
    /// No video track is FFV1.
    Codec,
    /// The track has no configuration record.
    NoPrivate,
    /// The track's blocks are compressed or encrypted.
    Encoded,
    /// A limit is passed.
    Limit { which: Which },
    /// The block whose first byte is at this place is laced.
    Laced { at: u64 },
    /// The block whose first byte is at this place is earlier than the one before.
    TimeOrder { at: u64 },
    /// The track has no block.
    NoFrames,
    /// Memory ran out.
    NoMemory,
}

impl From<AllocError> for ClipFault {
    ghost use Rattle.std.specs.Prelude.{◌≡◌};
    ghost use Rattle.mkv_read.specs.declared.fault.ClipFault.TheVariants.{NoMemory};

    ghost from_gives = { λ _ fault. fault ≡ NoMemory };

    fn from(_error: AllocError) -> ClipFault {
        ClipFault::NoMemory
    }
}

impl<T: Drop> From<AllocFailed<T>> for ClipFault {
    ghost use Rattle.std.specs.Prelude.{◌≡◌};
    ghost use Rattle.mkv_read.specs.declared.fault.ClipFault.TheVariants.{NoMemory};

    ghost from_gives = { λ _ fault. fault ≡ NoMemory };

    fn from(_error: AllocFailed<T>) -> ClipFault {
        ClipFault::NoMemory
    }
}
