//! Why a file isn't loaded.
ghost use Rattle.std.specs.Prelude.{◌≡◌};
ghost use Rattle.clip_store.specs.declared.fault.LoadFault.TheVariants.{NoMemory};

use ffv1_record::RecordFault;
use mkv_read::ClipFault;
use std::alloc::{AllocError, AllocFailed};

/// Why a file isn't loaded: the first reason in this order.
#[derive(Clone, Copy, Debug, PartialEq, Eq)]
pub enum LoadFault {
    /// A clip of that name is loaded.
    SameName,
    /// All files together would have over 2 to the power 32 bytes.
    Total,
    /// The file has no clip.
    Clip(ClipFault),
    /// The clip's configuration record is faulty.
    Record(RecordFault),
    /// The slices that the record asks for don't cover pictures of the clip's size.
    Slices,
    /// Memory ran out.
    NoMemory,
}

impl From<AllocError> for LoadFault {
    ghost from_gives = { λ _ fault. fault ≡ NoMemory };

    fn from(_error: AllocError) -> LoadFault {
        LoadFault::NoMemory
    }
}

impl<T: Drop> From<AllocFailed<T>> for LoadFault {
    ghost from_gives = { λ _ fault. fault ≡ NoMemory };

    fn from(_error: AllocFailed<T>) -> LoadFault {
        LoadFault::NoMemory
    }
}
