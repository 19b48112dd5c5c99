//! Why an edit list isn't taken.

ghost use Rattle.std.specs.Prelude.{◌≡◌};
ghost use Rattle.edl_text.specs.declared.fault.EdlFault.TheVariants.{NoMemory};
ghost use Rattle.edl_text.specs.Fault.{edl_word};

use std::alloc::{AllocError, AllocFailed};

/// What is wrong with a line.
#[derive(Clone, Copy, Debug, PartialEq, Eq)]
pub enum EdlWhy {
    /// A timecode of drop-frame counting, or `FCM: DROP FRAME`.
    Drop,
    /// A motion effect, `M2`.
    Speed,
    /// A wipe.
    Wipe,
    /// A key.
    Key,
    /// No line of an edit list, or not UTF-8.
    Unknown,
    /// A timecode isn't of its form, or its frames don't lie below the rate.
    Timecode,
    /// A cut of zero record length without the dissolve that belongs to it, or a dissolve without such a cut.
    PairMissing,
    /// No clip has the name that the event takes, or it has none.
    UnknownClip,
    /// An out lies before its in, or the lengths differ, or a dissolve's is 0.
    Span,
    /// The source begins before the clip.
    OutsideClip,
    /// The event begins before the one before it ends.
    Overlap,
}

impl EdlWhy {
    /// Its name, as a session tells it.
    pub fn word(self) -> &'static str
        ensures { result.now ≡ edl_word self }
    {
        match self {
            EdlWhy::Drop => "Drop",
            EdlWhy::Speed => "Speed",
            EdlWhy::Wipe => "Wipe",
            EdlWhy::Key => "Key",
            EdlWhy::Unknown => "Unknown",
            EdlWhy::Timecode => "Timecode",
            EdlWhy::PairMissing => "PairMissing",
            EdlWhy::UnknownClip => "UnknownClip",
            EdlWhy::Span => "Span",
            EdlWhy::OutsideClip => "OutsideClip",
            EdlWhy::Overlap => "Overlap",
        }
    }
}

/// The first faulty line, counted from 1, or want of memory.
#[derive(Clone, Copy, Debug, PartialEq, Eq)]
pub enum EdlFault {
    Line { n: u32, why: EdlWhy },
    NoMemory,
}

impl From<AllocError> for EdlFault {
    ghost from_gives = { λ _ e. e ≡ NoMemory };

    fn from(_: AllocError) -> Self {
        EdlFault::NoMemory
    }
}

impl<T: Drop> From<AllocFailed<T>> for EdlFault {
    ghost from_gives = { λ _ e. e ≡ NoMemory };

    fn from(_: AllocFailed<T>) -> Self {
        EdlFault::NoMemory
    }
}
