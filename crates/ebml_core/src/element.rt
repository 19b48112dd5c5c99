use crate::vint::{Size, VintFault};

/// An element, and where it lies, in bytes from the first byte of the file.
#[derive(Clone, Copy, Debug, PartialEq, Eq)]
pub struct Element {
    pub id: u32,
    /// Where its id starts.
    pub start: u64,
    /// Where its content starts.
    pub content: u64,
    /// Where its content ends.
    pub end: u64,
    /// Whether its size is unknown. Its end is then the end of what was walked.
    pub unknown: bool,
}

/// An element's id and size, and how many octets both take.
#[derive(Clone, Copy)]
pub struct Header {
    pub id: u32,
    pub size: Size,
    pub octets: u8,
}

/// What is wrong with an element.
#[derive(Clone, Copy, Debug, PartialEq, Eq)]
pub enum EbmlWhy {
    /// Its id or its size passes the end.
    Short,
    /// Its id or its size begins with too many 0 bits.
    BadVint,
    /// Its content passes the end.
    Overrun,
}

impl From<VintFault> for EbmlWhy {
    ghost use Rattle.std.specs.Prelude.{◌≡◌};
    ghost use Rattle.ebml_core.specs.Reading.{why_of};

    ghost from_gives = { λ fault why. why ≡ why_of fault };

    fn from(fault: VintFault) -> EbmlWhy {
        match fault {
            VintFault::Short => EbmlWhy::Short,
            VintFault::BadVint => EbmlWhy::BadVint,
        }
    }
}

/// The first element that is faulty.
#[derive(Clone, Copy, Debug, PartialEq, Eq)]
pub struct EbmlFault {
    /// The place of its first byte.
    pub at: u64,
    pub why: EbmlWhy,
}
