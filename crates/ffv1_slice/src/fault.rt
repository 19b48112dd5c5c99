//! What can be wrong with a slice.

/// A fault of a slice's header. RFC 9043 section 4.6.
#[derive(Clone, Copy, Debug, PartialEq, Eq)]
pub enum HeaderFault {
    /// A symbol is too long, or the slice passes the grid.
    Header,
    /// An index of a set of quantization tables isn't below the number of sets.
    TableIndex,
}

/// A fault of a slice's samples.
#[derive(Clone, Copy, Debug, PartialEq, Eq)]
pub enum SliceFault {
    /// A symbol is too long.
    Symbol,
    /// More is taken than the slice has.
    Overrun,
}
