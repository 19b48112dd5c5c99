//! Why a frame couldn't be rendered, and how an export ended.

/// What is wrong with a coded frame: the first fault in this order. A slice or cell is told by its number.
#[derive(Clone, Copy, Debug, PartialEq, Eq)]
pub enum FrameFault {
    /// The packet has no bytes.
    Empty,
    /// The slices' sizes don't lead from the packet's end to its start.
    Chain,
    /// The parity of a slice is wrong.
    Parity { slice: u32 },
    /// The frame isn't a key frame.
    NotKey,
    /// The header of a slice is wrong.
    Header { slice: u32 },
    /// A slice names a table that the record lacks.
    TableIndex { slice: u32 },
    /// A cell of the slice grid is not covered by exactly one slice.
    Cover { cell: u32 },
    /// A coded number is too long.
    Symbol { slice: u32 },
    /// A slice has fewer bytes than its samples take.
    Overrun { slice: u32 },
}

/// The frame that couldn't be rendered, and why. Clips and frames are counted from 0.
#[derive(Clone, Copy, Debug, PartialEq, Eq)]
pub struct RenderFault {
    pub clip: u32,
    pub frame: u32,
    pub kind: FrameFault,
}

/// How an export ended. A place is that of a frame of the exported timeline, from 0.
#[derive(Clone, Copy, Debug, PartialEq, Eq)]
pub enum Ending {
    /// The whole file was written.
    Done { frames: u32 },
    /// The frame at that place couldn't be rendered.
    ClipFault { at: u32, fault: RenderFault },
    /// The packet at that place is too long.
    SliceTooLong { at: u32 },
    /// The file couldn't be written.
    Sink,
    /// Memory ran out.
    NoMemory,
}
