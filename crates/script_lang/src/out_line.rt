//! The lines that a session puts out.

use tl_model::Name;

/// A line of output: the answer to one call of a script, what stopped a session, or how an export ended. Lengths and places are
/// counted in frames, exports from 1.
#[derive(Drop)]
pub enum OutLine {
    /// An edit was made, and the timeline has `len` frames.
    Ok {
        len: u32,
    },
    /// An edit, an undo, a redo or an export was refused.
    Refused {
        why: Name,
    },
    /// The edit list is faulty at its line `n`.
    EdlLine {
        n: u32,
        why: Name,
    },
    /// So many renders were begun.
    Wanted {
        count: u32,
    },
    /// So many renders were called off.
    Cancelled {
        count: u32,
    },
    /// The timeline has `len` frames, and what was asked lies past its end.
    Past {
        len: u32,
    },
    /// Frame `n` was put out.
    Frame {
        n: u32,
    },
    /// Frame `n` isn't rendered yet.
    Pending {
        n: u32,
    },
    /// Frame `n` couldn't be rendered.
    Fault {
        n: u32,
        kind: Name,
    },
    /// So many renders were filed.
    Worked {
        count: u32,
    },
    /// The export has this number.
    Asked {
        export: u64,
    },
    /// The script is faulty at its line `n`.
    FaultLine {
        n: u32,
        why: Name,
    },
    /// The clip of line `n` isn't a clip.
    FaultClip {
        n: u32,
        kind: Name,
    },
    /// The configuration record of the clip of line `n` is faulty.
    FaultRecord {
        n: u32,
        kind: Name,
    },
    /// A file wasn't fetched.
    Store {
        name: Name,
        kind: Name,
    },
    /// A picture couldn't be put out.
    ScreenFailed,
    /// Memory ran out.
    NoMemory,
    /// The journal has `len` entries and owes so many, and no room for the next call.
    JournalFull {
        len: u64,
        owed: u64,
    },
    /// How the program is called.
    Usage,
    /// The export was written.
    Done {
        export: u64,
        frames: u32,
    },
    /// The export's frame at that place, which is the clip's frame, couldn't be rendered.
    ExportFault {
        export: u64,
        at: u32,
        clip: Name,
        frame: u32,
        kind: Name,
    },
    /// The export's packet at that place is too long.
    Long {
        export: u64,
        at: u32,
    },
    /// The export couldn't be written.
    Sink {
        export: u64,
    },
    /// Memory ran out in the export.
    Memory {
        export: u64,
    },
}
