//! How a run ended.

use tl_model::Journal;

/// How a run ended.
#[derive(Debug, Drop)]
pub struct Outcome {
    /// The exit status: 0, or 2 for wrong words, 3 for a faulty script or clip, 4 where the outside failed, 5 for want of memory,
    /// 6 where the journal is full, 7 where an export has a fault.
    pub status: u8,
    /// What was done, in order. It is empty where no session started.
    pub journal: Journal,
}
