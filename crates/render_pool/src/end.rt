//! How a turn ended.

use tl_model::Ending;

/// How a turn of work ended. Journal lengths and entries are counted from 1.
#[derive(Clone, Copy, Debug, PartialEq, Eq)]
pub enum WorkEnd {
    /// The result of this job was filed.
    Filed { job: u64 },
    /// The job had been closed by the entry `at`, and its result was let go.
    Closed { job: u64, at: u64 },
    /// Memory ran out in rendering or filing, and the job was given back while it was open.
    Released { job: u64 },
    /// No job is queued, in a journal of this length.
    Idle { len: u64 },
    /// The session was stopped, in a journal of this length.
    Stopped { len: u64 },
    /// The claim doesn't fit into a journal of this length with what is owed.
    JournalFull { len: u64, owed: u64 },
    /// Memory ran out for the claim.
    NoMemory,
}

/// How a turn of the exporter ended.
#[derive(Clone, Copy, Debug)]
pub enum ExportEnd {
    /// The export of this number was carried out, and ended so.
    Ended { export: u64, ending: Ending },
    /// There is no export that nobody took, in a journal of this length.
    Idle { len: u64 },
    /// There is none, and the session was stopped, in a journal of this length.
    Stopped { len: u64 },
}
