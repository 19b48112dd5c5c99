//! The faults of the outside.

/// Why a file wasn't fetched. The buffer is then as before.
#[derive(Clone, Copy, Debug, PartialEq, Eq)]
pub enum FetchFault {
    /// A read failed; the store's count of faults rose.
    Failed,
    /// There is no file of that name.
    Missing,
    /// The file has more bytes than the limit.
    TooLarge { limit: u64 },
    /// Memory ran out.
    NoMemory,
}

/// Why bytes weren't put, or a file wasn't begun or ended.
#[derive(Clone, Copy, Debug, PartialEq, Eq)]
pub enum PutFault {
    /// A write failed; the count of faults rose.
    Failed,
    /// Memory ran out.
    NoMemory,
}
