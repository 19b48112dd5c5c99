//! What a call that doesn't wait is answered.

/// The answer of a call that doesn't wait.
pub enum Try<A, B> {
    /// The call was made, and has this answer.
    Done(A),
    /// Another pass held the turn, and took it when there were `seen` entries. What the call would have spent comes back.
    Busy { seen: u64, back: B },
}
