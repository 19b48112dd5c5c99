//! Points of a run at which a test may hold a thread.

/// What a thread has come to. Each has a number.
#[derive(Clone, Copy, Debug, PartialEq, Eq)]
pub enum Point {
    /// The job of this number was claimed.
    Claimed,
    /// The job of this number was rendered, and isn't filed yet.
    Rendered,
    /// The export of this number was taken.
    Taken,
    /// The frame of this number was played.
    Played,
    /// There was nothing to do; the number is the journal's length.
    Idle,
}

/// Is called by each thread at each point, and may hold it there. It changes no answer, and no clause speaks of it.
pub trait Gate {
    fn at(&self, point: Point, number: u64);
}

/// The gate that holds no thread.
#[derive(Clone, Copy, Debug, Drop)]
pub struct OpenGate;

impl Gate for OpenGate {
    fn at(&self, _point: Point, _number: u64) {}
}
