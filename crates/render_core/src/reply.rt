//! What the board answers.

use crate::claim::Claim;
use crate::export::ExportJob;
use std::sync::Arc;
use tl_model::{Recipe, RenderFault};

/// Why a call was refused. Everything is then as before.
#[derive(Clone, Copy, Debug, PartialEq, Eq)]
pub enum Full {
    /// The journal has `len` entries and owes `owed` more, and what the call needs passes the limit.
    JournalFull { len: u64, owed: u64 },
    /// Memory ran out.
    NoMemory,
}

/// What answers a want.
#[derive(Clone, Copy, Debug, PartialEq, Eq)]
pub enum WantReply {
    /// So many jobs were made.
    Wanted { count: u32 },
    /// The range reaches past the timeline's end; it has `len` frames.
    PastEnd { len: u32 },
}

/// What answers a cancellation.
#[derive(Clone, Copy, Debug, PartialEq, Eq)]
pub enum CancelReply {
    /// So many jobs were closed.
    Cancelled { count: u32 },
    /// The range reaches past the timeline's end; it has `len` frames.
    PastEnd { len: u32 },
}

/// What answers a claim. The last two append no entry.
#[derive(Debug)]
pub enum ClaimReply {
    /// The lowest queued job.
    Claimed(Claim),
    /// No job is queued; the journal has `len` entries.
    Idle { len: u64 },
    /// The session was stopped; the journal has `len` entries.
    Stopped { len: u64 },
}

/// What answers the result of a job.
#[derive(Clone, Copy, Debug, PartialEq, Eq)]
pub enum FileReply {
    /// The result comes first among the filed ones, and the job is closed.
    Filed,
    /// The job had been closed by the entry `at`.
    Closed { at: u64 },
}

/// What answers a job that is given back.
#[derive(Clone, Copy, Debug, PartialEq, Eq)]
pub enum ReleaseReply {
    /// The job is queued again.
    Released,
    /// The job had been closed by the entry `at`.
    Closed { at: u64 },
}

/// What answers a play.
#[derive(Drop)]
pub enum PlayReply<F> {
    /// The frame's picture, shared with the filed result.
    Frame(Arc<F>),
    /// The frame's recipe is filed, and couldn't be rendered.
    Fault(RenderFault),
    /// The frame's recipe isn't filed.
    Pending { recipe: Recipe },
    /// The timeline has `len` frames.
    PastEnd { len: u32 },
}

/// What answers a show.
#[derive(Drop)]
pub enum ShowReply<F> {
    /// The frame's picture, shared with the filed result.
    Frame(Arc<F>),
    /// The frame's recipe is filed, and couldn't be rendered.
    Fault(RenderFault),
    /// The frame's recipe isn't filed, and is to be rendered by the caller.
    Render { recipe: Recipe },
    /// The timeline has `len` frames.
    PastEnd { len: u32 },
}

/// What answers an ask for an export.
#[derive(Clone, Copy, Debug, PartialEq, Eq)]
pub enum AskReply {
    /// The export's number, from 1.
    Asked { export: u64 },
    /// The timeline has no frame.
    EmptyTimeline,
}

/// What answers a take. The last two append no entry.
#[derive(Debug)]
pub enum TakeReply {
    /// The lowest export that nobody took.
    Taken(ExportJob),
    /// Every export is taken; the journal has `len` entries.
    Idle { len: u64 },
    /// Every export is taken, and the session was stopped; the journal has `len` entries.
    Stopped { len: u64 },
}
