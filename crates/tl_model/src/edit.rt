//! Edits of a timeline, and what answers them.

ghost use Rattle.std.specs.Prelude.{◌≡◌, ◌↔◌, All, IsTrue, IfOk};
ghost use Rattle.tl_model.specs.Edit.{IsSideWithin, IsMixWithin, IsReplacement, IsNear, IsEdit};

use crate::recipe::{Mix, Side};
use crate::segment::{Segment, Segments};
use std::alloc::{AllocError, Global};
use tl_limits::{MAX_FRAMES, TIMECODE_FRAMES};

/// An edit. Places and lengths are counted in frames. The segment at a place is the one that has the frame there.
#[derive(Debug, Drop)]
pub enum Edit {
    /// Puts `len` frames from the side `take` on before the frame at `at`.
    Insert { at: u32, take: Side, len: u32 },
    /// Takes out `len` frames from `at` on.
    Extract { at: u32, len: u32 },
    /// Puts `len` frames from the side `take` on in place of those from `at` on, also past the end.
    Overwrite { at: u32, take: Side, len: u32 },
    /// Puts black in place of `len` frames from `at` on.
    Lift { at: u32, len: u32 },
    /// Makes the frame at `at` the first of a segment.
    Split { at: u32 },
    /// Takes the first `by` frames out of the segment at `at`, or where `by` is negative gives it as many more before
    /// its start, and then it has no dissolve.
    TrimIn { at: u32, by: i32 },
    /// Takes the last `by` frames out of the segment at `at`, or where `by` is negative gives it as many more after its
    /// end.
    TrimOut { at: u32, by: i32 },
    /// Moves the frames that the segment at `at` shows by `by`.
    Slip { at: u32, by: i32 },
    /// Gives the segment that begins at `at` a dissolve of `len` frames from the segment before it, or none.
    Dissolve { at: u32, len: u32 },
    /// Makes the segment at `at` show a clip from its frame `first` on.
    Relink { at: u32, clip: u32, first: u32 },
    /// Puts these segments in place of the whole timeline.
    Replace { segments: Segments },
}

/// Why an edit was refused: the first reason in this order.
#[derive(Clone, Copy, Debug, PartialEq, Eq)]
pub enum EditRefusal {
    /// It reaches past the end of the timeline, or a trim takes the whole segment.
    PastEnd,
    /// No segment starts there, or none is before it.
    NoCut,
    /// There is no such clip.
    NoClip,
    /// The clip has another shape than the session.
    ShapeDiffers,
    /// A frame lies outside its clip.
    OutsideClip,
    /// The dissolve is longer than its segment or than 250 frames.
    MixTooLong,
    /// The timeline would have over 1,000,000 frames.
    TooManyFrames,
    /// The timeline would have over 100,000 segments.
    TooManySegments,
}

/// What answers an edit, an undo or a redo.
#[derive(Clone, Copy, Debug, PartialEq, Eq)]
pub enum EditReply {
    /// The edit was made, and the timeline has `len` frames.
    Ok { len: u32 },
    /// The timeline is as before.
    Refused(EditRefusal),
    /// No edit is left to undo.
    NothingToUndo,
    /// No undone edit is left to make again.
    NothingToRedo,
}

fn is_side_within(most: u32, side: Side) -> bool
    ensures { IsTrue result ↔ IsSideWithin most side }
{
    match side {
        Side::Black => true,
        Side::Clip { clip, frame } => clip <= most && frame <= most,
    }
}

fn is_mix_within(most: u32, mix: Option<Mix>) -> bool
    ensures { IsTrue result ↔ IsMixWithin most mix }
{
    match mix {
        None => true,
        Some(mix) => {
            is_side_within(most, mix.from)
                && mix.done <= most
                && mix.steps <= most
                && mix.total <= most
        }
    }
}

fn is_replacement(segment: &Segment) -> bool
    ensures { IsTrue result ↔ IsReplacement segment.now }
{
    segment.is_well_formed()
        && is_side_within(TIMECODE_FRAMES, segment.first)
        && segment.len <= TIMECODE_FRAMES
        && is_mix_within(TIMECODE_FRAMES, segment.mix)
}

fn are_replacements(segments: &[Segment]) -> bool
    ensures { IsTrue result ↔ All IsReplacement segments.now }
{
    segments.iter().all(|segment| is_replacement(segment))
}

fn is_near(by: i32) -> bool
    ensures { IsTrue result ↔ IsNear by }
{
    by.unsigned_abs() <= MAX_FRAMES
}

impl Edit {
    /// Whether each length but a dissolve's is at least 1 and no number passes its bound: 33,554,432 in the segments of
    /// a replacement, which are well formed, and 1,000,000 elsewhere, to either side for a `by`.
    pub fn is_well_formed(&self) -> bool
        ensures { IsTrue result ↔ IsEdit self.now }
    {
        match self {
            Edit::Insert { at, take, len } | Edit::Overwrite { at, take, len } => {
                *at <= MAX_FRAMES
                    && is_side_within(MAX_FRAMES, *take)
                    && 1 <= *len
                    && *len <= MAX_FRAMES
            }
            Edit::Extract { at, len } | Edit::Lift { at, len } => {
                *at <= MAX_FRAMES && 1 <= *len && *len <= MAX_FRAMES
            }
            Edit::Split { at } => *at <= MAX_FRAMES,
            Edit::TrimIn { at, by } | Edit::TrimOut { at, by } | Edit::Slip { at, by } => {
                *at <= MAX_FRAMES && is_near(*by)
            }
            Edit::Dissolve { at, len } => *at <= MAX_FRAMES && *len <= MAX_FRAMES,
            Edit::Relink { at, clip, first } => {
                *at <= MAX_FRAMES && *clip <= MAX_FRAMES && *first <= MAX_FRAMES
            }
            Edit::Replace { segments } => are_replacements(segments.as_slice()),
        }
    }

    /// The same edit again.
    pub fn copy(&self, alloc: Global) -> Result<Edit, AllocError>
        ensures { IfOk result (λ e. e ≡ self.now) }
    {
        Ok(match self {
            Edit::Insert { at, take, len } => Edit::Insert {
                at: *at,
                take: *take,
                len: *len,
            },
            Edit::Extract { at, len } => Edit::Extract { at: *at, len: *len },
            Edit::Overwrite { at, take, len } => Edit::Overwrite {
                at: *at,
                take: *take,
                len: *len,
            },
            Edit::Lift { at, len } => Edit::Lift { at: *at, len: *len },
            Edit::Split { at } => Edit::Split { at: *at },
            Edit::TrimIn { at, by } => Edit::TrimIn { at: *at, by: *by },
            Edit::TrimOut { at, by } => Edit::TrimOut { at: *at, by: *by },
            Edit::Slip { at, by } => Edit::Slip { at: *at, by: *by },
            Edit::Dissolve { at, len } => Edit::Dissolve { at: *at, len: *len },
            Edit::Relink { at, clip, first } => Edit::Relink {
                at: *at,
                clip: *clip,
                first: *first,
            },
            Edit::Replace { segments } => {
                let segments = segments.copy(alloc)?;
                Edit::Replace { segments }
            }
        })
    }
}
