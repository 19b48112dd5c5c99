//! Whether frames of a clip can be taken.

ghost use Rattle.std.specs.Prelude.{◌≡◌, ◌+◌, ◌-◌, ◌≤◌, OnOk};
ghost use Rattle.tl_model.specs.Segment.{Reaches};
ghost use Rattle.time_list.specs.Apply.{not_taken};
ghost use Rattle.time_list.specs.Changes.{FirstIs};
ghost use Rattle.time_list.specs.Edits as edits;
ghost use Rattle.time_list.specs.Edits.{sides_from};

use tl_model::{EditRefusal, Media, Side};

/// What comes `by` frames before a side, or at its clip's first frame where that is nearer.
pub(crate) fn before(side: Side, by: u32) -> Side
    ensures { result ≡ edits.side_before by side }
{
    match side {
        Side::Black => Side::Black,
        Side::Clip { clip, frame } => Side::Clip {
            clip,
            frame: frame.saturating_sub(by),
        },
    }
}

/// Whether what comes `by` frames before a side is before its clip's first frame.
pub(crate) fn is_early(side: Side, by: u32) -> bool
    ensures { result ≡ edits.is_early by side }
{
    match side {
        Side::Black => false,
        Side::Clip { clip: _, frame } => frame < by,
    }
}

/// Why `count` frames that go on `skip` frames after a side can't be taken, if they can't.
#[tactic(auto)]
pub(crate) fn check<M: Media>(
    media: &M,
    first: Side,
    skip: u32,
    count: u32,
    early: bool,
) -> Result<(), EditRefusal>
    requires { 1 ≤ count }
    ensures reason { FirstIs (not_taken (M.library media.now) (sides_from first skip count) early) result }
    ensures reach { OnOk result (Reaches first (skip + count)) }
{
    match first {
        Side::Black => {
            if early {
                return Err(EditRefusal::OutsideClip);
            }
            Ok(())
        }
        Side::Clip { clip, frame } => {
            if clip >= media.clips() {
                return Err(EditRefusal::NoClip);
            }
            if !media.fits(clip) {
                return Err(EditRefusal::ShapeDiffers);
            }
            if early {
                return Err(EditRefusal::OutsideClip);
            }
            let end = u64::from(frame) + u64::from(skip) + u64::from(count);
            if end > u64::from(media.frames(clip)) {
                return Err(EditRefusal::OutsideClip);
            }
            Ok(())
        }
    }
}
