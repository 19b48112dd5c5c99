//! Other segments in place of the whole timeline.

ghost use Rattle.std.specs.Prelude.{◌≡◌, ◌||◌, All};
ghost use Rattle.std.specs.List.{list_any, flat_map};
ghost use Rattle.tl_model.specs.Edit.{IsReplacement};
ghost use Rattle.time_list.specs.Changes.{Changes};
ghost use Rattle.time_list.specs.Edits.{sides_from, sides_of, replaced};
ghost use Rattle.time_list.specs.Edits as edits;
ghost use Rattle.time_list.specs.Found.{IsFound};

use crate::change::{Change, Span};
use crate::lane::ApplyFault;
use std::alloc::Global;
use tl_limits::MAX_MIX;
use tl_model::{EditRefusal, Media, Mix, Segment, Side};

/// What is wrong with the frames that segments show: a clip that isn't there, one that doesn't fit, a frame past its
/// clip's end.
#[derive(Clone, Copy)]
pub(crate) struct Found {
    pub(crate) no_clip: bool,
    pub(crate) differs: bool,
    pub(crate) late: bool,
}

fn both(first: Found, second: Found) -> Found
    ensures no_clip { result.no_clip ≡ (first.no_clip || second.no_clip) }
    ensures differs { result.differs ≡ (first.differs || second.differs) }
    ensures late { result.late ≡ (first.late || second.late) }
{
    Found {
        no_clip: first.no_clip || second.no_clip,
        differs: first.differs || second.differs,
        late: first.late || second.late,
    }
}

fn look_at_frames<M: Media>(media: &M, first: Side, count: u32) -> Found
    ensures { IsFound (M.library media.now) (sides_from first 0 count) result }
{
    let mut found = Found {
        no_clip: false,
        differs: false,
        late: false,
    };
    if count == 0 {
        return found;
    }
    match first {
        Side::Black => found,
        Side::Clip { clip, frame } => {
            if clip >= media.clips() {
                found.no_clip = true;
                return found;
            }
            found.differs = !media.fits(clip);
            found.late = u64::from(frame) + u64::from(count) > u64::from(media.frames(clip));
            found
        }
    }
}

fn look_at<M: Media>(media: &M, segment: &Segment) -> Found
    ensures { IsFound (M.library media.now) (sides_of segment.now) result }
{
    let shown = look_at_frames(media, segment.first, segment.len);
    match segment.mix {
        None => shown,
        Some(mix) => {
            let outgoing = look_at_frames(media, mix.from, mix.steps.min(segment.len));
            both(shown, outgoing)
        }
    }
}

fn look<M: Media>(media: &M, segments: &[Segment]) -> Found
    ensures { IsFound (M.library media.now) (flat_map sides_of segments.now) result }
{
    let mut found = Found {
        no_clip: false,
        differs: false,
        late: false,
    };
    for segment in segments {
        found = both(found, look_at(media, segment));
    }
    found
}

fn is_long_mix(mix: Option<Mix>, len: u32) -> bool
    ensures { result ≡ edits.is_long_mix mix len }
{
    match mix {
        None => false,
        Some(mix) => mix.steps > len || mix.total > MAX_MIX,
    }
}

fn has_long_mix(segments: &[Segment]) -> bool
    ensures { result ≡ list_any (λ s. edits.is_long_mix s.mix s.len) segments.now }
{
    segments
        .iter()
        .any(|segment| is_long_mix(segment.mix, segment.len))
}

/// The segments in place of those of a timeline.
pub(crate) fn replace<M: Media>(
    alloc: Global,
    media: &M,
    items: &[Segment],
    segments: &[Segment],
) -> Result<Change, ApplyFault>
    requires { All IsReplacement segments.now }
    ensures { Changes (M.library media.now) items.now (replaced segments.now) result }
{
    let found = look(media, segments);
    if found.no_clip {
        return Err(ApplyFault::Refused(EditRefusal::NoClip));
    }
    if found.differs {
        return Err(ApplyFault::Refused(EditRefusal::ShapeDiffers));
    }
    if found.late {
        return Err(ApplyFault::Refused(EditRefusal::OutsideClip));
    }
    if has_long_mix(segments) {
        return Err(ApplyFault::Refused(EditRefusal::MixTooLong));
    }
    let span = Span {
        at: 0,
        from: 0,
        to: items.len(),
    };
    match Vec::from_slice(alloc, segments) {
        Ok(put) => Ok(Change { span, put }),
        Err(_) => Err(ApplyFault::NoMemory),
    }
}
