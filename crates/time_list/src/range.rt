//! Edits of a range of frames, and of the segment at a frame.

ghost use Rattle.std.specs.Prelude.{◌≡◌, ◌+◌, ◌^◌, ◌<◌, ◌≤◌, ◌++◌, nat_lt, length, take, drop, None, Some, MatchResult};
ghost use Rattle.tl_limits.specs.Limits.{max_frames};
ghost use Rattle.tl_model.specs.Cells.{cells};
ghost use Rattle.tl_model.specs.Edit.{IsEdit};
ghost use Rattle.tl_model.specs.Segment.{ArePieces, Reaches};
ghost use Rattle.tl_model.specs.declared.edit.Edit.TheVariants as edit;
ghost use Rattle.time_list.specs.Apply.{first_of, against};
ghost use Rattle.time_list.specs.Changes.{IsCutAt, Rearranges, Changes, IsReshape, reshaped};
ghost use Rattle.time_list.specs.Edits.{rearranged, headed, inserted, extracted, overwritten, lifted, divided, in_segment, joined};

use crate::change::{Change, between, put_segment};
use crate::cut::{Cut, cut_after, cut_at, end_after, frame_at};
use crate::lane::ApplyFault;
use crate::reshape::{self, Reshape};
use crate::taken;
use std::alloc::Global;
use tl_model::{EditRefusal, Media, Segment, Side};

/// The place before frame `at`, where so many frames from a side on may be taken. What an overwrite is refused for is
/// what an insert is.
fn place_for<M: Media>(
    media: &M,
    items: &[Segment],
    at: u32,
    side: Side,
    len: u32,
) -> Result<Cut, EditRefusal>
    requires pieces { ArePieces items.now }
    requires some { 1 ≤ len }
    ensures { let reason = first_of (against (M.library media.now) (inserted at side len (cells items.now))) in
        MatchResult result (λ cut. (reason ≡ None) × IsCutAt items.now at cut × Reaches side len) (λ why. reason ≡ Some why) }
{
    let cut = match cut_at(items, at) {
        Some(cut) => cut,
        None => return Err(EditRefusal::PastEnd),
    };
    match taken::check(media, side, 0, len, false) {
        Ok(()) => Ok(cut),
        Err(why) => Err(why),
    }
}

/// New frames from a side on before frame `at`.
pub(crate) fn insert<M: Media>(
    alloc: Global,
    media: &M,
    items: &[Segment],
    at: u32,
    side: Side,
    len: u32,
) -> Result<Change, ApplyFault>
    requires pieces { ArePieces items.now }
    requires formed { IsEdit (edit.Insert at side len) }
    ensures { Changes (M.library media.now) items.now (inserted at side len (cells items.now)) result }
{
    let cut = match place_for(media, items, at, side, len) {
        Ok(cut) => cut,
        Err(why) => return Err(ApplyFault::Refused(why)),
    };
    let new = Segment {
        first: side,
        len,
        mix: None,
    };
    match between(alloc, items, cut, cut, &[new]) {
        Ok(change) => Ok(change),
        Err(_) => Err(ApplyFault::NoMemory),
    }
}

/// New frames from a side on in place of those from frame `at` on, also past the end.
pub(crate) fn overwrite<M: Media>(
    alloc: Global,
    media: &M,
    items: &[Segment],
    at: u32,
    side: Side,
    len: u32,
) -> Result<Change, ApplyFault>
    requires pieces { ArePieces items.now }
    requires short { length (cells items.now) ≤ max_frames }
    requires formed { IsEdit (edit.Overwrite at side len) }
    ensures { Changes (M.library media.now) items.now (overwritten at side len (cells items.now)) result }
{
    let cut = match place_for(media, items, at, side, len) {
        Ok(cut) => cut,
        Err(why) => return Err(ApplyFault::Refused(why)),
    };
    let new = Segment {
        first: side,
        len,
        mix: None,
    };
    let last = end_after(items, cut, len);
    match between(alloc, items, cut, last, &[new]) {
        Ok(change) => Ok(change),
        Err(_) => Err(ApplyFault::NoMemory),
    }
}

/// Segments in place of `len` frames from frame `at` on.
fn give_way(
    alloc: Global,
    items: &[Segment],
    at: u32,
    len: u32,
    new: &[Segment],
) -> Result<Change, ApplyFault>
    requires pieces { ArePieces items.now }
    requires new { ArePieces new.now }
    requires fits { at + len < 2 ^ 32 }
    ensures { Rearranges items.now (rearranged (nat_lt (length (cells items.now)) (at + len))
        (take at (cells items.now) ++ cells new.now ++ headed (drop (at + len) (cells items.now)))) result }
{
    let cut = match cut_at(items, at) {
        Some(cut) => cut,
        None => return Err(ApplyFault::Refused(EditRefusal::PastEnd)),
    };
    let last = match cut_after(items, cut, len) {
        Some(last) => last,
        None => return Err(ApplyFault::Refused(EditRefusal::PastEnd)),
    };
    match between(alloc, items, cut, last, new) {
        Ok(change) => Ok(change),
        Err(_) => Err(ApplyFault::NoMemory),
    }
}

/// No frames in place of `len` from frame `at` on.
pub(crate) fn extract(
    alloc: Global,
    items: &[Segment],
    at: u32,
    len: u32,
) -> Result<Change, ApplyFault>
    requires pieces { ArePieces items.now }
    requires formed { IsEdit (edit.Extract at len) }
    ensures { Rearranges items.now (extracted at len (cells items.now)) result }
{
    give_way(alloc, items, at, len, &[])
}

/// Black in place of `len` frames from frame `at` on.
pub(crate) fn lift(
    alloc: Global,
    items: &[Segment],
    at: u32,
    len: u32,
) -> Result<Change, ApplyFault>
    requires pieces { ArePieces items.now }
    requires formed { IsEdit (edit.Lift at len) }
    ensures { Rearranges items.now (lifted at len (cells items.now)) result }
{
    let black = Segment {
        first: Side::Black,
        len,
        mix: None,
    };
    give_way(alloc, items, at, len, &[black])
}

/// A new segment's start at frame `at`.
pub(crate) fn split(alloc: Global, items: &[Segment], at: u32) -> Result<Change, ApplyFault>
    requires { ArePieces items.now }
    ensures { Rearranges items.now (divided at (cells items.now)) result }
{
    let cut = match frame_at(items, at) {
        Some(cut) => cut,
        None => return Err(ApplyFault::Refused(EditRefusal::PastEnd)),
    };
    match between(alloc, items, cut, cut, &[]) {
        Ok(change) => Ok(change),
        Err(_) => Err(ApplyFault::NoMemory),
    }
}

/// Another segment in place of the one that has frame `at`.
#[tactic(auto, using(crate::proofs::Places::item_steps))]
pub(crate) fn change_segment<M: Media>(
    alloc: Global,
    media: &M,
    items: &[Segment],
    at: u32,
    how: Reshape,
) -> Result<Change, ApplyFault>
    requires pieces { ArePieces items.now }
    requires short { length (cells items.now) ≤ max_frames }
    requires formed { IsReshape how }
    ensures { Changes (M.library media.now) items.now (in_segment (reshaped how) at (cells items.now)) result }
{
    let cut = match frame_at(items, at) {
        Some(cut) => cut,
        None => return Err(ApplyFault::Refused(EditRefusal::PastEnd)),
    };
    match reshape::reshaped(media, &items[cut.index], how) {
        Err(why) => Err(ApplyFault::Refused(why)),
        Ok(new) => match put_segment(alloc, items, cut, new) {
            Ok(change) => Ok(change),
            Err(_) => Err(ApplyFault::NoMemory),
        },
    }
}

/// A dissolve between the segment that frame `at` begins and the one before it.
#[tactic(auto, using(crate::proofs::Places::item_steps))]
pub(crate) fn join<M: Media>(
    alloc: Global,
    media: &M,
    items: &[Segment],
    at: u32,
    len: u32,
) -> Result<Change, ApplyFault>
    requires { ArePieces items.now }
    ensures { Changes (M.library media.now) items.now (joined at len (cells items.now)) result }
{
    let cut = match frame_at(items, at) {
        Some(cut) => cut,
        None => return Err(ApplyFault::Refused(EditRefusal::PastEnd)),
    };
    if cut.offset > 0 {
        return Err(ApplyFault::Refused(EditRefusal::NoCut));
    }
    if cut.index == 0 {
        return Err(ApplyFault::Refused(EditRefusal::NoCut));
    }
    match reshape::dissolve(media, &items[cut.index], &items[cut.index - 1], len) {
        Err(why) => Err(ApplyFault::Refused(why)),
        Ok(new) => match put_segment(alloc, items, cut, new) {
            Ok(change) => Ok(change),
            Err(_) => Err(ApplyFault::NoMemory),
        },
    }
}
