//! Segments in place of others in a list, and the patch that leads back.

ghost use Rattle.std.specs.Prelude.{◌≡◌, ◌+◌, ◌-◌, ◌^◌, ◌<◌, ◌≤◌, ◌∷◌, [], ◌++◌, min, length, take, drop, IfOk};
ghost use Rattle.tl_limits.specs.Limits.{max_frames, max_segments};
ghost use Rattle.tl_model.specs.Cells.{cells_of, cells};
ghost use Rattle.tl_model.specs.Segment.{IsPiece, ArePieces};
ghost use Rattle.time_list.specs.Changes.{IsCutAt, IsSpan, spliced, IsChangeTo, IsMade, IsReverted, Makes};
ghost use Rattle.time_list.specs.Edits.{headed};
ghost use Rattle.time_list.specs.Patch.{IsPatchOf};
ghost use Rattle.time_list.specs.Pieces.{IsLane};

use crate::cut::{Cut, cut_after, cut_at, push_back, push_front};
use crate::lane::ApplyFault;
use crate::patch::Patch;
use std::alloc::{AllocError, Global};
use tl_limits::{MAX_FRAMES, MAX_SEGMENTS};
use tl_model::{EditRefusal, Segment, Segments};

/// The segments from `from` to before `to`, before which there are `at` frames.
#[derive(Clone, Copy)]
pub(crate) struct Span {
    pub(crate) at: u32,
    pub(crate) from: usize,
    pub(crate) to: usize,
}

/// The segments `put` in place of a span.
#[derive(Drop)]
pub(crate) struct Change {
    pub(crate) span: Span,
    pub(crate) put: Vec<Segment>,
}

/// A changed list with the number of its frames, and the patch that leads back.
#[derive(Drop)]
pub(crate) struct Made {
    pub(crate) items: Vec<Segment>,
    pub(crate) frames: u32,
    pub(crate) patch: Patch,
}

/// New segments between the frames before one place and those after another.
#[tactic(auto)]
pub(crate) fn between(
    alloc: Global,
    items: &[Segment],
    first: Cut,
    last: Cut,
    new: &[Segment],
) -> Result<Change, AllocError>
    requires pieces { ArePieces items.now }
    requires first { IsCutAt items.now (first.start + first.offset) first }
    requires last { IsCutAt items.now (last.start + last.offset) last }
    requires order { first.index ≤ last.index }
    requires new { ArePieces new.now }
    ensures { IfOk result (λ change. IsChangeTo items.now (take (first.start + first.offset) (cells items.now)
        ++ cells new.now ++ headed (drop (last.start + last.offset) (cells items.now))) change) }
{
    let mut put = Vec::with_capacity(alloc, 3)?;
    push_front(items, first, &mut put)?;
    put.extend_from_slice(new)?;
    let to = push_back(items, last, &mut put)?;
    let span = Span {
        at: first.start,
        from: first.index,
        to,
    };
    Ok(Change { span, put })
}

/// Another segment in the place of one.
#[tactic(auto)]
pub(crate) fn put_segment(
    alloc: Global,
    items: &[Segment],
    cut: Cut,
    new: Segment,
) -> Result<Change, AllocError>
    requires start { cut.start ≡ length (cells (take cut.index items.now)) }
    requires within { cut.index < length items.now }
    requires new { IsPiece new }
    ensures { IfOk result (λ change. IsChangeTo items.now
        (cells (take cut.index items.now) ++ cells_of new ++ cells (drop (cut.index + 1) items.now)) change) }
{
    let mut put = Vec::with_capacity(alloc, 1)?;
    put.push(new)?;
    let span = Span {
        at: cut.start,
        from: cut.index,
        to: cut.index + 1,
    };
    Ok(Change { span, put })
}

/// The number of frames, up to the largest number of 64 bits.
#[tactic(auto, using(crate::proofs::Places::count_steps))]
fn frame_count(items: &[Segment]) -> u64
    ensures { result ≡ min (length (cells items.now)) (2 ^ 64 - 1) }
{
    let mut count = 0u64;
    for segment in items {
        count = count.saturating_add(u64::from(segment.len));
    }
    count
}

fn spliced_list(
    alloc: Global,
    items: &[Segment],
    span: Span,
    put: &[Segment],
) -> Result<Vec<Segment>, AllocError>
    requires { IsSpan span items.now }
    ensures { IfOk result (λ v. v.items ≡ spliced span put.now items.now) }
{
    let mut made = Vec::with_capacity(alloc, items.len())?;
    made.extend_from_slice(&items[..span.from])?;
    made.extend_from_slice(put)?;
    made.extend_from_slice(&items[span.to..])?;
    Ok(made)
}

/// Puts segments in place of a span, after which there are so many frames.
#[tactic(auto)]
pub(crate) fn exchange(
    alloc: Global,
    items: &[Segment],
    span: Span,
    put: &[Segment],
    frames: u32,
) -> Result<Made, AllocError>
    requires old { IsLane items.now (length (cells items.now)) }
    requires span { IsSpan span items.now }
    requires put { ArePieces put.now }
    requires new { IsLane (spliced span put.now items.now) frames }
    ensures { IfOk result (λ made. IsMade items.now (spliced span put.now items.now) made) }
{
    let gone = Vec::from_slice(alloc, &items[span.from..span.to])?;
    let made = spliced_list(alloc, items, span, put)?;
    let count = frame_count(put) as u32;
    let patch = Patch::of(span.at, count, Segments::from_vec(gone));
    Ok(Made {
        items: made,
        frames,
        patch,
    })
}

/// Makes a change, where the list stays within the limits.
#[tactic(auto)]
pub(crate) fn make(
    alloc: Global,
    items: &[Segment],
    frames: u32,
    change: &Change,
) -> Result<Made, ApplyFault>
    requires lane { IsLane items.now frames }
    requires span { IsSpan change.now.span items.now }
    requires put { ArePieces change.now.put.items }
    ensures { Makes items.now (spliced change.now.span change.now.put.items items.now) result }
{
    let span = change.span;
    let gone = frame_count(&items[span.from..span.to]);
    let count = (u64::from(frames) - gone).saturating_add(frame_count(&change.put));
    if count > u64::from(MAX_FRAMES) {
        return Err(ApplyFault::Refused(EditRefusal::TooManyFrames));
    }
    let kept = items.len() - (span.to - span.from);
    if change.put.len() > MAX_SEGMENTS as usize - kept {
        return Err(ApplyFault::Refused(EditRefusal::TooManySegments));
    }
    match exchange(alloc, items, span, &change.put, count as u32) {
        Ok(made) => Ok(made),
        Err(_) => Err(ApplyFault::NoMemory),
    }
}

/// Puts a patch's segments in their place.
pub(crate) fn revert(
    alloc: Global,
    items: &[Segment],
    frames: u32,
    patch: &Patch,
) -> Result<Made, AllocError>
    requires lane { IsLane items.now frames }
    requires fits { IsPatchOf patch.now (cells items.now) }
    ensures { IfOk result (λ made. IsReverted patch.now items.now made) }
{
    let first = match cut_at(items, patch.at()) {
        Some(cut) => cut,
        None => unreachable!(),
    };
    let last = match cut_after(items, first, patch.count()) {
        Some(cut) => cut,
        None => unreachable!(),
    };
    let span = Span {
        at: first.start,
        from: first.index,
        to: last.index,
    };
    let put = patch.segments();
    let total = u64::from(frames) - u64::from(patch.count()) + frame_count(put);
    exchange(alloc, items, span, put, total as u32)
}
