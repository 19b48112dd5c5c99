//! A list of segments, searched and cut at a frame.

ghost use Rattle.std.specs.Prelude.{◌≡◌, ◌+◌, ◌<◌, ◌≤◌, ◌^◌, ◌++◌, min, length, drop, slice_get, Some, MatchOption, IfOk, OnOk};
ghost use Rattle.tl_model.specs.Cells.{cells, recipes, is_among};
ghost use Rattle.tl_model.specs.Segment.{ArePieces};
ghost use Rattle.time_list.specs.Changes.{IsInside, IsCutAt};
ghost use Rattle.time_list.specs.Pieces.{fronts, backs};

use crate::piece;
use std::alloc::AllocError;
use std::sync::ledger::Ledger;
use tl_model::{Recipe, Segment, Steps};

/// A place between frames: `offset` frames after the start of the segment at `index`, before which there are `start`.
#[derive(Clone, Copy)]
pub(crate) struct Cut {
    pub(crate) index: usize,
    pub(crate) start: u32,
    pub(crate) offset: u32,
}

/// The recipe of frame `n`. Each segment that is looked at is a step.
#[tactic(auto, using(crate::proofs::Steps::recipe_steps))]
pub(crate) fn recipe_at<K: Ledger>(items: &[Segment], n: u32, steps: &mut Steps<K>) -> Recipe
    requires pieces { ArePieces items.now }
    requires at { n < length (cells items.now) }
    ensures recipe { slice_get (recipes (cells items.now)) n ≡ Some result }
    ensures counted { steps.old < steps.new }
    ensures few { steps.new ≤ steps.old + length items.now }
{
    let mut left = n;
    for segment in items {
        steps.tick();
        if left < segment.len {
            return segment.recipe_at(left);
        }
        left -= segment.len;
    }
    unreachable!()
}

/// Whether some frame has that recipe.
#[tactic(auto, using(crate::proofs::Steps::use_steps))]
pub(crate) fn uses(items: &[Segment], recipe: Recipe) -> bool
    requires { ArePieces items.now }
    ensures { result ≡ is_among recipe (recipes (cells items.now)) }
{
    for segment in items {
        if piece::uses(segment, recipe) {
            return true;
        }
    }
    false
}

/// The place `by` frames after another; none where it is past the end.
#[tactic(auto, using(crate::proofs::Places::cut_steps))]
pub(crate) fn cut_after(items: &[Segment], from: Cut, by: u32) -> Option<Cut>
    requires fits { from.start + from.offset + by < 2 ^ 32 }
    requires cut { IsCutAt items.now (from.start + from.offset) from }
    ensures { MatchOption result (length (cells items.now) < from.start + from.offset + by)
        (λ cut. IsCutAt items.now (from.start + from.offset + by) cut × (from.index ≤ cut.index)) }
{
    let mut start = from.start;
    let mut offset = from.offset + by;
    for index in from.index..items.len() {
        let len = items[index].len;
        if offset < len {
            return Some(Cut {
                index,
                start,
                offset,
            });
        }
        start += len;
        offset -= len;
    }
    if offset == 0 {
        Some(Cut {
            index: items.len(),
            start,
            offset,
        })
    } else {
        None
    }
}

/// The place before frame `at`; none where it is past the end.
#[tactic(auto, using(crate::proofs::Places::start_steps))]
pub(crate) fn cut_at(items: &[Segment], at: u32) -> Option<Cut>
    requires { ArePieces items.now }
    ensures { MatchOption result (length (cells items.now) < at) (λ cut. IsCutAt items.now at cut) }
{
    let start = Cut {
        index: 0,
        start: 0,
        offset: 0,
    };
    cut_after(items, start, at)
}

/// The place of frame `at` in its segment; none where there is no such frame.
#[tactic(auto, using(crate::proofs::Places::frame_steps))]
pub(crate) fn frame_at(items: &[Segment], at: u32) -> Option<Cut>
    requires { ArePieces items.now }
    ensures { MatchOption result (length (cells items.now) ≤ at) (λ cut. IsCutAt items.now at cut × (cut.index < length items.now)) }
{
    let cut = cut_at(items, at)?;
    if cut.index < items.len() {
        Some(cut)
    } else {
        None
    }
}

/// Adds the frames before the place in its segment.
#[tactic(auto, using(crate::proofs::Places::front_steps))]
pub(crate) fn push_front(
    items: &[Segment],
    cut: Cut,
    into: &mut Vec<Segment>,
) -> Result<(), AllocError>
    requires within { cut.index ≤ length items.now }
    requires inside { IsInside cut.offset (drop cut.index items.now) }
    ensures { OnOk result (into.new.items ≡ into.old.items ++ fronts (drop cut.index items.now) cut.offset) }
{
    if cut.offset > 0 {
        into.push(piece::front(&items[cut.index], cut.offset))?;
    }
    Ok(())
}

/// Adds the frames after the place in its segment, where it is cut, and answers the index of the next one.
#[tactic(auto, using(crate::proofs::Places::back_steps))]
pub(crate) fn push_back(
    items: &[Segment],
    cut: Cut,
    into: &mut Vec<Segment>,
) -> Result<usize, AllocError>
    requires within { cut.index ≤ length items.now }
    requires inside { IsInside cut.offset (drop cut.index items.now) }
    requires pieces { ArePieces items.now }
    ensures next { IfOk result (λ next. into.new.items ++ drop next items.now
        ≡ into.old.items ++ backs (drop cut.index items.now) cut.offset) }
    ensures order { IfOk result (λ next. cut.index ≤ next) }
    ensures within { IfOk result (λ next. next ≤ length items.now) }
{
    if cut.offset > 0 {
        into.push(piece::back(&items[cut.index], cut.offset))?;
        Ok(cut.index + 1)
    } else {
        Ok(cut.index)
    }
}

/// The place `by` frames after another, or the end where that is nearer.
#[tactic(auto, using(crate::proofs::Places::end_steps))]
pub(crate) fn end_after(items: &[Segment], from: Cut, by: u32) -> Cut
    requires fits { from.start + from.offset + by < 2 ^ 32 }
    requires cut { IsCutAt items.now (from.start + from.offset) from }
    ensures cut { IsCutAt items.now (result.start + result.offset) result }
    ensures order { from.index ≤ result.index }
    ensures place { result.start + result.offset ≡ min (from.start + from.offset + by) (length (cells items.now)) }
{
    let mut start = from.start;
    let mut offset = from.offset + by;
    for index in from.index..items.len() {
        let len = items[index].len;
        if offset < len {
            return Cut {
                index,
                start,
                offset,
            };
        }
        start += len;
        offset -= len;
    }
    Cut {
        index: items.len(),
        start,
        offset: 0,
    }
}
