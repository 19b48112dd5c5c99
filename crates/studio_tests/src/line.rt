//! A timeline as its sides, one a frame, and what each edit makes of it. No edit here makes a dissolve.

use crate::doing::Change;
use std::alloc::{AllocError, Global};
use tl_model::{EditRefusal, Recipe, Segment, Side};

/// What follows a side after `by` frames.
fn moved(side: Side, by: u32) -> Side {
    match side {
        Side::Black => Side::Black,
        Side::Clip { clip, frame } => Side::Clip {
            clip,
            frame: frame.wrapping_add(by),
        },
    }
}

/// A number made of another one and a side.
fn number_with(number: u64, side: Side) -> u64 {
    let own = match side {
        Side::Black => 1,
        Side::Clip { clip, frame } => u64::from(clip)
            .wrapping_mul(1_000)
            .wrapping_add(u64::from(frame))
            .wrapping_add(2),
    };
    number.wrapping_mul(1_000_003).wrapping_add(own)
}

/// A number made of the sides of a timeline.
pub(crate) fn number_of_line(line: &[Side]) -> u64 {
    let mut number = 0;
    for side in line {
        number = number_with(number, *side);
    }
    number
}

/// The same number, of a timeline that is told as segments. One with a dissolve has the number 0.
pub(crate) fn number_of_segments(segments: &[Segment]) -> u64 {
    let mut number = 0;
    for segment in segments {
        if segment.mix.is_some() {
            return 0;
        }
        for by in 0..segment.len {
            number = number_with(number, moved(segment.first, by));
        }
    }
    number
}

/// Whether a frame shows a recipe.
pub(crate) fn shows(line: &[Side], recipe: Recipe) -> bool {
    for side in line {
        if side.alone() == recipe {
            return true;
        }
    }
    false
}

/// The sides of `len` frames from `first` on, if they are there.
pub(crate) fn range(line: &[Side], first: u32, len: u32) -> Option<&[Side]> {
    let end = u64::from(first) + u64::from(len);
    if end > line.len() as u64 {
        return None;
    }
    Some(&line[first as usize..end as usize])
}

/// Why frames can't be taken from a side on. Of the library of `test_media` the clips 0 and 1 have twenty frames, 2 doesn't fit,
/// and 3 has two frames.
fn refusal(take: Side, len: u32) -> Option<EditRefusal> {
    let Side::Clip { clip, frame } = take else {
        return None;
    };
    if clip > 3 {
        return Some(EditRefusal::NoClip);
    }
    if clip == 2 {
        return Some(EditRefusal::ShapeDiffers);
    }
    let frames = if clip == 3 { 2 } else { 20 };
    if u64::from(frame) + u64::from(len) > frames {
        return Some(EditRefusal::OutsideClip);
    }
    None
}

/// A line in which `len` frames from a side on stand in place of `out` frames from `at` on.
fn spliced(
    alloc: Global,
    line: &[Side],
    at: u32,
    out: u32,
    take: Side,
    len: u32,
) -> Result<Vec<Side>, AllocError> {
    let mut made = Vec::new(alloc);
    let end = u64::from(at) + u64::from(out);
    for side in &line[..(at as usize).min(line.len())] {
        made.push(*side)?;
    }
    for by in 0..len {
        made.push(moved(take, by))?;
    }
    for side in &line[(end as usize).min(line.len())..] {
        made.push(*side)?;
    }
    Ok(made)
}

/// What an edit makes of a line, or why it makes nothing.
pub(crate) fn changed(
    alloc: Global,
    line: &[Side],
    change: Change,
) -> Result<Result<Vec<Side>, EditRefusal>, AllocError> {
    let (at, reach, out, take, len) = match change {
        Change::Insert { at, take, len } => (at, 0, 0, take, len),
        Change::Overwrite { at, take, len } => (at, 0, len, take, len),
        Change::Extract { at, len } => (at, len, len, Side::Black, 0),
        Change::Lift { at, len } => (at, len, len, Side::Black, len),
    };
    if range(line, at, reach).is_none() {
        return Ok(Err(EditRefusal::PastEnd));
    }
    match refusal(take, len) {
        Some(why) => Ok(Err(why)),
        None => Ok(Ok(spliced(alloc, line, at, out, take, len)?)),
    }
}
