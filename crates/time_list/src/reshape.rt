//! Edits that put another segment in a segment's place.

ghost use Rattle.std.specs.Prelude.{◌≡◌, ◌+◌, ◌-◌, ◌^◌, ◌<◌, ◌≤◌, pos, negsuc};
ghost use Rattle.tl_limits.specs.Limits.{max_frames};
ghost use Rattle.tl_model.specs.Cells.{cells_of};
ghost use Rattle.tl_model.specs.Edit.{IsNear};
ghost use Rattle.tl_model.specs.Segment.{IsPiece};
ghost use Rattle.time_list.specs.Changes.{Shortens, Reshapes, IsReshape, reshaped};
ghost use Rattle.time_list.specs.Edits as edits;
ghost use Rattle.time_list.specs.Parts.{last_side};

use crate::{piece, taken};
use tl_limits::MAX_MIX;
use tl_model::{EditRefusal, Media, Mix, Segment, Side};

/// An edit of a segment's own frames.
#[derive(Clone, Copy)]
pub(crate) enum Reshape {
    TrimIn { by: i32 },
    TrimOut { by: i32 },
    Slip { by: i32 },
    Relink { clip: u32, first: u32 },
}

fn shorten_in(segment: &Segment, by: u32) -> Result<Segment, EditRefusal>
    requires { IsPiece segment.now }
    ensures { Shortens (edits.shortened_in by (cells_of segment.now)) result }
{
    if by >= segment.len {
        return Err(EditRefusal::PastEnd);
    }
    Ok(piece::back(segment, by))
}

fn shorten_out(segment: &Segment, by: u32) -> Result<Segment, EditRefusal>
    requires { IsPiece segment.now }
    ensures { Shortens (edits.shortened_out by (cells_of segment.now)) result }
{
    if by >= segment.len {
        return Err(EditRefusal::PastEnd);
    }
    Ok(piece::front(segment, segment.len - by))
}

fn lengthen_in<M: Media>(media: &M, segment: &Segment, by: u32) -> Result<Segment, EditRefusal>
    requires piece { IsPiece segment.now }
    requires some { 1 ≤ by }
    requires fits { segment.now.len + by < 2 ^ 32 }
    ensures { Reshapes (M.library media.now) (edits.lengthened_in by (cells_of segment.now)) result }
{
    let first = taken::before(segment.first, by);
    let early = taken::is_early(segment.first, by);
    match taken::check(media, first, 0, by, early) {
        Err(why) => Err(why),
        Ok(()) => Ok(Segment {
            first,
            len: segment.len + by,
            mix: None,
        }),
    }
}

fn lengthen_out<M: Media>(media: &M, segment: &Segment, by: u32) -> Result<Segment, EditRefusal>
    requires piece { IsPiece segment.now }
    requires some { 1 ≤ by }
    requires fits { segment.now.len + by < 2 ^ 32 }
    ensures { Reshapes (M.library media.now) (edits.lengthened_out by (cells_of segment.now)) result }
{
    match taken::check(media, segment.first, segment.len, by, false) {
        Err(why) => Err(why),
        Ok(()) => Ok(Segment {
            len: segment.len + by,
            ..*segment
        }),
    }
}

fn slip_on<M: Media>(media: &M, segment: &Segment, by: u32) -> Result<Segment, EditRefusal>
    requires { IsPiece segment.now }
    ensures { Reshapes (M.library media.now) (edits.slipped (pos by) (cells_of segment.now)) result }
{
    match taken::check(media, segment.first, by, segment.len, false) {
        Err(why) => Err(why),
        Ok(()) => Ok(Segment {
            first: segment.first.moved(by),
            ..*segment
        }),
    }
}

fn slip_back<M: Media>(media: &M, segment: &Segment, by: u32) -> Result<Segment, EditRefusal>
    requires piece { IsPiece segment.now }
    requires some { 1 ≤ by }
    ensures { Reshapes (M.library media.now) (edits.slipped (negsuc (by - 1)) (cells_of segment.now)) result }
{
    let first = taken::before(segment.first, by);
    let early = taken::is_early(segment.first, by);
    match taken::check(media, first, 0, segment.len, early) {
        Err(why) => Err(why),
        Ok(()) => Ok(Segment { first, ..*segment }),
    }
}

fn relink<M: Media>(
    media: &M,
    segment: &Segment,
    clip: u32,
    first: u32,
) -> Result<Segment, EditRefusal>
    requires { IsPiece segment.now }
    ensures { Reshapes (M.library media.now) (edits.relinked clip first (cells_of segment.now)) result }
{
    let side = Side::Clip { clip, frame: first };
    match taken::check(media, side, 0, segment.len, false) {
        Err(why) => Err(why),
        Ok(()) => Ok(Segment {
            first: side,
            ..*segment
        }),
    }
}

fn trim_in<M: Media>(media: &M, segment: &Segment, by: i32) -> Result<Segment, EditRefusal>
    requires piece { IsPiece segment.now }
    requires short { segment.now.len ≤ max_frames }
    requires near { IsNear by }
    ensures { Reshapes (M.library media.now) (edits.trimmed_in by (cells_of segment.now)) result }
{
    if by < 0 {
        lengthen_in(media, segment, by.unsigned_abs())
    } else {
        shorten_in(segment, by.unsigned_abs())
    }
}

fn trim_out<M: Media>(media: &M, segment: &Segment, by: i32) -> Result<Segment, EditRefusal>
    requires piece { IsPiece segment.now }
    requires short { segment.now.len ≤ max_frames }
    requires near { IsNear by }
    ensures { Reshapes (M.library media.now) (edits.trimmed_out by (cells_of segment.now)) result }
{
    if by < 0 {
        lengthen_out(media, segment, by.unsigned_abs())
    } else {
        shorten_out(segment, by.unsigned_abs())
    }
}

fn slip<M: Media>(media: &M, segment: &Segment, by: i32) -> Result<Segment, EditRefusal>
    requires piece { IsPiece segment.now }
    requires near { IsNear by }
    ensures { Reshapes (M.library media.now) (edits.slipped by (cells_of segment.now)) result }
{
    if by < 0 {
        slip_back(media, segment, by.unsigned_abs())
    } else {
        slip_on(media, segment, by.unsigned_abs())
    }
}

/// The segment in place of another, or why there is none.
pub(crate) fn reshaped<M: Media>(
    media: &M,
    segment: &Segment,
    how: Reshape,
) -> Result<Segment, EditRefusal>
    requires piece { IsPiece segment.now }
    requires short { segment.now.len ≤ max_frames }
    requires formed { IsReshape how }
    ensures { Reshapes (M.library media.now) (reshaped how (cells_of segment.now)) result }
{
    match how {
        Reshape::TrimIn { by } => trim_in(media, segment, by),
        Reshape::TrimOut { by } => trim_out(media, segment, by),
        Reshape::Slip { by } => slip(media, segment, by),
        Reshape::Relink { clip, first } => relink(media, segment, clip, first),
    }
}

/// The segment with a dissolve of `len` frames from the segment before it, or with none where `len` is 0.
pub(crate) fn dissolve<M: Media>(
    media: &M,
    segment: &Segment,
    before: &Segment,
    len: u32,
) -> Result<Segment, EditRefusal>
    requires piece { IsPiece segment.now }
    requires before { IsPiece before.now }
    ensures { Reshapes (M.library media.now) (edits.with_dissolve (last_side (cells_of before.now)) len (cells_of segment.now)) result }
{
    if len == 0 {
        return Ok(Segment {
            mix: None,
            ..*segment
        });
    }
    let shown = len.min(segment.len);
    match taken::check(media, before.first, before.len, shown, false) {
        Err(why) => Err(why),
        Ok(()) => {
            if len > segment.len {
                return Err(EditRefusal::MixTooLong);
            }
            if len > MAX_MIX {
                return Err(EditRefusal::MixTooLong);
            }
            let mix = Mix {
                from: before.first.moved(before.len),
                done: 0,
                steps: len,
                total: len,
            };
            Ok(Segment {
                mix: Some(mix),
                ..*segment
            })
        }
    }
}
