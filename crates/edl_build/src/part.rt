//! What each event adds.

ghost use Rattle.std.specs.Prelude.{◌≡◌, ℕ, ◌-◌, List, Some, None, option_map, IfOk};
ghost use Rattle.edl_build.specs.Clip.{known_at};
ghost use Rattle.edl_build.specs.Part.{is_outgoing, is_followed, has_lengths, name_taken, clip_for, clip_named, side_at, shown, mix_of, part_of, added};

use crate::known::Known;
use edl_text::{EdlWhy, Event, Text};
use tl_model::{Mix, Segment, Side};

/// A segment, and where it lies in the record. `line` is that of its event.
#[derive(Clone, Copy)]
pub struct Part {
    pub line: u32,
    pub start: u32,
    pub end: u32,
    pub segment: Segment,
}

/// What an event adds: the outgoing side of the dissolve after it, or a part.
#[derive(Clone, Copy)]
pub enum Addition {
    Outgoing(Side),
    Whole(Part),
}

/// Whether an event is the outgoing side of a dissolve.
fn is_outgoing(event: &Event) -> bool
    ensures { result ≡ is_outgoing event.now }
{
    event.duration.is_none() && event.record_in == event.record_out
}

/// Whether a dissolve of the same number follows.
fn is_followed(event: &Event, next: Option<&Event>) -> bool
    ensures { result ≡ is_followed event.now (option_map (λ e. e.now) next.entry) }
{
    match next {
        None => false,
        Some(next) => next.duration.is_some() && event.number == next.number,
    }
}

fn has_lengths(event: &Event) -> bool
    ensures { result ≡ has_lengths event.now }
{
    event.source_in <= event.source_out
        && event.record_in <= event.record_out
        && event.source_out - event.source_in == event.record_out - event.record_in
        && (event.duration.is_none() || event.record_in < event.record_out)
}

fn clip_named(known: &Known<'_>, name: &str) -> Result<Option<(u32, u32)>, EdlWhy>
    ensures { result ≡ clip_named (known_at known.now) (Some name.now) }
{
    match known.get(name) {
        Some(clip) => Ok(Some(*clip)),
        None => Err(EdlWhy::UnknownClip),
    }
}

/// The clip that an event shows, or none for black.
fn clip_for(known: &Known<'_>, event: &Event) -> Result<Option<(u32, u32)>, EdlWhy>
    ensures { result ≡ clip_for (known_at known.now) event.now }
{
    if event.reel.as_str().as_bytes() == b"BL".as_slice() {
        Ok(None)
    } else if event.reel.as_str().as_bytes() == b"AX".as_slice() {
        taken(known, event)
    } else {
        clip_named(known, event.reel.as_str())
    }
}

/// The clip of the name that an event of the reel `AX` takes.
fn taken(known: &Known<'_>, event: &Event) -> Result<Option<(u32, u32)>, EdlWhy>
    ensures { result ≡ clip_named (known_at known.now) (name_taken event.now) }
{
    let name = match event.duration {
        Some(_) => &event.to,
        None => &event.from,
    };
    match name {
        Some(name) => clip_named(known, name.as_str()),
        None => Err(EdlWhy::UnknownClip),
    }
}

fn side_at(clip: Option<(u32, u32)>, source: u32) -> Result<Side, EdlWhy>
    ensures { result ≡ side_at clip source }
{
    match clip {
        None => Ok(Side::Black),
        Some((number, start)) => {
            if source < start {
                Err(EdlWhy::OutsideClip)
            } else {
                Ok(Side::Clip {
                    clip: number,
                    frame: source - start,
                })
            }
        }
    }
}

/// The side that an event shows.
#[tactic(auto, unfolding(crate::specs::Part::shown))]
fn shown(known: &Known<'_>, event: &Event) -> Result<Side, EdlWhy>
    ensures { result ≡ shown (known_at known.now) event.now }
{
    let clip = clip_for(known, event)?;
    if has_lengths(event) {
        side_at(clip, event.source_in)
    } else {
        Err(EdlWhy::Span)
    }
}

fn mix_of(duration: Option<u32>, from: Option<Side>) -> Result<Option<Mix>, EdlWhy>
    ensures { result ≡ mix_of duration from }
{
    match (duration, from) {
        (None, _) => Ok(None),
        (Some(_), None) => Err(EdlWhy::PairMissing),
        (Some(0), Some(_)) => Ok(None),
        (Some(frames), Some(from)) => Ok(Some(Mix {
            from,
            done: 0,
            steps: frames,
            total: frames,
        })),
    }
}

fn part_of(event: &Event, first: Side, mix: Option<Mix>) -> Part
    ensures { result ≡ part_of event.now first mix }
{
    Part {
        line: event.line,
        start: event.record_in,
        end: event.record_out,
        segment: Segment {
            first,
            len: event.record_out.saturating_sub(event.record_in),
            mix,
        },
    }
}

/// What an event adds after the outgoing side `from`, where there is one.
#[tactic(auto, unfolding(crate::specs::Part::added))]
pub fn added(
    known: &Known<'_>,
    from: Option<Side>,
    event: &Event,
    next: Option<&Event>,
) -> Result<Addition, EdlWhy>
    ensures { result ≡ added (known_at known.now) from event.now (option_map (λ e. e.now) next.entry) }
{
    if is_outgoing(event) {
        if is_followed(event, next) {
            let side = shown(known, event)?;
            Ok(Addition::Outgoing(side))
        } else {
            Err(EdlWhy::PairMissing)
        }
    } else {
        let mix = mix_of(event.duration, from)?;
        let side = shown(known, event)?;
        Ok(Addition::Whole(part_of(event, side, mix)))
    }
}
