//! Building the segments of an edit list.

ghost use Rattle.std.specs.Prelude.{◌≡◌, ◌≤◌, ◌++◌, ℕ, List, length, option_map, All, IfOk, Ok, None};
ghost use Rattle.tl_limits.specs.Limits.{max_clips};
ghost use Rattle.edl_text.specs.List.{at_line, Gives};
ghost use Rattle.edl_text.specs.Timed.{IsTimed};
ghost use Rattle.tl_model.specs.Edit.{IsReplacement};
ghost use Rattle.edl_build.specs.Clip.{clip_from, known_at};
ghost use Rattle.edl_build.specs.Part.{added};
ghost use Rattle.edl_build.specs.Build.{parts_from, laid, IsBuilt};

use crate::known::{Known, known_of};
use crate::order::{lay, sort};
use crate::part::{Addition, Part, added};
use edl_text::{Edl, EdlFault, Event};
use std::alloc::Global;
use tl_model::{Clips, Segments, Side};

/// What an event adds, or its fault at its line.
fn addition_of(
    known: &Known<'_>,
    from: Option<Side>,
    event: &Event,
    next: Option<&Event>,
) -> Result<Addition, EdlFault>
    ensures { result ≡ at_line event.now.line (added (known_at known.now) from event.now (option_map (λ e. e.now) next.entry)) }
{
    match added(known, from, event, next) {
        Ok(addition) => Ok(addition),
        Err(why) => Err(EdlFault::Line { n: event.line, why }),
    }
}

/// The parts of all events.
#[tactic(auto, unfolding(crate::specs::Build::parts_from))]
fn parts_of(alloc: Global, known: &Known<'_>, events: &[Event]) -> Result<Vec<Part>, EdlFault>
    ensures { Gives (λ v. v.items) result (parts_from (known_at known.now) None events.now) }
{
    let mut parts = Vec::new(alloc);
    let mut from = None;
    let mut left = events;
    while let [event, rest @ ..] = left {
        match addition_of(known, from, event, rest.first())? {
            Addition::Outgoing(side) => {
                from = Some(side);
            }
            Addition::Whole(part) => {
                from = None;
                parts.push(part)?;
            }
        }
        left = rest;
    }
    Ok(parts)
}

/// The segments of an edit list over a session's clips. Where it has faults, the first line's in this order: `PairMissing`,
/// `UnknownClip`, `Span`, `OutsideClip`. Where no line has one of these, `Overlap` at the first event in the order of the record that
/// begins before the one before it ends. The segments of a list that `read_edl` gave may take a timeline's place: each is well formed.
pub fn build(alloc: Global, edl: &Edl, clips: &Clips) -> Result<Segments, EdlFault>
    requires { length clips.now ≤ max_clips }
    ensures exact { IsBuilt clips.now edl.now.events result }
    ensures formed { All IsTimed edl.now.events → IfOk result (All IsReplacement) }
{
    let known = known_of(alloc, clips)?;
    let mut parts = parts_of(alloc, &known, edl.events.as_slice())?;
    sort(&mut parts)?;
    match lay(alloc, &parts) {
        Ok(segments) => Ok(Segments::from_vec(segments)),
        Err(fault) => Err(fault),
    }
}
