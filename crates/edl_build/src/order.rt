//! Parts in the order of the record, and the segments that they are.

ghost use Rattle.std.specs.Prelude.{◌≡◌, ◌∷◌, ◌++◌, ◌-◌, [], OnOk, IfOk, Ok, Err};
ghost use Rattle.edl_text.specs.List.{Gives};
ghost use Rattle.edl_build.specs.Build.{IsOrdered, gap, start_of, laid_from, laid};

use crate::part::Part;
use edl_text::{EdlFault, EdlWhy};
use std::alloc::{AllocError, Global};
use tl_model::{Segment, Side};

/// Sorts parts by their starts; those of one start keep their order.
pub fn sort(parts: &mut Vec<Part>) -> Result<(), AllocError>
    ensures { OnOk result (IsOrdered parts.old.items parts.new.items) }
{
    parts.sort_by_key(|part| part.start)?;
    Ok(())
}

/// Puts a part at the end, after black up to its start.
fn put_part(segments: &mut Vec<Segment>, at: u32, part: &Part) -> Result<(), AllocError>
    ensures { OnOk result (segments.new.items ≡ segments.old.items ++ (gap (part.now.start - at) ++ part.now.segment ∷ [])) }
{
    let black = part.start.saturating_sub(at);
    if black > 0 {
        segments.push(Segment {
            first: Side::Black,
            len: black,
            mix: None,
        })?;
    }
    segments.push(part.segment)?;
    Ok(())
}

/// Where the first part begins.
fn start_of(parts: &[Part]) -> u32
    ensures { result ≡ start_of parts.now }
{
    match parts {
        [first, ..] => first.start,
        [] => 0,
    }
}

/// The segments of parts in order.
#[tactic(auto, unfolding(crate::specs::Build::laid_from))]
pub fn lay(alloc: Global, parts: &[Part]) -> Result<Vec<Segment>, EdlFault>
    ensures { Gives (λ v. v.items) result (laid parts.now) }
{
    let mut segments = Vec::new(alloc);
    let mut at = start_of(parts);
    for part in parts {
        if part.start < at {
            return Err(EdlFault::Line {
                n: part.line,
                why: EdlWhy::Overlap,
            });
        }
        put_part(&mut segments, at, part)?;
        at = part.end;
    }
    Ok(segments)
}
