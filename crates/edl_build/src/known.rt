//! The clips by their names.

ghost use Rattle.std.specs.Prelude.{◌≡◌, ℕ, ◌+◌, ◌≤◌, List, length, IfOk, OnOk, Some, None, option_map, if◌then◌else◌};
ghost use Rattle.std.specs.Option.{option_or};
ghost use Rattle.std.specs.Str.{bytes_eq};
ghost use Rattle.tl_limits.specs.Limits.{max_clips};
ghost use Rattle.edl_build.specs.Clip.{clip_from, known_at};

use std::alloc::{AllocError, Global};
use std::collections::HashMap;
use tl_model::Clips;

/// A clip's number and its start.
pub type Known<'a> = HashMap<&'a str, (u32, u32)>;

/// Keeps a clip where no earlier one has its name.
fn put_clip<'a>(known: &mut Known<'a>, name: &'a str, clip: (u32, u32)) -> Result<(), AllocError>
    ensures { OnOk result ((other : List ℕ) → known_at known.new other
        ≡ option_or (known_at known.old other) (if bytes_eq name.now other then Some clip else None)) }
{
    if !known.contains_key(name) {
        known.insert(name, clip)?;
    }
    Ok(())
}

/// The first clip of each name.
pub fn known_of<'a>(alloc: Global, clips: &'a Clips) -> Result<Known<'a>, AllocError>
    requires { length clips.now ≤ max_clips }
    ensures { IfOk result (λ known. (name : List ℕ) → known_at known name ≡ clip_from 0 clips.now name) }
{
    let mut known = HashMap::new(alloc);
    let mut number = 0;
    for (name, start) in clips.as_slice() {
        put_clip(&mut known, name.as_str(), (number, *start))?;
        number += 1;
    }
    Ok(known)
}
