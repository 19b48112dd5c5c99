//! The names of a session's clips.

ghost use Rattle.std.specs.Prelude.{◌≡◌, IfOk};

use crate::name::Name;
use std::alloc::{AllocError, Global};
use std::marker::Model;

/// The name and the start of each clip, by its number. A start is the frame number of the clip's first timecode.
#[derive(Debug, Drop)]
pub struct Clips {
    items: Vec<(Name, u32)>,
}

impl Model for Clips {
    ghost use Rattle.std.specs.Prelude.{List, ℕ};

    ghost Value = { List (List ℕ × ℕ) };

    ghost view = { λ c. c.items.items };
}

fn copies(alloc: Global, items: &[(Name, u32)]) -> Result<Vec<(Name, u32)>, AllocError>
    ensures { IfOk result (λ v. v.items ≡ items.now) }
{
    let mut copied = Vec::with_capacity(alloc, items.len())?;
    for (name, start) in items {
        let name = name.copy(alloc)?;
        copied.push((name, *start))?;
    }
    Ok(copied)
}

impl Clips {
    pub fn from_vec(items: Vec<(Name, u32)>) -> Clips
        ensures { result ≡ items.items }
    {
        Clips { items }
    }

    pub fn as_slice(&self) -> &[(Name, u32)]
        ensures { result.now ≡ self.now }
    {
        self.items.as_slice()
    }

    pub fn copy(&self, alloc: Global) -> Result<Clips, AllocError>
        ensures { IfOk result (λ c. c ≡ self.now) }
    {
        let items = copies(alloc, self.items.as_slice())?;
        Ok(Clips { items })
    }
}
