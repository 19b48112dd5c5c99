//! Segments: runs of frames that follow one another in a clip, or black.

ghost use Rattle.std.specs.Prelude.{◌≡◌, ◌↔◌, ◌+◌, ◌*◌, ◌/◌, ◌<◌, ◌≤◌, IsTrue, IfOk};
ghost use Rattle.tl_model.specs.Cells.{cell_at, recipe_of};
ghost use Rattle.tl_model.specs.Segment.{IsMix, IsSegment, IsPiece};

use crate::recipe::{Mix, Recipe, Side};
use std::alloc::{AllocError, Global};
use std::marker::Model;

/// `len` frames from the side `first` on, with a dissolve at their start or none.
#[derive(Clone, Copy, Debug, PartialEq, Eq)]
pub struct Segment {
    pub first: Side,
    pub len: u32,
    pub mix: Option<Mix>,
}

fn is_mix(mix: Option<Mix>) -> bool
    ensures { IsTrue result ↔ IsMix mix }
{
    match mix {
        None => true,
        Some(mix) => {
            1 <= mix.steps && u64::from(mix.done) + u64::from(mix.steps) <= u64::from(mix.total)
        }
    }
}

fn weight(step: u32, total: u32) -> u8
    requires { step ≤ total }
    ensures { result ≡ 256 * step / (total + 1) }
{
    (256 * u64::from(step) / (u64::from(total) + 1)) as u8
}

impl Segment {
    /// Whether the segment has a frame, and its dissolve a step and no step after its total.
    pub fn is_well_formed(&self) -> bool
        ensures { IsTrue result ↔ IsSegment self.now }
    {
        1 <= self.len && is_mix(self.mix)
    }

    /// The recipe of frame `i`, counted from 0 at the segment's start.
    pub fn recipe_at(&self, i: u32) -> Recipe
        requires piece { IsPiece self.now }
        requires at { i < self.now.len }
        ensures { result ≡ recipe_of (cell_at self.now i) }
    {
        let side = self.first.moved(i);
        match self.mix {
            None => side.alone(),
            Some(mix) => {
                if i < mix.steps {
                    Recipe::Mix {
                        from: mix.from.moved(i),
                        to: side,
                        weight: weight(mix.done + i + 1, mix.total),
                    }
                } else {
                    side.alone()
                }
            }
        }
    }
}

/// A list of segments.
#[derive(Debug, Drop)]
pub struct Segments {
    items: Vec<Segment>,
}

impl Model for Segments {
    ghost use Rattle.std.specs.Prelude.{List};
    ghost use Rattle.tl_model.specs.declared.segment.Segment.{Segment};

    ghost Value = { List Segment };

    ghost view = { λ s. s.items.items };
}

impl Segments {
    pub fn from_vec(items: Vec<Segment>) -> Segments
        ensures { result ≡ items.items }
    {
        Segments { items }
    }

    pub fn as_slice(&self) -> &[Segment]
        ensures { result.now ≡ self.now }
    {
        self.items.as_slice()
    }

    pub fn copy(&self, alloc: Global) -> Result<Segments, AllocError>
        ensures { IfOk result (λ s. s ≡ self.now) }
    {
        let items = Vec::from_slice(alloc, self.items.as_slice())?;
        Ok(Segments { items })
    }
}
