//! What leads a timeline back to what it was.

ghost use Rattle.std.specs.Prelude.{◌≡◌};
ghost use Rattle.tl_model.specs.Cells.{cells};
ghost use Rattle.tl_model.specs.Segment.{ArePieces};

use std::marker::Model;
use tl_model::{Segment, Segments};

/// Segments to stand in place of `count` frames from frame `at` on. Each of them is well formed, and its frames have
/// 32-bit numbers.
#[derive(Debug, Drop)]
pub struct Patch {
    at: u32,
    count: u32,
    segments: Segments,
}

impl Model for Patch {
    ghost use Rattle.tl_model.specs.Cells.{cells};
    ghost use Rattle.tl_model.specs.Segment.{ArePieces};
    ghost use Rattle.time_list.specs.Patch.{PatchOf};

    ghost Value = { PatchOf };

    ghost view = { λ p. record { at = p.at; count = p.count; cells = cells p.segments } };

    ghost invariant = { λ p. ArePieces p.segments };
}

impl Patch {
    pub fn of(at: u32, count: u32, segments: Segments) -> Patch
        requires { ArePieces segments }
        ensures { result ≡ record { at = at; count = count; cells = cells segments } }
    {
        Patch {
            at,
            count,
            segments,
        }
    }

    /// The first frame that gives way.
    pub fn at(&self) -> u32
        ensures { result ≡ self.now.at }
    {
        self.at
    }

    /// The number of frames that give way.
    pub fn count(&self) -> u32
        ensures { result ≡ self.now.count }
    {
        self.count
    }

    /// The segments that stand in their place.
    pub fn segments(&self) -> &[Segment]
        ensures cells { cells result.now ≡ self.now.cells }
        ensures pieces { ArePieces result.now }
    {
        self.segments.as_slice()
    }
}
