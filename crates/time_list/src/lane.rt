//! A timeline under edits.

ghost use Rattle.std.specs.Prelude.{◌≡◌, ℕ, ◌<◌, List, [], length, slice_get, Some, Ok, IfOk};
ghost use Rattle.tl_model.specs.Cells.{Cell, segment_count, recipes, is_among};
ghost use Rattle.tl_model.specs.Cells as model;
ghost use Rattle.tl_model.specs.Edit.{IsEdit};
ghost use Rattle.tl_model.specs.Segment.{ArePieces};
ghost use Rattle.tl_model.specs.Sound.{IsSound};
ghost use Rattle.time_list.specs.Apply.{apply, Applies};
ghost use Rattle.time_list.specs.Patch.{IsPatchOf, Reverts};

use crate::patch::Patch;
use std::alloc::{AllocError, Global};
use std::marker::Brand;
use std::sync::ledger::{Blank, Ledger};
use tl_model::{Edit, EditRefusal, Media, Recipe, Segments, Steps};

/// Why an edit wasn't made. The timeline is then as before.
#[derive(Clone, Copy, Debug, PartialEq, Eq)]
pub enum ApplyFault {
    Refused(EditRefusal),
    /// Memory ran out.
    NoMemory,
}

/// A timeline of at most 1,000,000 frames and 100,000 segments.
pub trait Lane: Drop {
    /// The cells, one a frame.
    ghost cells: { Self → List Cell };

    /// The timeline of no frames. It takes no memory.
    fn blank(alloc: Global) -> Self
        ensures { cells result ≡ [] };

    /// The number of frames.
    fn frames(&self) -> u32
        ensures { result ≡ length (cells self.now) };

    /// The number of segments.
    fn segments(&self) -> u32
        ensures { result ≡ segment_count (cells self.now) };

    /// The recipe of frame `n`. What is looked at is counted in `steps`.
    fn recipe_at<K: Ledger>(&self, n: u32, steps: &mut Steps<K>) -> Recipe
        requires { n < length (cells self.now) }
        ensures { slice_get (recipes (cells self.now)) n ≡ Some result };

    /// Whether some frame has that recipe.
    fn uses(&self, recipe: Recipe) -> bool
        ensures { result ≡ is_among recipe (recipes (cells self.now)) };

    /// Makes an edit, and answers the patch that leads back. A refusal is the first in the order of `EditRefusal`.
    fn apply<M: Media>(
        &mut self,
        alloc: Global,
        media: &M,
        edit: &Edit,
    ) -> Result<Patch, ApplyFault>
        requires sound { IsSound (M.library media.now) (cells self.old) }
        requires formed { IsEdit edit.now }
        ensures { Applies (apply (M.library media.now) edit.now (cells self.old)) (cells self.old) (cells self.new) result };

    /// Puts a patch's cells in their place, and answers the patch that leads back. Where memory runs out the patch comes
    /// back, and the timeline is as before.
    fn revert(&mut self, alloc: Global, patch: Patch) -> Result<Patch, (Patch, AllocError)>
        requires { IsPatchOf patch (cells self.old) }
        ensures { Reverts patch (cells self.old) (cells self.new) result };

    /// The segments, as they are now.
    fn snapshot(&self, alloc: Global) -> Result<Segments, AllocError>
        ensures whole { IfOk result (λ segments. model.cells segments ≡ cells self.now) }
        ensures pieces { IfOk result (λ segments. ArePieces segments) };
}

/// Tells, in a proof, that an accepted edit keeps a sound timeline sound. It does nothing.
pub fn keeps_sound<M: Media>(media: &M, edit: &Edit)
    requires { IsEdit edit.now }
    ensures { (line after : List Cell) → IsSound (M.library media.now) line
        → apply (M.library media.now) edit.now line ≡ Ok after → IsSound (M.library media.now) after }
{
    let _ = media;
    let _ = edit;
}

fn counted_recipe<L: Lane, K: Ledger>(lane: &L, n: u32, blank: Blank) -> Recipe
    requires at { n < length (L.cells lane.now) }
    requires name { blank.name ≡ K.name }
    requires parts { blank.parts ≡ K.parts }
    requires whole { blank.parts ≡ 1 }
    ensures { slice_get (recipes (L.cells lane.now)) n ≡ Some result }
{
    let mut steps: Steps<K> = Steps::over(blank);
    lane.recipe_at(n, &mut steps)
}

/// The recipe of frame `n`, for callers that count no steps.
pub fn recipe_in<L: Lane>(lane: &L, n: u32) -> Recipe
    requires { n < length (L.cells lane.now) }
    ensures { slice_get (recipes (L.cells lane.now)) n ≡ Some result }
{
    counted_recipe::<L, Brand>(lane, n, Blank::new(1))
}
