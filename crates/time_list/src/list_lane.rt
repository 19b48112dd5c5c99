//! The plain timeline: a list of segments.

ghost use Rattle.std.specs.Prelude.{◌≡◌, ◌+◌, ◌<◌, ◌≤◌, length, slice_get, Some};
ghost use Rattle.tl_limits.specs.Limits.{max_frames};
ghost use Rattle.tl_model.specs.Cells.{cells, recipes, segment_count};
ghost use Rattle.tl_model.specs.Edit.{IsEdit};
ghost use Rattle.tl_model.specs.Segment.{ArePieces};
ghost use Rattle.time_list.specs.Changes.{Changes};
ghost use Rattle.time_list.specs.Edits.{proposal};

use crate::change::{self, Change, Span};
use crate::lane::{ApplyFault, Lane};
use crate::patch::Patch;
use crate::reshape::Reshape;
use crate::{cut, range, replace};
use std::alloc::{AllocError, Global};
use std::marker::Model;
use std::sync::ledger::Ledger;
use tl_model::{Edit, Media, Recipe, Segment, Segments, Steps};

/// A timeline as a list of at most 100,000 segments, and the number of its frames, which is at most 1,000,000. It goes
/// through the list at each call.
#[derive(Drop)]
pub struct ListLane {
    items: Vec<Segment>,
    frames: u32,
}

impl Model for ListLane {
    ghost use Rattle.std.specs.Prelude.{List};
    ghost use Rattle.tl_model.specs.Cells.{Cell, cells};
    ghost use Rattle.time_list.specs.Pieces.{IsLane};

    ghost Value = { List Cell };

    ghost view = { λ l. cells l.items.items };

    ghost invariant = { λ l. IsLane l.items.items l.frames };
}

/// The change that an edit makes, or why it makes none.
fn change_of<M: Media>(
    alloc: Global,
    media: &M,
    items: &[Segment],
    edit: &Edit,
) -> Result<Change, ApplyFault>
    requires pieces { ArePieces items.now }
    requires short { length (cells items.now) ≤ max_frames }
    requires formed { IsEdit edit.now }
    ensures { Changes (M.library media.now) items.now (proposal edit.now (cells items.now)) result }
{
    match edit {
        Edit::Insert { at, take, len } => range::insert(alloc, media, items, *at, *take, *len),
        Edit::Extract { at, len } => range::extract(alloc, items, *at, *len),
        Edit::Overwrite { at, take, len } => {
            range::overwrite(alloc, media, items, *at, *take, *len)
        }
        Edit::Lift { at, len } => range::lift(alloc, items, *at, *len),
        Edit::Split { at } => range::split(alloc, items, *at),
        Edit::TrimIn { at, by } => {
            range::change_segment(alloc, media, items, *at, Reshape::TrimIn { by: *by })
        }
        Edit::TrimOut { at, by } => {
            range::change_segment(alloc, media, items, *at, Reshape::TrimOut { by: *by })
        }
        Edit::Slip { at, by } => {
            range::change_segment(alloc, media, items, *at, Reshape::Slip { by: *by })
        }
        Edit::Dissolve { at, len } => range::join(alloc, media, items, *at, *len),
        Edit::Relink { at, clip, first } => {
            let how = Reshape::Relink {
                clip: *clip,
                first: *first,
            };
            range::change_segment(alloc, media, items, *at, how)
        }
        Edit::Replace { segments } => replace::replace(alloc, media, items, segments.as_slice()),
    }
}

impl Lane for ListLane {
    ghost cells = { λ l. l };

    fn blank(alloc: Global) -> ListLane {
        ListLane {
            items: Vec::new(alloc),
            frames: 0,
        }
    }

    fn frames(&self) -> u32 {
        self.frames
    }

    #[tactic(auto, using(crate::proofs::Steps::lane_steps))]
    fn segments(&self) -> u32 {
        self.items.len() as u32
    }

    /// The recipe of frame `n`. It counts at least one step, and at most one a segment.
    #[tactic(auto, using(crate::proofs::Steps::lane_steps))]
    fn recipe_at<K: Ledger>(&self, n: u32, steps: &mut Steps<K>) -> Recipe
        requires { n < length self.now }
        ensures recipe { slice_get (recipes self.now) n ≡ Some result }
        ensures counted { steps.old < steps.new }
        ensures few { steps.new ≤ steps.old + segment_count self.now }
    {
        cut::recipe_at(&self.items, n, steps)
    }

    fn uses(&self, recipe: Recipe) -> bool {
        cut::uses(&self.items, recipe)
    }

    fn apply<M: Media>(
        &mut self,
        alloc: Global,
        media: &M,
        edit: &Edit,
    ) -> Result<Patch, ApplyFault> {
        let change = match change_of(alloc, media, &self.items, edit) {
            Ok(change) => change,
            Err(why) => return Err(why),
        };
        match change::make(alloc, &self.items, self.frames, &change) {
            Ok(made) => {
                self.items = made.items;
                self.frames = made.frames;
                Ok(made.patch)
            }
            Err(why) => Err(why),
        }
    }

    fn revert(&mut self, alloc: Global, patch: Patch) -> Result<Patch, (Patch, AllocError)> {
        match change::revert(alloc, &self.items, self.frames, &patch) {
            Ok(made) => {
                self.items = made.items;
                self.frames = made.frames;
                Ok(made.patch)
            }
            Err(want) => Err((patch, want)),
        }
    }

    fn snapshot(&self, alloc: Global) -> Result<Segments, AllocError> {
        let items = Vec::from_slice(alloc, &self.items)?;
        Ok(Segments::from_vec(items))
    }
}
