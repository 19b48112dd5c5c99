//! Filed results, latest first.

ghost use Rattle.std.specs.Prelude.{◌≡◌, Some, ◌<◌, ◌∷◌, [], length, slice_get, IfOk, take, OnOk, MatchResult};
ghost use Rattle.std.specs.List.{remove};
ghost use Rattle.tl_model.specs.Media.{RenderedOf, outcome_of};
ghost use Rattle.render_core.specs.Step.{picture_of};
ghost use Rattle.render_core.specs.Board.{of_play};
ghost use Rattle.render_core.specs.Parts.{Places, recipes_of, AreOf, MovesFirst};

use crate::reply::PlayReply;
use std::alloc::{AllocError, AllocFailed, Global};
use std::marker::Model;
use std::sync::Arc;
use tl_model::{Media, Picked, Recipe, Rendered};

/// Results as a list, latest first.
#[derive(Drop)]
pub(crate) struct Results<M: Media> {
    items: Vec<Rendered<M>>,
}

impl<M: Media> Model for Results<M> {
    ghost use Rattle.std.specs.Prelude.{List};
    ghost use Rattle.tl_model.specs.Media.{RenderedOf};

    ghost Value = { List (RenderedOf M) };

    ghost view = { λ r. r.items.items };
}

impl<M: Media> Results<M> {
    pub(crate) fn new(alloc: Global) -> Results<M>
        ensures { result ≡ [] }
    {
        Results {
            items: Vec::new(alloc),
        }
    }

    /// The place of a recipe's result.
    pub(crate) fn place_of(&self, recipe: Recipe) -> Option<usize>
        ensures { Places recipe (recipes_of self.now) result }
    {
        place_of(self.items.as_slice(), recipe)
    }

    /// The picture or the fault of the result at a place, shared.
    pub(crate) fn shared(&self, place: usize) -> Result<PlayReply<M::Frame>, AllocError>
        requires { place < length self.now }
        ensures { IfOk result (λ given. (r : RenderedOf M) → slice_get self.now place ≡ Some r
            → of_play given ≡ picture_of ((M.library r.library).render r.recipe)) }
    {
        shared(&self.items[place])
    }

    /// Puts a result first. The last over `most` is dropped.
    pub(crate) fn put_first(&mut self, rendered: Rendered<M>, most: u32) -> Result<(), Rendered<M>>
        ensures ok { OnOk result (self.new ≡ take most (rendered ∷ self.old)) }
        ensures err { MatchResult result (λ _. Unit {0}) (λ back. (self.new ≡ self.old) × (back ≡ rendered)) }
    {
        if let Err(AllocFailed { value }) = self.items.insert(0, rendered) {
            return Err(value);
        }
        self.items.truncate(most as usize);
        Ok(())
    }

    /// The result at a place comes first.
    pub(crate) fn move_first(&mut self, place: usize)
        requires { place < length self.old }
        ensures { MovesFirst self.old self.new place }
    {
        let rendered = self.items.remove(place);
        self.items.insert(0, rendered).unwrap();
    }
}

fn place_of<M: Media>(filed: &[Rendered<M>], recipe: Recipe) -> Option<usize>
    ensures { Places recipe (recipes_of filed.now) result }
{
    for (i, result) in filed.iter().enumerate() {
        if recipe.is(result.recipe()) {
            return Some(i);
        }
    }
    None
}

fn shared<M: Media>(rendered: &Rendered<M>) -> Result<PlayReply<M::Frame>, AllocError>
    ensures { IfOk result (λ given. of_play given ≡ picture_of ((M.library rendered.now.library).render rendered.now.recipe)) }
{
    match rendered.picked() {
        Picked::Frame(frame) => {
            let frame = Arc::try_clone(frame)?;
            Ok(PlayReply::Frame(frame))
        }
        Picked::Fault(fault) => Ok(PlayReply::Fault(*fault)),
    }
}
