//! A rendered value.

ghost use Rattle.std.specs.Prelude.{◌≡◌, IfOk};
ghost use Rattle.tl_model.specs.Media.{CanRender, RenderedOf, outcome_of};

use crate::media::{Media, Picked};
use crate::recipe::Recipe;
use std::alloc::{AllocError, Global};
use std::marker::Model;
use std::snapshot::Snapshot;

/// The render of a recipe in a library. No other value can stand in it.
#[derive(Drop)]
pub struct Rendered<M: Media> {
    recipe: Recipe,
    picked: Picked<M::Frame>,
    library: Snapshot<M>,
}

impl<M: Media> Model for Rendered<M> {
    ghost use Rattle.std.specs.Prelude.{◌≡◌};
    ghost use Rattle.tl_model.specs.Media.{RenderedOf, outcome_of};

    ghost Value = { RenderedOf M };

    ghost view = { λ r. record { recipe = r.recipe; library = r.library.value } };

    ghost invariant = { λ r. outcome_of r.picked ≡ (M.library r.library.value).render r.recipe };
}

impl<M: Media> Rendered<M> {
    /// Renders a recipe.
    pub fn make(alloc: Global, media: &M, recipe: Recipe) -> Result<Rendered<M>, AllocError>
        requires { CanRender (M.library media.now) recipe }
        ensures { IfOk result (λ r. r ≡ record { recipe = recipe; library = media.now }) }
    {
        let picked = media.render(alloc, recipe)?;
        Ok(Rendered {
            recipe,
            picked,
            library: Snapshot::of(media),
        })
    }

    pub fn recipe(&self) -> Recipe
        ensures { result ≡ self.now.recipe }
    {
        self.recipe
    }

    /// The picture or the fault, which is the render of the recipe in the library.
    pub fn picked(&self) -> &Picked<M::Frame>
        ensures { outcome_of result.now ≡ (M.library self.now.library).render self.now.recipe }
    {
        &self.picked
    }
}
