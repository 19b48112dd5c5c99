//! What follows from the definitions alone.

ghost use Rattle.std.specs.Prelude.{◌≡◌, ℕ, List, slice_get, Some};
ghost use Rattle.tl_model.specs.Cells.{Cell, recipes};
ghost use Rattle.tl_model.specs.Media.{CanRender};
ghost use Rattle.tl_model.specs.Sound.{IsSound};
ghost use Rattle.tl_model.specs.declared.recipe.Recipe.{Recipe};

use crate::media::Media;

/// Tells, in a proof, that the recipe of each frame of a sound timeline can be rendered. It does nothing.
pub fn sound_frames_render<M: Media>(media: &M)
    ensures { (line : List Cell) (n : ℕ) (recipe : Recipe) → IsSound (M.library media.now) line
        → slice_get (recipes line) n ≡ Some recipe → CanRender (M.library media.now) recipe }
{
    let _ = media;
}
