//! Ranges of frames of a timeline.

ghost use Rattle.std.specs.Prelude.{◌≡◌, ◌+◌, ◌^◌, ◌<◌, ◌≤◌, length};
ghost use Rattle.tl_model.specs.Cells.{is_among};
ghost use Rattle.render_core.specs.State.{range};

use time_list::{Lane, recipe_in};
use tl_model::Recipe;

/// Whether one of `len` frames from `first` on has that recipe.
#[tactic(auto, using(crate::proofs::Ranges::range_steps))]
pub(crate) fn has_recipe<L: Lane>(lane: &L, first: u32, len: u32, recipe: Recipe) -> bool
    requires within { first + len ≤ length (L.cells lane.now) }
    requires small { first + len < 2 ^ 32 }
    ensures { result ≡ is_among recipe (range first len (L.cells lane.now)) }
{
    for n in first..first + len {
        if recipe.is(recipe_in(lane, n)) {
            return true;
        }
    }
    false
}
