//! One segment: whether it has a recipe, and its two parts at a cut.

ghost use Rattle.std.specs.Prelude.{◌≡◌, ◌+◌, ◌<◌, ◌≤◌, Some};
ghost use Rattle.tl_model.specs.Cells.{cells_of, recipes, is_among};
ghost use Rattle.tl_model.specs.Segment.{Reaches, IsPiece};
ghost use Rattle.time_list.specs.Pieces as pieces;
ghost use Rattle.time_list.specs.Pieces.{front_of, back_of};

use tl_model::{Mix, Recipe, Segment};

/// Whether some frame has that recipe.
#[tactic(auto, using(crate::proofs::Steps::piece_steps))]
pub(crate) fn uses(segment: &Segment, recipe: Recipe) -> bool
    requires { IsPiece segment.now }
    ensures { result ≡ is_among recipe (recipes (cells_of segment.now)) }
{
    for n in 0..segment.len {
        if recipe.is(segment.recipe_at(n)) {
            return true;
        }
    }
    false
}

/// The frames before frame `at`.
pub(crate) fn front(segment: &Segment, at: u32) -> Segment
    ensures { result ≡ front_of segment.now at }
{
    let mix = match segment.mix {
        None => None,
        Some(mix) => Some(Mix {
            steps: mix.steps.min(at),
            ..mix
        }),
    };
    Segment {
        first: segment.first,
        len: at,
        mix,
    }
}

fn back_mix(mix: Mix, at: u32) -> Option<Mix>
    requires formed { mix.done + mix.steps ≤ mix.total }
    requires reach { Reaches mix.from mix.steps }
    ensures { result ≡ pieces.back_mix (Some mix) at }
{
    if at < mix.steps {
        Some(Mix {
            from: mix.from.moved(at),
            done: mix.done + at,
            steps: mix.steps - at,
            ..mix
        })
    } else {
        None
    }
}

/// The frames from frame `at` on.
pub(crate) fn back(segment: &Segment, at: u32) -> Segment
    requires piece { IsPiece segment.now }
    requires at { at < segment.now.len }
    ensures { result ≡ back_of segment.now at }
{
    let mix = match segment.mix {
        None => None,
        Some(mix) => back_mix(mix, at),
    };
    Segment {
        first: segment.first.moved(at),
        len: segment.len - at,
        mix,
    }
}
