//! What each step tells. These types are for the proofs alone.

use crate::journaled::Journaled;
use crate::view::View;
use atomic_table::{Join, Play, Split};

/// The take: `fetch_or` of 1.
pub(crate) struct Take;

impl<B: Journaled> Play<Option<B>, View<B>> for Take {
    ghost use Rattle.turn_lock.specs.Steps.{takes};

    ghost then = { takes record { Fixed = B.Fixed; entries = B.entries; fixed = B.fixed; meets = B.meets } };
}

/// The leave: a store.
pub(crate) struct Leave;

impl<B: Journaled> Play<Option<B>, View<B>> for Leave {
    ghost use Rattle.turn_lock.specs.Steps.{leaves};

    ghost then = { leaves record { Fixed = B.Fixed; entries = B.entries; fixed = B.fixed; meets = B.meets } };
}

/// The look: a load.
pub(crate) struct Look;

impl<B: Journaled> Play<Option<B>, View<B>> for Look {
    ghost use Rattle.turn_lock.specs.Steps.{looks};

    ghost then = { looks record { Fixed = B.Fixed; entries = B.entries; fixed = B.fixed; meets = B.meets } };
}

/// The load of a join.
pub(crate) struct Compare;

impl<B: Journaled> Play<Option<B>, View<B>> for Compare {
    ghost use Rattle.turn_lock.specs.Steps.{compares};

    ghost then = { compares record { Fixed = B.Fixed; entries = B.entries; fixed = B.fixed; meets = B.meets } };
}

/// A pass for another caller, or a pass of another that comes back.
pub(crate) struct Pair;

impl<B> Split<View<B>> for Pair {
    ghost use Rattle.turn_lock.specs.Views.{split_from, split_off};

    ghost left = { split_from };

    ghost right = { split_off };
}

impl<B> Join<View<B>> for Pair {
    ghost use Rattle.turn_lock.specs.Views.{with_joined, spent};

    ghost both = { with_joined };

    ghost spent = { spent };
}

/// A note that is made or taken.
pub(crate) struct Tell;

impl<B> Split<View<B>> for Tell {
    ghost use Rattle.turn_lock.specs.Views.{note_of};

    ghost left = { λ v. v };

    ghost right = { note_of };
}

impl<B> Join<View<B>> for Tell {
    ghost use Rattle.turn_lock.specs.Views.{with_seen, spent};

    ghost both = { with_seen };

    ghost spent = { spent };
}
