//! Sets of states. RFC 9043 section 3.8.1.3.
ghost use Rattle.std.specs.Prelude.{◌≡◌, ℕ, List, length, replicate};

use std::marker::Model;

/// A set of 32 states: the context of a symbol.
#[derive(Clone, Copy, Debug)]
pub struct States {
    pub(crate) states: [u8; 32],
}

// Clauses see the 32 states.
impl Model for States {
    ghost Value = { List ℕ };

    ghost view = { λ a. a.states };

    ghost inverse = { λ states. record { states = states } };
}

impl States {
    /// A set that was never used: each state is 128.
    pub fn fresh() -> States
        ensures { result ≡ replicate 32 128 }
    {
        States { states: [128; 32] }
    }
}
