//! What a caller holds: a job, and the right to stop.

ghost use Rattle.std.specs.Prelude.{◌≡◌};

use std::marker::Model;
use tl_model::Recipe;

/// A job that its caller holds. It must be spent, by `file` or by `release`.
#[derive(Debug)]
pub struct Claim {
    pub(crate) job: u64,
    pub(crate) recipe: Recipe,
}

impl Model for Claim {
    ghost use Rattle.render_core.specs.Claim.{ClaimOf};

    ghost Value = { ClaimOf };

    ghost view = { λ c. record { job = c.job; recipe = c.recipe } };
}

impl Claim {
    /// The job's number, from 1.
    pub fn job(&self) -> u64
        ensures { result ≡ self.now.job }
    {
        self.job
    }

    /// What is to be rendered.
    pub fn recipe(&self) -> Recipe
        ensures { result ≡ self.now.recipe }
    {
        self.recipe
    }
}

/// The right to stop a session, once. It must be spent, by `stop`.
#[derive(Debug)]
pub struct Stopper {
    pub(crate) of: (),
}
