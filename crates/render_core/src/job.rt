//! One job.

ghost use Rattle.std.specs.Prelude.{◌≡◌};
ghost use Rattle.render_core.specs.State.{is_open, is_queued};

use tl_model::Recipe;

/// A recipe to be rendered: the pass that holds the job, and the number of the entry that closed it, from 1.
#[derive(Clone, Copy, Debug, PartialEq, Eq)]
pub struct Job {
    pub recipe: Recipe,
    pub holder: Option<u32>,
    pub closed: Option<u64>,
}

impl Job {
    /// Whether no entry closed the job.
    pub fn is_open(&self) -> bool
        ensures { result ≡ is_open self.now }
    {
        self.closed.is_none()
    }

    /// Whether the job is open and no pass holds it.
    pub fn is_queued(&self) -> bool
        ensures { result ≡ is_queued self.now }
    {
        self.is_open() && self.holder.is_none()
    }
}
