//! Calls that take jobs and end them, plays and shows, and the stop. Each waits for the turn; its `try_` form doesn't.

ghost use Rattle.std.specs.Prelude.{◌≡◌, false, MatchResult};
ghost use Rattle.tl_model.specs.Media.{CanRender};
ghost use Rattle.tl_model.specs.declared.journal.Act.TheVariants as act;
ghost use Rattle.render_core.specs.Board.{IfClaimed, IfPending, of_release, of_play, of_done};
ghost use Rattle.render_core.specs.State.{Holds};
ghost use Rattle.edit_desk.specs.Desk.{Answers, Enters, Files, Finds, Shows, state_of};
ghost use Rattle.studio.specs.Known.{desk_at, Knows};
ghost use Rattle.studio.specs.Tries.{Tries};

use crate::calls::{ClaimCall, FileCall, PlayCall, ReleaseCall, ShowCall, StopCall};
use crate::studio::{Pass, Studio};
use crate::tries::Try;
use edit_desk::answer_show;
use render_core::{
    Claim, ClaimReply, FileReply, Full, PlayReply, ReleaseReply, ShowReply, Stopper,
};
use std::alloc::{AllocError, Global};
use std::sync::Wait;
use time_list::Lane;
use tl_model::{Media, Rendered};

impl<M: Media + Drop, L: Lane> Studio<M, L> {
    /// Takes the lowest queued job, whose recipe can be rendered.
    pub fn claim<R: Wait>(&self, rt: &R, pass: &mut Pass<M, L>) -> Result<ClaimReply, Full>
        requires knows { Knows M.library self.now pass.old }
        ensures told { Finds M.library (desk_at self.now pass.old) (desk_at self.now pass.new) result }
        ensures held { IfClaimed result (λ claim.
            Holds (state_of M.library (desk_at self.now pass.new)) pass.old.number claim.job claim.recipe) }
        ensures renders { IfClaimed result (λ claim. CanRender (M.library self.now.start.library) claim.recipe) }
        ensures knows { Knows M.library self.now pass.new }
    {
        self.enter(rt, pass, ClaimCall)
    }

    /// As `claim`, if the turn is free.
    pub fn try_claim(&self, pass: &mut Pass<M, L>) -> Try<Result<ClaimReply, Full>, ()>
        requires knows { Knows M.library self.now pass.old }
        ensures told { Tries pass.old pass.new tt result (λ answer.
            Finds M.library (desk_at self.now pass.old) (desk_at self.now pass.new) answer
            × IfClaimed answer (λ claim.
            Holds (state_of M.library (desk_at self.now pass.new)) pass.old.number claim.job claim.recipe)
            × IfClaimed answer (λ claim. CanRender (M.library self.now.start.library) claim.recipe)) }
        ensures knows { Knows M.library self.now pass.new }
    {
        self.try_enter(pass, ClaimCall)
    }

    /// Ends a claim with its result, which is filed exactly where the job is still open.
    pub fn file<R: Wait>(
        &self,
        rt: &R,
        pass: &mut Pass<M, L>,
        claim: Claim,
        rendered: Rendered<M>,
    ) -> Result<FileReply, (Claim, Rendered<M>, AllocError)>
        requires knows { Knows M.library self.now pass.old }
        requires held { Holds (state_of M.library (desk_at self.now pass.old)) pass.old.number claim.job claim.recipe }
        requires rendered { rendered ≡ record { recipe = claim.recipe; library = self.now.start.library } }
        ensures told { Files M.library (desk_at self.now pass.old) (desk_at self.now pass.new) (claim, rendered) result }
        ensures held { MatchResult result (λ _. Unit {0}) (λ back.
            Holds (state_of M.library (desk_at self.now pass.new)) pass.old.number claim.job claim.recipe) }
        ensures knows { Knows M.library self.now pass.new }
    {
        self.enter(rt, pass, FileCall { claim, rendered })
    }

    /// As `file`, if the turn is free. What it would have spent comes back where it isn't.
    pub fn try_file(
        &self,
        pass: &mut Pass<M, L>,
        claim: Claim,
        rendered: Rendered<M>,
    ) -> Try<Result<FileReply, (Claim, Rendered<M>, AllocError)>, (Claim, Rendered<M>)>
        requires knows { Knows M.library self.now pass.old }
        requires held { Holds (state_of M.library (desk_at self.now pass.old)) pass.old.number claim.job claim.recipe }
        requires rendered { rendered ≡ record { recipe = claim.recipe; library = self.now.start.library } }
        ensures told { Tries pass.old pass.new (claim, rendered) result (λ answer.
            Files M.library (desk_at self.now pass.old) (desk_at self.now pass.new) (claim, rendered) answer
            × MatchResult answer (λ _. Unit {0}) (λ back.
            Holds (state_of M.library (desk_at self.now pass.new)) pass.old.number claim.job claim.recipe)) }
        ensures knows { Knows M.library self.now pass.new }
    {
        self.try_enter(pass, FileCall { claim, rendered })
    }

    /// Gives a claim back. It can't be refused.
    pub fn release<R: Wait>(&self, rt: &R, pass: &mut Pass<M, L>, claim: Claim) -> ReleaseReply
        requires knows { Knows M.library self.now pass.old }
        requires held { Holds (state_of M.library (desk_at self.now pass.old)) pass.old.number claim.job claim.recipe }
        ensures told { Enters M.library (desk_at self.now pass.old) (desk_at self.now pass.new) (act.Release claim.job)
            (of_release result) }
        ensures knows { Knows M.library self.now pass.new }
    {
        self.enter(rt, pass, ReleaseCall { claim })
    }

    /// As `release`, if the turn is free. What it would have spent comes back where it isn't.
    pub fn try_release(&self, pass: &mut Pass<M, L>, claim: Claim) -> Try<ReleaseReply, Claim>
        requires knows { Knows M.library self.now pass.old }
        requires held { Holds (state_of M.library (desk_at self.now pass.old)) pass.old.number claim.job claim.recipe }
        ensures told { Tries pass.old pass.new claim result (λ answer.
            Enters M.library (desk_at self.now pass.old) (desk_at self.now pass.new) (act.Release claim.job) (of_release answer)) }
        ensures knows { Knows M.library self.now pass.new }
    {
        self.try_enter(pass, ReleaseCall { claim })
    }

    /// Plays frame `n`. A pending recipe can be rendered.
    pub fn play<R: Wait>(
        &self,
        rt: &R,
        pass: &mut Pass<M, L>,
        n: u32,
    ) -> Result<PlayReply<M::Frame>, Full>
        requires knows { Knows M.library self.now pass.old }
        ensures told { Answers M.library (desk_at self.now pass.old) (desk_at self.now pass.new)
            (record { act = act.Play n; view = of_play }) result }
        ensures renders { IfPending result (λ recipe. CanRender (M.library self.now.start.library) recipe) }
        ensures knows { Knows M.library self.now pass.new }
    {
        self.enter(rt, pass, PlayCall { n })
    }

    /// As `play`, if the turn is free.
    pub fn try_play(
        &self,
        pass: &mut Pass<M, L>,
        n: u32,
    ) -> Try<Result<PlayReply<M::Frame>, Full>, ()>
        requires knows { Knows M.library self.now pass.old }
        ensures told { Tries pass.old pass.new tt result (λ answer.
            Answers M.library (desk_at self.now pass.old) (desk_at self.now pass.new)
            (record { act = act.Play n; view = of_play }) answer
            × IfPending answer (λ recipe. CanRender (M.library self.now.start.library) recipe)) }
        ensures knows { Knows M.library self.now pass.new }
    {
        self.try_enter(pass, PlayCall { n })
    }

    /// Shows frame `n`, rendered here where it isn't filed, and after the turn was left. Where that wants memory, the entry of
    /// the show stays.
    pub fn show<R: Wait>(
        &self,
        rt: &R,
        alloc: Global,
        pass: &mut Pass<M, L>,
        n: u32,
    ) -> Result<ShowReply<M::Frame>, Full>
        requires knows { Knows M.library self.now pass.old }
        ensures told { Shows M.library (desk_at self.now pass.old) (desk_at self.now pass.new) n result }
        ensures knows { Knows M.library self.now pass.new }
    {
        let given = match self.enter(rt, pass, ShowCall { n }) {
            Ok(given) => given,
            Err(why) => return Err(why),
        };
        answer_show(alloc, &self.media, given)
    }

    /// As `show`, if the turn is free.
    pub fn try_show(
        &self,
        alloc: Global,
        pass: &mut Pass<M, L>,
        n: u32,
    ) -> Try<Result<ShowReply<M::Frame>, Full>, ()>
        requires knows { Knows M.library self.now pass.old }
        ensures told { Tries pass.old pass.new tt result (λ answer.
            Shows M.library (desk_at self.now pass.old) (desk_at self.now pass.new) n answer) }
        ensures knows { Knows M.library self.now pass.new }
    {
        match self.try_enter(pass, ShowCall { n }) {
            Try::Done(Ok(given)) => Try::Done(answer_show(alloc, &self.media, given)),
            Try::Done(Err(why)) => Try::Done(Err(why)),
            Try::Busy { seen, back } => Try::Busy { seen, back },
        }
    }

    /// Stops the session, as pass 0. It can't be refused.
    pub fn stop<R: Wait>(&self, rt: &R, pass: &mut Pass<M, L>, stopper: Stopper)
        requires knows { Knows M.library self.now pass.old }
        requires main { pass.old.number ≡ 0 }
        requires once { (state_of M.library (desk_at self.now pass.old)).is_stopped ≡ false }
        ensures told { Enters M.library (desk_at self.now pass.old) (desk_at self.now pass.new) act.Stop (of_done result) }
        ensures knows { Knows M.library self.now pass.new }
    {
        self.enter(rt, pass, StopCall { stopper });
    }

    /// As `stop`, if the turn is free. What it would have spent comes back where it isn't.
    pub fn try_stop(&self, pass: &mut Pass<M, L>, stopper: Stopper) -> Try<(), Stopper>
        requires knows { Knows M.library self.now pass.old }
        requires main { pass.old.number ≡ 0 }
        requires once { (state_of M.library (desk_at self.now pass.old)).is_stopped ≡ false }
        ensures told { Tries pass.old pass.new stopper result (λ answer.
            Enters M.library (desk_at self.now pass.old) (desk_at self.now pass.new) act.Stop (of_done answer)) }
        ensures knows { Knows M.library self.now pass.new }
    {
        self.try_enter(pass, StopCall { stopper })
    }
}
