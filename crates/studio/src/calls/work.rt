//! Calls that take jobs and end them, plays and shows, and the stop.

use crate::call::Call;
use render_core::{
    Board, Claim, ClaimReply, FileReply, Full, PlayReply, ReleaseReply, ShowReply, Stopper,
};
use std::alloc::AllocError;
use time_list::Lane;
use tl_model::{Media, Rendered};

/// Takes the lowest queued job.
#[derive(Drop)]
pub(crate) struct ClaimCall;

impl<M: Media, L: Lane> Call<M, L> for ClaimCall {
    ghost use Rattle.tl_model.specs.Media.{CanRender};
    ghost use Rattle.render_core.specs.Board.{IfClaimed};
    ghost use Rattle.render_core.specs.State.{Holds};
    ghost use Rattle.edit_desk.specs.Desk.{Finds, state_of};
    ghost use Rattle.edit_desk.proofs.Later.{finds_later};

    type Answer = Result<ClaimReply, Full>;

    type Spent = ();

    ghost spent = { λ call. tt };

    ghost asks = { λ call desk. Unit {0} };

    ghost told = { λ call old new answer. Finds M.library old new answer
        × IfClaimed answer (λ claim. Holds (state_of M.library new) new.fixed.number claim.job claim.recipe)
        × IfClaimed answer (λ claim. CanRender (M.library new.fixed.library) claim.recipe) };

    fn make(self, by: u32, _media: &M, board: &mut Board<M, L>) -> Result<ClaimReply, Full> {
        board.claim(by)
    }

    fn back(self) {}

    ghost lasts = { λ call old new learns known asks. tt };

    ghost later = { λ call old mid new answer learns told.
        (finds_later M.library old mid new answer learns told.0, told.1, told.2) };
}

/// Ends a claim with its result.
pub(crate) struct FileCall<M: Media> {
    pub(crate) claim: Claim,
    pub(crate) rendered: Rendered<M>,
}

impl<M: Media, L: Lane> Call<M, L> for FileCall<M> {
    ghost use Rattle.std.specs.Prelude.{◌≡◌, MatchResult};
    ghost use Rattle.render_core.specs.State.{Holds};
    ghost use Rattle.edit_desk.specs.Desk.{Files, state_of};
    ghost use Rattle.edit_desk.proofs.Later.{files_later, holds_later, rendered_later};

    type Answer = Result<FileReply, (Claim, Rendered<M>, AllocError)>;

    type Spent = (Claim, Rendered<M>);

    ghost spent = { λ call. (call.claim, call.rendered) };

    ghost asks = { λ call desk. Holds (state_of M.library desk) desk.fixed.number call.claim.job call.claim.recipe
        × (call.rendered ≡ record { recipe = call.claim.recipe; library = desk.fixed.library }) };

    ghost told = { λ call old new answer. Files M.library old new (call.claim, call.rendered) answer
        × MatchResult answer (λ _. Unit {0}) (λ back.
        Holds (state_of M.library new) new.fixed.number call.claim.job call.claim.recipe) };

    fn make(
        self,
        by: u32,
        _media: &M,
        board: &mut Board<M, L>,
    ) -> Result<FileReply, (Claim, Rendered<M>, AllocError)> {
        let FileCall { claim, rendered } = self;
        board.file(by, claim, rendered)
    }

    fn back(self) -> (Claim, Rendered<M>) {
        let FileCall { claim, rendered } = self;
        (claim, rendered)
    }

    ghost lasts = { λ call old new learns known asks. (
      holds_later M.library old new call.claim.job call.claim.recipe learns known asks.0,
      rendered_later old new call.claim.recipe call.rendered learns asks.1,
    ) };

    ghost later = { λ call old mid new answer learns told.
        (files_later M.library old mid new (call.claim, call.rendered) answer learns told.0, told.1) };
}

/// Gives a claim back.
pub(crate) struct ReleaseCall {
    pub(crate) claim: Claim,
}

impl<M: Media, L: Lane> Call<M, L> for ReleaseCall {
    ghost use Rattle.tl_model.specs.declared.journal.Act.TheVariants as act;
    ghost use Rattle.render_core.specs.Board.{of_release};
    ghost use Rattle.render_core.specs.State.{Holds};
    ghost use Rattle.edit_desk.specs.Desk.{Enters, state_of};
    ghost use Rattle.edit_desk.proofs.Later.{enters_later, holds_later};

    type Answer = ReleaseReply;

    type Spent = Claim;

    ghost spent = { λ call. call.claim };

    ghost asks = { λ call desk. Holds (state_of M.library desk) desk.fixed.number call.claim.job call.claim.recipe };

    ghost told = { λ call old new answer. Enters M.library old new (act.Release call.claim.job) (of_release answer) };

    fn make(self, by: u32, _media: &M, board: &mut Board<M, L>) -> ReleaseReply {
        let ReleaseCall { claim } = self;
        board.release(by, claim)
    }

    fn back(self) -> Claim {
        let ReleaseCall { claim } = self;
        claim
    }

    ghost lasts = { λ call old new. holds_later M.library old new call.claim.job call.claim.recipe };

    ghost later = { λ call old mid new answer. enters_later M.library old mid new (act.Release call.claim.job) (of_release answer) };
}

/// Plays a frame.
#[derive(Drop)]
pub(crate) struct PlayCall {
    pub(crate) n: u32,
}

impl<M: Media, L: Lane> Call<M, L> for PlayCall {
    ghost use Rattle.tl_model.specs.Media.{CanRender};
    ghost use Rattle.tl_model.specs.declared.journal.Act.TheVariants as act;
    ghost use Rattle.render_core.specs.Board.{of_play, IfPending};
    ghost use Rattle.edit_desk.specs.Desk.{Answers};
    ghost use Rattle.edit_desk.proofs.Later.{answers_later};

    type Answer = Result<PlayReply<M::Frame>, Full>;

    type Spent = ();

    ghost spent = { λ call. tt };

    ghost asks = { λ call desk. Unit {0} };

    ghost told = { λ call old new answer. Answers M.library old new (record { act = act.Play call.n; view = of_play }) answer
        × IfPending answer (λ recipe. CanRender (M.library new.fixed.library) recipe) };

    fn make(
        self,
        by: u32,
        _media: &M,
        board: &mut Board<M, L>,
    ) -> Result<PlayReply<M::Frame>, Full> {
        board.play(by, self.n)
    }

    fn back(self) {}

    ghost lasts = { λ call old new learns known asks. tt };

    ghost later = { λ call old mid new answer learns told.
        (answers_later M.library old mid new (record { act = act.Play call.n; view = of_play }) answer learns told.0, told.1) };
}

/// Plays a frame that its caller renders where it isn't filed.
#[derive(Drop)]
pub(crate) struct ShowCall {
    pub(crate) n: u32,
}

impl<M: Media, L: Lane> Call<M, L> for ShowCall {
    ghost use Rattle.tl_model.specs.Media.{CanRender};
    ghost use Rattle.tl_model.specs.declared.journal.Act.TheVariants as act;
    ghost use Rattle.render_core.specs.Board.{of_show, IfRender};
    ghost use Rattle.edit_desk.specs.Desk.{Answers};
    ghost use Rattle.edit_desk.proofs.Later.{answers_later};

    type Answer = Result<ShowReply<M::Frame>, Full>;

    type Spent = ();

    ghost spent = { λ call. tt };

    ghost asks = { λ call desk. Unit {0} };

    ghost told = { λ call old new answer. Answers M.library old new (record { act = act.Show call.n; view = of_show }) answer
        × IfRender answer (λ recipe. CanRender (M.library new.fixed.library) recipe) };

    fn make(
        self,
        by: u32,
        _media: &M,
        board: &mut Board<M, L>,
    ) -> Result<ShowReply<M::Frame>, Full> {
        board.show(by, self.n)
    }

    fn back(self) {}

    ghost lasts = { λ call old new learns known asks. tt };

    ghost later = { λ call old mid new answer learns told.
        (answers_later M.library old mid new (record { act = act.Show call.n; view = of_show }) answer learns told.0, told.1) };
}

/// Stops the session.
pub(crate) struct StopCall {
    pub(crate) stopper: Stopper,
}

impl<M: Media, L: Lane> Call<M, L> for StopCall {
    ghost use Rattle.std.specs.Prelude.{◌≡◌, false};
    ghost use Rattle.tl_model.specs.declared.journal.Act.TheVariants as act;
    ghost use Rattle.render_core.specs.Board.{of_done};
    ghost use Rattle.edit_desk.specs.Desk.{Enters, state_of};
    ghost use Rattle.edit_desk.proofs.Later.{enters_later, stop_later};

    type Answer = ();

    type Spent = Stopper;

    ghost spent = { λ call. call.stopper };

    ghost asks = { λ call desk. (desk.fixed.number ≡ 0) × ((state_of M.library desk).is_stopped ≡ false) };

    ghost told = { λ call old new answer. Enters M.library old new act.Stop (of_done answer) };

    fn make(self, by: u32, _media: &M, board: &mut Board<M, L>) {
        let StopCall { stopper } = self;
        board.stop(by, stopper);
    }

    fn back(self) -> Stopper {
        let StopCall { stopper } = self;
        stopper
    }

    ghost lasts = { λ call old new. stop_later M.library old new };

    ghost later = { λ call old mid new answer. enters_later M.library old mid new act.Stop (of_done answer) };
}
