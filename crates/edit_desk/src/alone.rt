//! A board with its library, and its one caller.

ghost use Rattle.std.specs.Prelude.{◌≡◌, ◌≤◌, IfOk, []};
ghost use Rattle.tl_limits.specs.Limits.{IsJournalLimit};
ghost use Rattle.tl_model.specs.Media.{CanRender, outcome_of};
ghost use Rattle.render_core.specs.Board.{AtRender, of_show};
ghost use Rattle.render_core.specs.Calls.{own};
ghost use Rattle.render_core.specs.Step.{picture_of};
ghost use Rattle.edit_desk.specs.Desk.{DeskOf, IsDesk, state_of};
ghost use Rattle.edit_desk.specs.Alone.{Renders};

use crate::desk::Desk;
use render_core::{
    AskReply, Board, CancelReply, Claim, ClaimReply, ExportJob, FileReply, Full, PlayReply,
    ReleaseReply, ShowReply, Stopper, TakeReply, WantReply,
};
use std::alloc::{AllocError, Global};
use std::marker::Model;
use time_list::Lane;
use tl_model::{Edit, EditReply, Ending, Journal, Media, Name, Picked, Recipe, Rendered};

/// A board with the library that it noted, for one caller with the number 0, who has seen the whole journal.
#[derive(Drop)]
pub struct Alone<M: Media + Drop, L: Lane> {
    media: M,
    board: Board<M, L>,
}

impl<M: Media + Drop, L: Lane> Model for Alone<M, L> {
    ghost use Rattle.edit_desk.specs.Desk.{DeskOf};
    ghost use Rattle.edit_desk.specs.Alone.{desk_of, IsOwned};

    ghost Value = { DeskOf M (Unit {0}) };

    ghost view = { λ a. desk_of a.board };

    ghost invariant = { λ a. IsOwned a.media a.board };
}

impl<M: Media + Drop, L: Lane> Alone<M, L> {
    /// An empty timeline and an empty journal, with at most `cache` filed results and `limit` entries.
    pub fn start(
        alloc: Global,
        media: M,
        cache: u32,
        limit: u64,
    ) -> Result<(Alone<M, L>, Stopper), AllocError>
        requires cache { 1 ≤ cache }
        requires limit { IsJournalLimit limit }
        ensures fixed { IfOk result
            (λ made. made.0.fixed ≡ record { number = 0; library = media; cache = cache; limit = limit; kept = tt }) }
        ensures seen { IfOk result (λ made. made.0.seen ≡ []) }
    {
        let (board, stopper) = Board::start(alloc, &media, cache, limit)?;
        Ok((Alone { media, board }, stopper))
    }

    /// Whether the session was stopped. The caller's number is 0.
    pub fn is_stopped(&self) -> bool
        ensures stopped { result ≡ (state_of M.library self.now).is_stopped }
        ensures number { self.now.fixed.number ≡ 0 }
    {
        self.board.is_stopped()
    }

    /// The journal, by move. It is legal, within the limit, and each of its entries is caller 0's.
    pub fn finish(self) -> Journal
        ensures journal { result ≡ self.seen }
        ensures own { own 0 self.seen ≡ self.seen }
        ensures known { IsDesk M.library self }
    {
        let Alone { media: _, board } = self;
        board.into_journal()
    }
}

impl<M: Media + Drop, L: Lane> Desk for Alone<M, L> {
    type Lib = M;

    type Made = Rendered<M>;

    ghost made = { λ r. r };

    ghost Kept = { Unit {0} };

    ghost desk = { λ a. a };

    fn known(&self) {
        let _ = self.board.entries();
    }

    fn media(&self) -> &M {
        &self.media
    }

    fn render(&self, alloc: Global, recipe: Recipe) -> Result<Rendered<M>, AllocError> {
        Rendered::make(alloc, &self.media, recipe)
    }

    fn edit(&mut self, alloc: Global, edit: &Edit) -> Result<EditReply, Full> {
        self.board.edit(alloc, 0, &self.media, edit)
    }

    fn undo(&mut self, alloc: Global) -> Result<EditReply, Full> {
        self.board.undo(alloc, 0)
    }

    fn redo(&mut self, alloc: Global) -> Result<EditReply, Full> {
        self.board.redo(alloc, 0)
    }

    fn want(&mut self, first: u32, len: u32) -> Result<WantReply, Full> {
        self.board.want(0, first, len)
    }

    fn cancel(&mut self, first: u32, len: u32) -> Result<CancelReply, Full> {
        self.board.cancel(0, first, len)
    }

    fn claim(&mut self) -> Result<ClaimReply, Full> {
        self.board.claim(0)
    }

    fn file(
        &mut self,
        claim: Claim,
        rendered: Rendered<M>,
    ) -> Result<FileReply, (Claim, Rendered<M>, AllocError)> {
        self.board.file(0, claim, rendered)
    }

    fn release(&mut self, claim: Claim) -> ReleaseReply {
        self.board.release(0, claim)
    }

    fn play(&mut self, n: u32) -> Result<PlayReply<M::Frame>, Full> {
        self.board.play(0, n)
    }

    fn show(&mut self, alloc: Global, n: u32) -> Result<ShowReply<M::Frame>, Full> {
        let given = match self.board.show(0, n) {
            Ok(given) => given,
            Err(why) => return Err(why),
        };
        answer_show(alloc, &self.media, given)
    }

    fn ask_export(&mut self, alloc: Global, name: &Name) -> Result<AskReply, Full> {
        self.board.ask_export(alloc, 0, name)
    }

    fn take_export(&mut self) -> TakeReply {
        self.board.take_export(0)
    }

    fn end_export(&mut self, job: ExportJob, ending: Ending) {
        self.board.end_export(0, job, ending);
    }

    fn mark(&mut self, turns: u32) -> Result<(), Full> {
        self.board.mark(0, turns)
    }

    fn skip(&mut self) -> Result<(), Full> {
        self.board.skip(0)
    }

    fn stop(&mut self, stopper: Stopper) {
        self.board.stop(0, stopper);
    }
}

/// A show's answer, with the render of a recipe that is to be rendered. Only there can memory be wanting.
pub fn answer_show<M: Media>(
    alloc: Global,
    media: &M,
    given: ShowReply<M::Frame>,
) -> Result<ShowReply<M::Frame>, Full>
    requires { AtRender given (λ recipe. CanRender (M.library media.now) recipe) }
    ensures { Renders (M.library media.now) (of_show given) result }
{
    match given {
        ShowReply::Frame(frame) => Ok(ShowReply::Frame(frame)),
        ShowReply::Fault(fault) => Ok(ShowReply::Fault(fault)),
        ShowReply::PastEnd { len } => Ok(ShowReply::PastEnd { len }),
        ShowReply::Render { recipe } => match media.render(alloc, recipe) {
            Ok(Picked::Frame(frame)) => Ok(ShowReply::Frame(frame)),
            Ok(Picked::Fault(fault)) => Ok(ShowReply::Fault(fault)),
            Err(_) => Err(Full::NoMemory),
        },
    }
}
