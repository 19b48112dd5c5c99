//! The calls of one caller.

ghost use Rattle.std.specs.Prelude.{◌≡◌, ℕ, IfOk, OnOk, MatchResult, false};
ghost use Rattle.tl_model.specs.Cells.{cells};
ghost use Rattle.tl_model.specs.Edit.{IsEdit};
ghost use Rattle.tl_model.specs.Media.{RenderedOf, CanRender};
ghost use Rattle.tl_model.specs.Sound.{IsSound};
ghost use Rattle.tl_model.specs.declared.journal.Act.TheVariants as act;
ghost use Rattle.render_core.specs.Board.{IfClaimed, IfPending, IfTaken, of_edit, of_want, of_cancel, of_release, of_play, of_ask, of_done};
ghost use Rattle.render_core.specs.State.{Holds, HoldsExport};
ghost use Rattle.edit_desk.specs.Desk.{DeskOf, IsDesk, Answers, Enters, Finds, Files, Takes, Shows, state_of};

use render_core::{
    AskReply, CancelReply, Claim, ClaimReply, ExportJob, FileReply, Full, PlayReply, ReleaseReply,
    ShowReply, Stopper, TakeReply, WantReply,
};
use std::alloc::{AllocError, Global};
use tl_model::{Edit, EditReply, Ending, Media, Name, Recipe};

/// The calls of one caller on an editing core. Between two calls the entries of others may come; what the caller has
/// seen is a legal journal at all times, and each of its calls that leaves an entry is told the machine's reply to it.
pub trait Desk {
    type Lib: Media;

    /// A rendered value of the library.
    type Made: Drop;

    /// The rendered value, as contracts see it.
    ghost made: { Self.Made → RenderedOf Self.Lib };

    /// What the desk keeps beside, which no call changes.
    ghost Kept: { Type 0 };

    /// The caller's number, the library, the limits, and what the caller has seen.
    ghost desk: { Self → DeskOf Self.Lib Kept };

    /// Tells, in a proof, that what was seen is a legal journal within the limit. It does nothing.
    fn known(&self)
        ensures { IsDesk Self.Lib.library (desk self.now) };

    /// The library.
    fn media(&self) -> &Self::Lib
        ensures { result.now ≡ (desk self.now).fixed.library };

    /// Renders a recipe.
    fn render(&self, alloc: Global, recipe: Recipe) -> Result<Self::Made, AllocError>
        requires { CanRender (Self.Lib.library (desk self.now).fixed.library) recipe }
        ensures { IfOk result (λ r. made r ≡ record { recipe = recipe; library = (desk self.now).fixed.library }) };

    /// Makes an edit.
    fn edit(&mut self, alloc: Global, edit: &Edit) -> Result<EditReply, Full>
        requires { IsEdit edit.now }
        ensures { Answers Self.Lib.library (desk self.old) (desk self.new) (record { act = act.Edit edit.now; view = of_edit }) result };

    /// Undoes the last edit that isn't undone.
    fn undo(&mut self, alloc: Global) -> Result<EditReply, Full>
        ensures { Answers Self.Lib.library (desk self.old) (desk self.new) (record { act = act.Undo; view = of_edit }) result };

    /// Makes the edit again that was undone last.
    fn redo(&mut self, alloc: Global) -> Result<EditReply, Full>
        ensures { Answers Self.Lib.library (desk self.old) (desk self.new) (record { act = act.Redo; view = of_edit }) result };

    /// Wants the pictures of `len` frames from `first` on.
    fn want(&mut self, first: u32, len: u32) -> Result<WantReply, Full>
        ensures { Answers Self.Lib.library (desk self.old) (desk self.new) (record { act = act.Want first len; view = of_want }) result };

    /// Cancels the wanted ones of `len` frames from `first` on.
    fn cancel(&mut self, first: u32, len: u32) -> Result<CancelReply, Full>
        ensures { Answers Self.Lib.library (desk self.old) (desk self.new)
            (record { act = act.Cancel first len; view = of_cancel }) result };

    /// Takes the lowest queued job, whose recipe can be rendered.
    fn claim(&mut self) -> Result<ClaimReply, Full>
        ensures found { Finds Self.Lib.library (desk self.old) (desk self.new) result }
        ensures held { IfClaimed result
            (λ claim. Holds (state_of Self.Lib.library (desk self.new)) (desk self.new).fixed.number claim.job claim.recipe) }
        ensures renders { IfClaimed result (λ claim. CanRender (Self.Lib.library (desk self.new).fixed.library) claim.recipe) };

    /// Ends a claim with its result.
    fn file(
        &mut self,
        claim: Claim,
        rendered: Self::Made,
    ) -> Result<FileReply, (Claim, Self::Made, AllocError)>
        requires held { Holds (state_of Self.Lib.library (desk self.old)) (desk self.old).fixed.number claim.job claim.recipe }
        requires rendered { made rendered ≡ record { recipe = claim.recipe; library = (desk self.old).fixed.library } }
        ensures told { Files Self.Lib.library (desk self.old) (desk self.new) (claim, rendered) result }
        ensures held { MatchResult result (λ _. Unit {0})
            (λ back. Holds (state_of Self.Lib.library (desk self.new)) (desk self.new).fixed.number claim.job claim.recipe) };

    /// Gives a claim back. It can't be refused.
    fn release(&mut self, claim: Claim) -> ReleaseReply
        requires { Holds (state_of Self.Lib.library (desk self.old)) (desk self.old).fixed.number claim.job claim.recipe }
        ensures { Enters Self.Lib.library (desk self.old) (desk self.new) (act.Release claim.job) (of_release result) };

    /// Plays frame `n`. A pending recipe can be rendered.
    fn play(&mut self, n: u32) -> Result<PlayReply<<Self::Lib as Media>::Frame>, Full>
        ensures told { Answers Self.Lib.library (desk self.old) (desk self.new) (record { act = act.Play n; view = of_play }) result }
        ensures renders { IfPending result (λ recipe. CanRender (Self.Lib.library (desk self.new).fixed.library) recipe) };

    /// Shows frame `n`, rendered here where it isn't filed: it never answers `Render`. Where that wants memory, the
    /// entry of the show stays.
    fn show(
        &mut self,
        alloc: Global,
        n: u32,
    ) -> Result<ShowReply<<Self::Lib as Media>::Frame>, Full>
        ensures { Shows Self.Lib.library (desk self.old) (desk self.new) n result };

    /// Asks for an export of the timeline.
    fn ask_export(&mut self, alloc: Global, name: &Name) -> Result<AskReply, Full>
        ensures { Answers Self.Lib.library (desk self.old) (desk self.new) (record { act = act.Ask name.now; view = of_ask }) result };

    /// Takes the lowest export that nobody took, whose timeline is sound. It can't be refused.
    fn take_export(&mut self) -> TakeReply
        ensures found { Takes Self.Lib.library (desk self.old) (desk self.new) result }
        ensures held { IfTaken result
            (λ job. HoldsExport (state_of Self.Lib.library (desk self.new)) (desk self.new).fixed.number job.export job.name
            (cells job.segments)) }
        ensures sound { IfTaken result (λ job. IsSound (Self.Lib.library (desk self.new).fixed.library) (cells job.segments)) };

    /// Ends an export that the caller took. It can't be refused.
    fn end_export(&mut self, job: ExportJob, ending: Ending)
        requires { HoldsExport (state_of Self.Lib.library (desk self.old)) (desk self.old).fixed.number job.export job.name
            (cells job.segments) }
        ensures { Enters Self.Lib.library (desk self.old) (desk self.new) (act.End job.export ending) (of_done result) };

    /// Notes a number of turns of work.
    fn mark(&mut self, turns: u32) -> Result<(), Full>
        ensures { Answers Self.Lib.library (desk self.old) (desk self.new) (record { act = act.Mark turns; view = of_done }) result };

    /// Notes a call that was passed over.
    fn skip(&mut self) -> Result<(), Full>
        ensures { Answers Self.Lib.library (desk self.old) (desk self.new) (record { act = act.Skip; view = of_done }) result };

    /// Stops the session, as caller 0. It can't be refused.
    fn stop(&mut self, stopper: Stopper)
        requires main { (desk self.old).fixed.number ≡ 0 }
        requires once { (state_of Self.Lib.library (desk self.old)).is_stopped ≡ false }
        ensures { Enters Self.Lib.library (desk self.old) (desk self.new) act.Stop (of_done result) };
}
