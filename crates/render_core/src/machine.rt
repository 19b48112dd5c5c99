//! The machine: the timeline, the jobs, the filed results and the exports, without the journal.

ghost use Rattle.std.specs.Prelude.{◌≡◌, ℕ, ◌+◌, ◌-◌, ◌<◌, ◌≤◌, length, slice_get, Some, MatchResult, OnErr, IsTrue, ◌↔◌};
ghost use Rattle.std.specs.Option.{option_map};
ghost use Rattle.std.specs.List.{position};
ghost use Rattle.tl_model.specs.Cells.{recipes};
ghost use Rattle.tl_model.specs.Edit.{IsEdit};
ghost use Rattle.tl_model.specs.Media.{RenderedOf, CanRender};
ghost use Rattle.tl_model.specs.Sound.{IsSound};
ghost use Rattle.tl_model.specs.declared.journal.Act.TheVariants as act;
ghost use Rattle.edit_undo.specs.History.{History, edit_outcome, undo_outcome, redo_outcome};
ghost use Rattle.render_core.specs.State.{start, is_queued, Holds, HoldsExport};
ghost use Rattle.render_core.specs.Step.{step, reply, after_claim, is_filed, with_history, edit_reply, Filed};
ghost use Rattle.render_core.specs.Board.{of_edit, of_want, of_cancel, of_file, of_release, of_play, of_show, of_ask, of_take, of_done, IfPending, IfRender};
ghost use Rattle.render_core.specs.Parts.{MachineOf, in_state, IsHeld, Turns, TurnsTo, setup_at};

mod exports;

use crate::claim::Claim;
use crate::export::Exports;
use crate::jobs::Jobs;
use crate::reply::{CancelReply, FileReply, PlayReply, ReleaseReply, ShowReply, WantReply};
use crate::results::Results;
use edit_undo::{Editor, keeps_sound_history};
use std::alloc::{AllocError, Global};
use std::marker::Model;
use std::snapshot::Snapshot;
use time_list::{Lane, recipe_in};
use tl_model::{Edit, EditReply, Media, Rendered};

/// What the calls of a board work on. Every filed result was rendered in the library, no recipe has two open jobs, the
/// recipe of every frame and job can be rendered, and every export's timeline is sound.
#[derive(Drop)]
pub(crate) struct Machine<M: Media, L: Lane> {
    library: Snapshot<M>,
    editor: Editor<L>,
    jobs: Jobs,
    results: Results<M>,
    exports: Exports,
    cache: u32,
    is_stopped: bool,
}

impl<M: Media, L: Lane> Model for Machine<M, L> {
    ghost use Rattle.render_core.specs.Parts.{MachineOf, IsMachine, recipes_of};

    ghost Value = { MachineOf M };

    ghost view = { λ m. record {
      library = m.library.value;
      cache = m.cache;
      state = record {
        history = m.editor;
        jobs = m.jobs;
        filed = recipes_of m.results;
        exports = m.exports;
        is_stopped = m.is_stopped;
      };
    } };

    ghost invariant = { λ m. IsMachine M.library
        (record { library = m.library.value; history = m.editor; jobs = m.jobs; results = m.results; exports = m.exports }) };
}

impl<M: Media, L: Lane> Machine<M, L> {
    /// No frames, no jobs, no results, no exports.
    pub(crate) fn start(alloc: Global, media: &M, cache: u32) -> Machine<M, L>
        ensures { result ≡ record { library = media.now; cache = cache; state = start } }
    {
        Machine {
            library: Snapshot::of(media),
            editor: Editor::blank(alloc),
            jobs: Jobs::new(alloc),
            results: Results::new(alloc),
            exports: Exports::new(alloc),
            cache,
            is_stopped: false,
        }
    }

    /// Whether the session was stopped.
    pub(crate) fn is_stopped(&self) -> bool
        ensures { result ≡ self.now.state.is_stopped }
    {
        self.is_stopped
    }

    /// Whether a pass holds the job of a claim.
    pub(crate) fn holds(&self, by: u32, claim: &Claim) -> bool
        ensures held { IsTrue result → Holds self.now.state by claim.now.job claim.now.recipe }
        ensures free { Holds self.now.state by claim.now.job claim.now.recipe → IsTrue result }
    {
        claim.job > 0
            && self
                .jobs
                .is_held_by((claim.job - 1) as usize, by, claim.recipe)
    }

    /// The place of the lowest queued job.
    pub(crate) fn lowest_queued(&self) -> Option<usize>
        ensures { result ≡ position is_queued self.now.state.jobs }
    {
        self.jobs.lowest_queued()
    }

    /// Makes an edit or refuses it, as entry `at`.
    pub(crate) fn edit(
        &mut self,
        alloc: Global,
        media: &M,
        edit: &Edit,
        at: u64,
    ) -> Result<EditReply, AllocError>
        requires library { media.now ≡ self.old.library }
        requires formed { IsEdit edit.now }
        ensures { Turns M.library (record { at = at; pass = 0; act = act.Edit edit.now; view = of_edit }) self.old self.new result }
    {
        keeps_sound_history(media, edit);
        let reply = self.editor.apply(alloc, media, edit)?;
        self.jobs.close_after(reply, self.editor.lane(), at);
        Ok(reply)
    }

    /// Undoes the last edit, as entry `at`.
    pub(crate) fn undo(&mut self, alloc: Global, at: u64) -> Result<EditReply, AllocError>
        ensures { Turns M.library (record { at = at; pass = 0; act = act.Undo; view = of_edit }) self.old self.new result }
    {
        let reply = self.editor.undo(alloc)?;
        self.jobs.close_after(reply, self.editor.lane(), at);
        Ok(reply)
    }

    /// Makes the last undone edit again, as entry `at`.
    pub(crate) fn redo(&mut self, alloc: Global, at: u64) -> Result<EditReply, AllocError>
        ensures { Turns M.library (record { at = at; pass = 0; act = act.Redo; view = of_edit }) self.old self.new result }
    {
        let reply = self.editor.redo(alloc)?;
        self.jobs.close_after(reply, self.editor.lane(), at);
        Ok(reply)
    }

    /// Makes the jobs of a range.
    pub(crate) fn want(&mut self, first: u32, len: u32) -> Result<WantReply, AllocError>
        ensures { Turns M.library (record { at = 0; pass = 0; act = act.Want first len; view = of_want }) self.old self.new result }
    {
        let frames = self.editor.lane().frames();
        if u64::from(first) + u64::from(len) > u64::from(frames) {
            return Ok(WantReply::PastEnd { len: frames });
        }
        let before = self.jobs.len();
        self.jobs
            .want_range(self.editor.lane(), &self.results, first, len)?;
        let count = (self.jobs.len() - before) as u32;
        Ok(WantReply::Wanted { count })
    }

    /// Closes the open jobs of a range, as entry `at`.
    pub(crate) fn cancel(&mut self, at: u64, first: u32, len: u32) -> CancelReply
        ensures { TurnsTo M.library (record { at = at; pass = 0; act = act.Cancel first len; view = of_cancel }) self.old self.new result }
    {
        let frames = self.editor.lane().frames();
        if u64::from(first) + u64::from(len) > u64::from(frames) {
            return CancelReply::PastEnd { len: frames };
        }
        let count = self.jobs.count_range(self.editor.lane(), first, len) as u32;
        self.jobs.close_range(self.editor.lane(), first, len, at);
        CancelReply::Cancelled { count }
    }

    /// Gives the queued job at a place to a pass.
    pub(crate) fn claim(&mut self, by: u32, place: usize) -> Claim
        requires { position is_queued self.old.state.jobs ≡ Some place }
        ensures state { self.new ≡ in_state (after_claim by (Some place) self.old.state) self.old }
        ensures job { result.job ≡ place + 1 }
        ensures recipe { option_map (λ job. job.recipe) (slice_get self.old.state.jobs place) ≡ Some result.recipe }
        ensures renders { CanRender (M.library self.old.library) result.recipe }
    {
        let job = self.jobs.hold(place, by);
        Claim {
            job: place as u64 + 1,
            recipe: job.recipe,
        }
    }

    /// Ends a job that a pass holds with its result, as entry `at`. Only at an open job can memory be wanting; the claim
    /// and the result then come back.
    pub(crate) fn file(
        &mut self,
        at: u64,
        claim: Claim,
        rendered: Rendered<M>,
    ) -> Result<FileReply, (Claim, Rendered<M>)>
        requires held { IsHeld self.old.state claim }
        requires rendered { rendered ≡ record { recipe = claim.recipe; library = self.old.library } }
        ensures done { MatchResult result (λ given. TurnsTo M.library
            (record { at = at; pass = 0; act = act.File claim.job; view = of_file }) self.old self.new given)
            (λ back. (self.new ≡ self.old) × (back.0 ≡ claim) × (back.1 ≡ rendered)) }
        ensures open_job { OnErr result (reply (M.library self.old.library) (act.File claim.job) self.old.state ≡ Filed) }
    {
        let Claim { job, recipe } = claim;
        let place = (job - 1) as usize;
        if let Some(closed) = self.jobs.at(place).closed {
            self.jobs.let_go(place);
            return Ok(FileReply::Closed { at: closed });
        }
        match self.results.put_first(rendered, self.cache) {
            Ok(()) => {
                self.jobs.end(place, at);
                Ok(FileReply::Filed)
            }
            Err(rendered) => Err((Claim { job, recipe }, rendered)),
        }
    }

    /// Gives a job back that a pass holds.
    pub(crate) fn release(&mut self, claim: Claim) -> ReleaseReply
        requires { IsHeld self.old.state claim }
        ensures { TurnsTo M.library (record { at = 0; pass = 0; act = act.Release claim.job; view = of_release }) self.old self.new result }
    {
        let Claim { job, recipe: _ } = claim;
        let held = self.jobs.let_go((job - 1) as usize);
        match held.closed {
            None => ReleaseReply::Released,
            Some(at) => ReleaseReply::Closed { at },
        }
    }

    /// The filed result of a frame, which comes first, or its recipe.
    pub(crate) fn play(&mut self, n: u32) -> Result<PlayReply<M::Frame>, AllocError>
        ensures turn { Turns M.library (record { at = 0; pass = 0; act = act.Play n; view = of_play }) self.old self.new result }
        ensures renders { IfPending result (λ recipe. CanRender (M.library self.old.library) recipe) }
        ensures filed { OnErr result (IsTrue (is_filed (slice_get (recipes self.old.state.history.line) n) self.old.state)) }
    {
        let lane = self.editor.lane();
        let frames = lane.frames();
        if n >= frames {
            return Ok(PlayReply::PastEnd { len: frames });
        }
        let recipe = recipe_in(lane, n);
        let Some(place) = self.results.place_of(recipe) else {
            return Ok(PlayReply::Pending { recipe });
        };
        let given = self.results.shared(place)?;
        self.results.move_first(place);
        Ok(given)
    }

    /// As a play. A recipe that isn't filed is to be rendered.
    pub(crate) fn show(&mut self, n: u32) -> Result<ShowReply<M::Frame>, AllocError>
        ensures turn { Turns M.library (record { at = 0; pass = 0; act = act.Show n; view = of_show }) self.old self.new result }
        ensures renders { IfRender result (λ recipe. CanRender (M.library self.old.library) recipe) }
        ensures filed { OnErr result (IsTrue (is_filed (slice_get (recipes self.old.state.history.line) n) self.old.state)) }
    {
        match self.play(n) {
            Ok(PlayReply::Frame(frame)) => Ok(ShowReply::Frame(frame)),
            Ok(PlayReply::Fault(fault)) => Ok(ShowReply::Fault(fault)),
            Ok(PlayReply::Pending { recipe }) => Ok(ShowReply::Render { recipe }),
            Ok(PlayReply::PastEnd { len }) => Ok(ShowReply::PastEnd { len }),
            Err(why) => Err(why),
        }
    }

    /// No more claims.
    pub(crate) fn stop(&mut self)
        ensures { self.new ≡ in_state (step (setup_at M.library self.old) 0 0 (act.Stop) self.old.state) self.old }
    {
        self.is_stopped = true;
    }
}
