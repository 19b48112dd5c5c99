//! What a machine does with exports.

ghost use Rattle.std.specs.Prelude.{◌≡◌, ℕ, List, ◌≤◌, ◌+◌, ◌-◌, length, slice_get, Some};
ghost use Rattle.std.specs.List.{position};
ghost use Rattle.tl_model.specs.Cells.{cells};
ghost use Rattle.tl_model.specs.Sound.{IsSound};
ghost use Rattle.tl_model.specs.declared.journal.Act.TheVariants as act;
ghost use Rattle.render_core.specs.Export.{is_untaken};
ghost use Rattle.render_core.specs.State.{HoldsExport};
ghost use Rattle.render_core.specs.Step.{need, step, after_take};
ghost use Rattle.render_core.specs.Board.{of_ask, of_done};
ghost use Rattle.render_core.specs.Parts.{in_state, Turns, TurnsTo, setup_at};
ghost use Rattle.render_core.specs.Waiting.{Took, IsHeldExport};

use crate::export::ExportJob;
use crate::machine::Machine;
use crate::reply::AskReply;
use std::alloc::{AllocError, Global};
use time_list::Lane;
use tl_model::{Ending, Media, Name};

impl<M: Media, L: Lane> Machine<M, L> {
    /// How many entries an ask needs: its own, and but for an empty timeline the take and the end.
    pub(crate) fn ask_need(&self) -> u64
        ensures need { (name : List ℕ) → result ≡ need (act.Ask name) self.now.state }
        ensures some { 1 ≤ result }
        ensures few { result ≤ 3 }
    {
        if self.editor.lane().frames() == 0 {
            1
        } else {
            3
        }
    }

    /// Notes an export with a copy of the timeline. There is none of an empty one.
    pub(crate) fn ask(&mut self, alloc: Global, name: &Name) -> Result<AskReply, AllocError>
        ensures { Turns M.library (record { at = 0; pass = 0; act = act.Ask name.now; view = of_ask }) self.old self.new result }
    {
        let lane = self.editor.lane();
        if lane.frames() == 0 {
            return Ok(AskReply::EmptyTimeline);
        }
        let segments = lane.snapshot(alloc)?;
        let name = name.copy(alloc)?;
        let export = self.exports.ask(name, segments)?;
        Ok(AskReply::Asked { export })
    }

    /// The place of the lowest export that nobody took.
    pub(crate) fn lowest_untaken(&self) -> Option<usize>
        ensures { result ≡ position is_untaken self.now.state.exports }
    {
        self.exports.lowest_untaken()
    }

    /// Gives the export at a place to a pass.
    pub(crate) fn take(&mut self, by: u32, place: usize) -> ExportJob
        requires { position is_untaken self.old.state.exports ≡ Some place }
        ensures state { self.new ≡ in_state (after_take by (Some place) self.old.state) self.old }
        ensures number { result.export ≡ place + 1 }
        ensures parts { Took result.name (cells result.segments) (slice_get self.old.state.exports place) }
        ensures sound { IsSound (M.library self.old.library) (cells result.segments) }
    {
        self.exports.take(place, by)
    }

    /// Ends an export that a pass holds.
    pub(crate) fn end_export(&mut self, job: ExportJob, ending: Ending)
        requires { IsHeldExport self.old.state job }
        ensures { self.new ≡ in_state (step (setup_at M.library self.old) 0 0 (act.End job.export ending) self.old.state) self.old }
    {
        let ExportJob {
            export,
            name: _,
            segments: _,
        } = job;
        self.exports.end((export - 1) as usize, ending);
    }
}
