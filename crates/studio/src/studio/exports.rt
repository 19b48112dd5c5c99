//! Calls that ask for exports, take them and end them. Each waits for the turn; its `try_` form doesn't.

ghost use Rattle.tl_model.specs.Cells.{cells};
ghost use Rattle.tl_model.specs.Sound.{IsSound};
ghost use Rattle.tl_model.specs.declared.journal.Act.TheVariants as act;
ghost use Rattle.render_core.specs.Board.{IfTaken, of_ask, of_done};
ghost use Rattle.render_core.specs.State.{HoldsExport};
ghost use Rattle.edit_desk.specs.Desk.{Answers, Enters, Takes, state_of};
ghost use Rattle.studio.specs.Known.{desk_at, Knows};
ghost use Rattle.studio.specs.Tries.{Tries};

use crate::calls::{AskCall, EndCall, TakeCall};
use crate::studio::{Pass, Studio};
use crate::tries::Try;
use render_core::{AskReply, ExportJob, Full, TakeReply};
use std::alloc::Global;
use std::sync::Wait;
use time_list::Lane;
use tl_model::{Ending, Media, Name};

impl<M: Media + Drop, L: Lane> Studio<M, L> {
    /// Asks for an export of the timeline as it then is, under a name.
    pub fn ask_export<R: Wait>(
        &self,
        rt: &R,
        alloc: Global,
        pass: &mut Pass<M, L>,
        name: &Name,
    ) -> Result<AskReply, Full>
        requires knows { Knows M.library self.now pass.old }
        ensures told { Answers M.library (desk_at self.now pass.old) (desk_at self.now pass.new)
            (record { act = act.Ask name.now; view = of_ask }) result }
        ensures knows { Knows M.library self.now pass.new }
    {
        self.enter(rt, pass, AskCall { alloc, name })
    }

    /// As `ask_export`, if the turn is free.
    pub fn try_ask_export(
        &self,
        alloc: Global,
        pass: &mut Pass<M, L>,
        name: &Name,
    ) -> Try<Result<AskReply, Full>, ()>
        requires knows { Knows M.library self.now pass.old }
        ensures told { Tries pass.old pass.new tt result (λ answer.
            Answers M.library (desk_at self.now pass.old) (desk_at self.now pass.new)
            (record { act = act.Ask name.now; view = of_ask }) answer) }
        ensures knows { Knows M.library self.now pass.new }
    {
        self.try_enter(pass, AskCall { alloc, name })
    }

    /// Takes the lowest export that nobody took, whose timeline is sound. It can't be refused.
    pub fn take_export<R: Wait>(&self, rt: &R, pass: &mut Pass<M, L>) -> TakeReply
        requires knows { Knows M.library self.now pass.old }
        ensures told { Takes M.library (desk_at self.now pass.old) (desk_at self.now pass.new) result }
        ensures held { IfTaken result (λ job.
            HoldsExport (state_of M.library (desk_at self.now pass.new)) pass.old.number job.export job.name (cells job.segments)) }
        ensures sound { IfTaken result (λ job. IsSound (M.library self.now.start.library) (cells job.segments)) }
        ensures knows { Knows M.library self.now pass.new }
    {
        self.enter(rt, pass, TakeCall)
    }

    /// As `take_export`, if the turn is free.
    pub fn try_take_export(&self, pass: &mut Pass<M, L>) -> Try<TakeReply, ()>
        requires knows { Knows M.library self.now pass.old }
        ensures told { Tries pass.old pass.new tt result (λ answer.
            Takes M.library (desk_at self.now pass.old) (desk_at self.now pass.new) answer
            × IfTaken answer (λ job.
            HoldsExport (state_of M.library (desk_at self.now pass.new)) pass.old.number job.export job.name (cells job.segments))
            × IfTaken answer (λ job. IsSound (M.library self.now.start.library) (cells job.segments))) }
        ensures knows { Knows M.library self.now pass.new }
    {
        self.try_enter(pass, TakeCall)
    }

    /// Ends an export that the caller took. It can't be refused.
    pub fn end_export<R: Wait>(&self, rt: &R, pass: &mut Pass<M, L>, job: ExportJob, ending: Ending)
        requires knows { Knows M.library self.now pass.old }
        requires held { HoldsExport (state_of M.library (desk_at self.now pass.old)) pass.old.number job.export job.name
            (cells job.segments) }
        ensures told { Enters M.library (desk_at self.now pass.old) (desk_at self.now pass.new) (act.End job.export ending)
            (of_done result) }
        ensures knows { Knows M.library self.now pass.new }
    {
        self.enter(rt, pass, EndCall { job, ending });
    }

    /// As `end_export`, if the turn is free. What it would have spent comes back where it isn't.
    pub fn try_end_export(
        &self,
        pass: &mut Pass<M, L>,
        job: ExportJob,
        ending: Ending,
    ) -> Try<(), ExportJob>
        requires knows { Knows M.library self.now pass.old }
        requires held { HoldsExport (state_of M.library (desk_at self.now pass.old)) pass.old.number job.export job.name
            (cells job.segments) }
        ensures told { Tries pass.old pass.new job result (λ answer.
            Enters M.library (desk_at self.now pass.old) (desk_at self.now pass.new) (act.End job.export ending) (of_done answer)) }
        ensures knows { Knows M.library self.now pass.new }
    {
        self.try_enter(pass, EndCall { job, ending })
    }
}
