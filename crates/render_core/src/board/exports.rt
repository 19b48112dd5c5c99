//! Calls that ask for exports, take them and end them.

ghost use Rattle.std.specs.Prelude.{◌≡◌, ◌+◌, ◌≤◌, Some, OnOk, MatchResult};
ghost use Rattle.tl_model.specs.Cells.{cells};
ghost use Rattle.tl_model.specs.Sound.{IsSound};
ghost use Rattle.tl_model.specs.declared.journal.Act.TheVariants as act;
ghost use Rattle.render_core.specs.State.{HoldsExport};
ghost use Rattle.render_core.specs.Step.{need};
ghost use Rattle.render_core.specs.Board.{state_of, HasRoom, Makes, Refuses, Does, Pays, Takes, IfTaken, of_ask, of_done};

use crate::board::Board;
use crate::export::ExportJob;
use crate::reply::{AskReply, Full, TakeReply};
use std::alloc::Global;
use time_list::Lane;
use tl_model::{Act, Ending, Entry, Media, Name};

impl<M: Media, L: Lane> Board<M, L> {
    /// Asks for an export of the timeline as it now is, under a name. Room and memory for its take and its end are kept,
    /// so that these can't be refused. `EmptyTimeline` comes exactly where there is no frame, and needs one entry.
    pub fn ask_export(&mut self, alloc: Global, by: u32, name: &Name) -> Result<AskReply, Full>
        ensures done { Does M.library self.old self.new (record { pass = by; act = act.Ask name.now; view = of_ask }) result }
        ensures uses { need (act.Ask name.now) (state_of M.library self.old) ≤ self.old.spare
            → OnOk result (self.new.spare + need (act.Ask name.now) (state_of M.library self.old) ≡ self.old.spare) }
    {
        let count = self.machine.ask_need();
        self.ask_with(alloc, by, name, count)
    }

    /// Asks for an export where so many entries are needed.
    fn ask_with(
        &mut self,
        alloc: Global,
        by: u32,
        name: &Name,
        count: u64,
    ) -> Result<AskReply, Full>
        requires need { count ≡ need (act.Ask name.now) (state_of M.library self.old) }
        requires some { 1 ≤ count }
        requires few { count ≤ 3 }
        ensures done { MatchResult result (λ given. HasRoom M.library self.old count × Makes M.library self.old self.new (Some
            (record { pass = by; act = act.Ask name.now; told = of_ask given }))) (λ why. Refuses M.library self.old self.new count why) }
        ensures uses { count ≤ self.old.spare → OnOk result (self.new.spare + count ≡ self.old.spare) }
    {
        self.make_room(count)?;
        let Ok(copy) = name.copy(alloc) else {
            return Err(Full::NoMemory);
        };
        let Ok(reply) = self.machine.ask(alloc, name) else {
            return Err(Full::NoMemory);
        };
        self.journal.push_reserved(Entry {
            pass: by,
            act: Act::Ask { name: copy },
        });
        self.owed += count - 1;
        Ok(reply)
    }

    /// Takes the lowest export that nobody took. `Idle` and `Stopped` come where there is none, and add no entry. It
    /// can't be refused. The timeline is sound, so that each of its frames can be rendered.
    pub fn take_export(&mut self, by: u32) -> TakeReply
        ensures done { Takes M.library self.old self.new by result }
        ensures held { IfTaken result (λ job. HoldsExport (state_of M.library self.new) by job.export job.name (cells job.segments)) }
        ensures sound { IfTaken result (λ job. IsSound (M.library self.new.library) (cells job.segments)) }
    {
        let len = self.journal.len() as u64;
        let Some(place) = self.machine.lowest_untaken() else {
            return if self.machine.is_stopped() {
                TakeReply::Stopped { len }
            } else {
                TakeReply::Idle { len }
            };
        };
        let job = self.machine.take(by, place);
        self.journal.push_reserved(Entry {
            pass: by,
            act: Act::Take,
        });
        self.owed -= 1;
        TakeReply::Taken(job)
    }

    /// Ends an export that the caller took. It can't be refused.
    pub fn end_export(&mut self, by: u32, job: ExportJob, ending: Ending)
        requires { HoldsExport (state_of M.library self.old) by job.export job.name (cells job.segments) }
        ensures { Pays M.library self.old self.new (record { pass = by; act = act.End job.export ending; view = of_done }) result }
    {
        let export = job.export();
        self.machine.end_export(job, ending);
        self.journal.push_reserved(Entry {
            pass: by,
            act: Act::End { export, ending },
        });
        self.owed -= 1;
    }
}
