//! Calls that ask for exports, take them and end them.

use crate::call::Call;
use render_core::{AskReply, Board, ExportJob, Full, TakeReply};
use std::alloc::Global;
use time_list::Lane;
use tl_model::{Ending, Media, Name};

/// Asks for an export.
#[derive(Drop)]
pub(crate) struct AskCall<'a> {
    pub(crate) alloc: Global,
    pub(crate) name: &'a Name,
}

impl<'a, M: Media, L: Lane> Call<M, L> for AskCall<'a> {
    ghost use Rattle.tl_model.specs.declared.journal.Act.TheVariants as act;
    ghost use Rattle.render_core.specs.Board.{of_ask};
    ghost use Rattle.edit_desk.specs.Desk.{Answers};
    ghost use Rattle.edit_desk.proofs.Later.{answers_later};

    type Answer = Result<AskReply, Full>;

    type Spent = ();

    ghost spent = { λ call. tt };

    ghost asks = { λ call desk. Unit {0} };

    ghost told = { λ call old new. Answers M.library old new (record { act = act.Ask call.name.now; view = of_ask }) };

    fn make(self, by: u32, _media: &M, board: &mut Board<M, L>) -> Result<AskReply, Full> {
        board.ask_export(self.alloc, by, self.name)
    }

    fn back(self) {}

    ghost lasts = { λ call old new learns known asks. tt };

    ghost later = { λ call old mid new. answers_later M.library old mid new (record { act = act.Ask call.name.now; view = of_ask }) };
}

/// Takes the lowest export that nobody took.
#[derive(Drop)]
pub(crate) struct TakeCall;

impl<M: Media, L: Lane> Call<M, L> for TakeCall {
    ghost use Rattle.tl_model.specs.Cells.{cells};
    ghost use Rattle.tl_model.specs.Sound.{IsSound};
    ghost use Rattle.render_core.specs.Board.{IfTaken};
    ghost use Rattle.render_core.specs.State.{HoldsExport};
    ghost use Rattle.edit_desk.specs.Desk.{Takes, state_of};
    ghost use Rattle.edit_desk.proofs.Later.{takes_later};

    type Answer = TakeReply;

    type Spent = ();

    ghost spent = { λ call. tt };

    ghost asks = { λ call desk. Unit {0} };

    ghost told = { λ call old new answer. Takes M.library old new answer
        × IfTaken answer (λ job. HoldsExport (state_of M.library new) new.fixed.number job.export job.name (cells job.segments))
        × IfTaken answer (λ job. IsSound (M.library new.fixed.library) (cells job.segments)) };

    fn make(self, by: u32, _media: &M, board: &mut Board<M, L>) -> TakeReply {
        board.take_export(by)
    }

    fn back(self) {}

    ghost lasts = { λ call old new learns known asks. tt };

    ghost later = { λ call old mid new answer learns told.
        (takes_later M.library old mid new answer learns told.0, told.1, told.2) };
}

/// Ends an export that its caller took.
pub(crate) struct EndCall {
    pub(crate) job: ExportJob,
    pub(crate) ending: Ending,
}

impl<M: Media, L: Lane> Call<M, L> for EndCall {
    ghost use Rattle.tl_model.specs.Cells.{cells};
    ghost use Rattle.tl_model.specs.declared.journal.Act.TheVariants as act;
    ghost use Rattle.render_core.specs.Board.{of_done};
    ghost use Rattle.render_core.specs.State.{HoldsExport};
    ghost use Rattle.edit_desk.specs.Desk.{Enters, state_of};
    ghost use Rattle.edit_desk.proofs.Later.{enters_later, holds_export_later};

    type Answer = ();

    type Spent = ExportJob;

    ghost spent = { λ call. call.job };

    ghost asks = { λ call desk. HoldsExport (state_of M.library desk) desk.fixed.number call.job.export call.job.name
        (cells call.job.segments) };

    ghost told = { λ call old new answer. Enters M.library old new (act.End call.job.export call.ending) (of_done answer) };

    fn make(self, by: u32, _media: &M, board: &mut Board<M, L>) {
        let EndCall { job, ending } = self;
        board.end_export(by, job, ending);
    }

    fn back(self) -> ExportJob {
        let EndCall { job, ending: _ } = self;
        job
    }

    ghost lasts = { λ call old new. holds_export_later M.library old new call.job.export call.job.name (cells call.job.segments) };

    ghost later = { λ call old mid new answer. enters_later M.library old mid new (act.End call.job.export call.ending) (of_done answer) };
}
