//! Calls that change the timeline or want its frames, and notes.

use crate::call::Call;
use render_core::{Board, CancelReply, Full, WantReply};
use std::alloc::Global;
use time_list::Lane;
use tl_model::{Edit, EditReply, Media};

/// Makes an edit.
#[derive(Drop)]
pub(crate) struct EditCall<'a> {
    pub(crate) alloc: Global,
    pub(crate) edit: &'a Edit,
}

impl<'a, M: Media, L: Lane> Call<M, L> for EditCall<'a> {
    ghost use Rattle.tl_model.specs.declared.journal.Act.TheVariants as act;
    ghost use Rattle.tl_model.specs.Edit.{IsEdit};
    ghost use Rattle.render_core.specs.Board.{of_edit};
    ghost use Rattle.edit_desk.specs.Desk.{Answers};
    ghost use Rattle.edit_desk.proofs.Later.{answers_later};

    type Answer = Result<EditReply, Full>;

    type Spent = ();

    ghost spent = { λ call. tt };

    ghost asks = { λ call desk. IsEdit call.edit.now };

    ghost told = { λ call old new. Answers M.library old new (record { act = act.Edit call.edit.now; view = of_edit }) };

    fn make(self, by: u32, media: &M, board: &mut Board<M, L>) -> Result<EditReply, Full> {
        board.edit(self.alloc, by, media, self.edit)
    }

    fn back(self) {}

    ghost lasts = { λ call old new learns known asks. asks };

    ghost later = { λ call old mid new. answers_later M.library old mid new (record { act = act.Edit call.edit.now; view = of_edit }) };
}

/// Undoes the last edit that isn't undone.
#[derive(Drop)]
pub(crate) struct UndoCall {
    pub(crate) alloc: Global,
}

impl<M: Media, L: Lane> Call<M, L> for UndoCall {
    ghost use Rattle.tl_model.specs.declared.journal.Act.TheVariants as act;
    ghost use Rattle.render_core.specs.Board.{of_edit};
    ghost use Rattle.edit_desk.specs.Desk.{Answers};
    ghost use Rattle.edit_desk.proofs.Later.{answers_later};

    type Answer = Result<EditReply, Full>;

    type Spent = ();

    ghost spent = { λ call. tt };

    ghost asks = { λ call desk. Unit {0} };

    ghost told = { λ call old new. Answers M.library old new (record { act = act.Undo; view = of_edit }) };

    fn make(self, by: u32, _media: &M, board: &mut Board<M, L>) -> Result<EditReply, Full> {
        board.undo(self.alloc, by)
    }

    fn back(self) {}

    ghost lasts = { λ call old new learns known asks. tt };

    ghost later = { λ call old mid new. answers_later M.library old mid new (record { act = act.Undo; view = of_edit }) };
}

/// Makes the edit again that was undone last.
#[derive(Drop)]
pub(crate) struct RedoCall {
    pub(crate) alloc: Global,
}

impl<M: Media, L: Lane> Call<M, L> for RedoCall {
    ghost use Rattle.tl_model.specs.declared.journal.Act.TheVariants as act;
    ghost use Rattle.render_core.specs.Board.{of_edit};
    ghost use Rattle.edit_desk.specs.Desk.{Answers};
    ghost use Rattle.edit_desk.proofs.Later.{answers_later};

    type Answer = Result<EditReply, Full>;

    type Spent = ();

    ghost spent = { λ call. tt };

    ghost asks = { λ call desk. Unit {0} };

    ghost told = { λ call old new. Answers M.library old new (record { act = act.Redo; view = of_edit }) };

    fn make(self, by: u32, _media: &M, board: &mut Board<M, L>) -> Result<EditReply, Full> {
        board.redo(self.alloc, by)
    }

    fn back(self) {}

    ghost lasts = { λ call old new learns known asks. tt };

    ghost later = { λ call old mid new. answers_later M.library old mid new (record { act = act.Redo; view = of_edit }) };
}

/// Wants the pictures of a range of frames.
#[derive(Drop)]
pub(crate) struct WantCall {
    pub(crate) first: u32,
    pub(crate) len: u32,
}

impl<M: Media, L: Lane> Call<M, L> for WantCall {
    ghost use Rattle.tl_model.specs.declared.journal.Act.TheVariants as act;
    ghost use Rattle.render_core.specs.Board.{of_want};
    ghost use Rattle.edit_desk.specs.Desk.{Answers};
    ghost use Rattle.edit_desk.proofs.Later.{answers_later};

    type Answer = Result<WantReply, Full>;

    type Spent = ();

    ghost spent = { λ call. tt };

    ghost asks = { λ call desk. Unit {0} };

    ghost told = { λ call old new. Answers M.library old new (record { act = act.Want call.first call.len; view = of_want }) };

    fn make(self, by: u32, _media: &M, board: &mut Board<M, L>) -> Result<WantReply, Full> {
        board.want(by, self.first, self.len)
    }

    fn back(self) {}

    ghost lasts = { λ call old new learns known asks. tt };

    ghost later = { λ call old mid new. answers_later M.library old mid new
        (record { act = act.Want call.first call.len; view = of_want }) };
}

/// Cancels the wanted ones of a range of frames.
#[derive(Drop)]
pub(crate) struct CancelCall {
    pub(crate) first: u32,
    pub(crate) len: u32,
}

impl<M: Media, L: Lane> Call<M, L> for CancelCall {
    ghost use Rattle.tl_model.specs.declared.journal.Act.TheVariants as act;
    ghost use Rattle.render_core.specs.Board.{of_cancel};
    ghost use Rattle.edit_desk.specs.Desk.{Answers};
    ghost use Rattle.edit_desk.proofs.Later.{answers_later};

    type Answer = Result<CancelReply, Full>;

    type Spent = ();

    ghost spent = { λ call. tt };

    ghost asks = { λ call desk. Unit {0} };

    ghost told = { λ call old new. Answers M.library old new (record { act = act.Cancel call.first call.len; view = of_cancel }) };

    fn make(self, by: u32, _media: &M, board: &mut Board<M, L>) -> Result<CancelReply, Full> {
        board.cancel(by, self.first, self.len)
    }

    fn back(self) {}

    ghost lasts = { λ call old new learns known asks. tt };

    ghost later = { λ call old mid new. answers_later M.library old mid new
        (record { act = act.Cancel call.first call.len; view = of_cancel }) };
}

/// Notes a number of turns of work.
#[derive(Drop)]
pub(crate) struct MarkCall {
    pub(crate) turns: u32,
}

impl<M: Media, L: Lane> Call<M, L> for MarkCall {
    ghost use Rattle.tl_model.specs.declared.journal.Act.TheVariants as act;
    ghost use Rattle.render_core.specs.Board.{of_done};
    ghost use Rattle.edit_desk.specs.Desk.{Answers};
    ghost use Rattle.edit_desk.proofs.Later.{answers_later};

    type Answer = Result<(), Full>;

    type Spent = ();

    ghost spent = { λ call. tt };

    ghost asks = { λ call desk. Unit {0} };

    ghost told = { λ call old new. Answers M.library old new (record { act = act.Mark call.turns; view = of_done }) };

    fn make(self, by: u32, _media: &M, board: &mut Board<M, L>) -> Result<(), Full> {
        board.mark(by, self.turns)
    }

    fn back(self) {}

    ghost lasts = { λ call old new learns known asks. tt };

    ghost later = { λ call old mid new. answers_later M.library old mid new (record { act = act.Mark call.turns; view = of_done }) };
}

/// Notes a call that was passed over.
#[derive(Drop)]
pub(crate) struct SkipCall;

impl<M: Media, L: Lane> Call<M, L> for SkipCall {
    ghost use Rattle.tl_model.specs.declared.journal.Act.TheVariants as act;
    ghost use Rattle.render_core.specs.Board.{of_done};
    ghost use Rattle.edit_desk.specs.Desk.{Answers};
    ghost use Rattle.edit_desk.proofs.Later.{answers_later};

    type Answer = Result<(), Full>;

    type Spent = ();

    ghost spent = { λ call. tt };

    ghost asks = { λ call desk. Unit {0} };

    ghost told = { λ call old new. Answers M.library old new (record { act = act.Skip; view = of_done }) };

    fn make(self, by: u32, _media: &M, board: &mut Board<M, L>) -> Result<(), Full> {
        board.skip(by)
    }

    fn back(self) {}

    ghost lasts = { λ call old new learns known asks. tt };

    ghost later = { λ call old mid new. answers_later M.library old mid new (record { act = act.Skip; view = of_done }) };
}
