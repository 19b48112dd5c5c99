//! Calls that change the timeline or want its frames, and notes. Each waits for the turn; its `try_` form doesn't.

ghost use Rattle.tl_model.specs.Edit.{IsEdit};
ghost use Rattle.tl_model.specs.declared.journal.Act.TheVariants as act;
ghost use Rattle.render_core.specs.Board.{of_edit, of_want, of_cancel, of_done};
ghost use Rattle.edit_desk.specs.Desk.{Answers};
ghost use Rattle.studio.specs.Known.{desk_at, Knows};
ghost use Rattle.studio.specs.Tries.{Tries};

use crate::calls::{CancelCall, EditCall, MarkCall, RedoCall, SkipCall, UndoCall, WantCall};
use crate::studio::{Pass, Studio};
use crate::tries::Try;
use render_core::{CancelReply, Full, WantReply};
use std::alloc::Global;
use std::sync::Wait;
use time_list::Lane;
use tl_model::{Edit, EditReply, Media};

impl<M: Media + Drop, L: Lane> Studio<M, L> {
    /// Makes an edit.
    pub fn edit<R: Wait>(
        &self,
        rt: &R,
        alloc: Global,
        pass: &mut Pass<M, L>,
        edit: &Edit,
    ) -> Result<EditReply, Full>
        requires knows { Knows M.library self.now pass.old }
        requires edit { IsEdit edit.now }
        ensures told { Answers M.library (desk_at self.now pass.old) (desk_at self.now pass.new)
            (record { act = act.Edit edit.now; view = of_edit }) result }
        ensures knows { Knows M.library self.now pass.new }
    {
        self.enter(rt, pass, EditCall { alloc, edit })
    }

    /// As `edit`, if the turn is free.
    pub fn try_edit(
        &self,
        alloc: Global,
        pass: &mut Pass<M, L>,
        edit: &Edit,
    ) -> Try<Result<EditReply, Full>, ()>
        requires knows { Knows M.library self.now pass.old }
        requires edit { IsEdit edit.now }
        ensures told { Tries pass.old pass.new tt result (λ answer.
            Answers M.library (desk_at self.now pass.old) (desk_at self.now pass.new)
            (record { act = act.Edit edit.now; view = of_edit }) answer) }
        ensures knows { Knows M.library self.now pass.new }
    {
        self.try_enter(pass, EditCall { alloc, edit })
    }

    /// Undoes the last edit that isn't undone.
    pub fn undo<R: Wait>(
        &self,
        rt: &R,
        alloc: Global,
        pass: &mut Pass<M, L>,
    ) -> Result<EditReply, Full>
        requires knows { Knows M.library self.now pass.old }
        ensures told { Answers M.library (desk_at self.now pass.old) (desk_at self.now pass.new)
            (record { act = act.Undo; view = of_edit }) result }
        ensures knows { Knows M.library self.now pass.new }
    {
        self.enter(rt, pass, UndoCall { alloc })
    }

    /// As `undo`, if the turn is free.
    pub fn try_undo(&self, alloc: Global, pass: &mut Pass<M, L>) -> Try<Result<EditReply, Full>, ()>
        requires knows { Knows M.library self.now pass.old }
        ensures told { Tries pass.old pass.new tt result (λ answer.
            Answers M.library (desk_at self.now pass.old) (desk_at self.now pass.new)
            (record { act = act.Undo; view = of_edit }) answer) }
        ensures knows { Knows M.library self.now pass.new }
    {
        self.try_enter(pass, UndoCall { alloc })
    }

    /// Makes the edit again that was undone last.
    pub fn redo<R: Wait>(
        &self,
        rt: &R,
        alloc: Global,
        pass: &mut Pass<M, L>,
    ) -> Result<EditReply, Full>
        requires knows { Knows M.library self.now pass.old }
        ensures told { Answers M.library (desk_at self.now pass.old) (desk_at self.now pass.new)
            (record { act = act.Redo; view = of_edit }) result }
        ensures knows { Knows M.library self.now pass.new }
    {
        self.enter(rt, pass, RedoCall { alloc })
    }

    /// As `redo`, if the turn is free.
    pub fn try_redo(&self, alloc: Global, pass: &mut Pass<M, L>) -> Try<Result<EditReply, Full>, ()>
        requires knows { Knows M.library self.now pass.old }
        ensures told { Tries pass.old pass.new tt result (λ answer.
            Answers M.library (desk_at self.now pass.old) (desk_at self.now pass.new)
            (record { act = act.Redo; view = of_edit }) answer) }
        ensures knows { Knows M.library self.now pass.new }
    {
        self.try_enter(pass, RedoCall { alloc })
    }

    /// Wants the pictures of `len` frames from `first` on.
    pub fn want<R: Wait>(
        &self,
        rt: &R,
        pass: &mut Pass<M, L>,
        first: u32,
        len: u32,
    ) -> Result<WantReply, Full>
        requires knows { Knows M.library self.now pass.old }
        ensures told { Answers M.library (desk_at self.now pass.old) (desk_at self.now pass.new)
            (record { act = act.Want first len; view = of_want }) result }
        ensures knows { Knows M.library self.now pass.new }
    {
        self.enter(rt, pass, WantCall { first, len })
    }

    /// As `want`, if the turn is free.
    pub fn try_want(
        &self,
        pass: &mut Pass<M, L>,
        first: u32,
        len: u32,
    ) -> Try<Result<WantReply, Full>, ()>
        requires knows { Knows M.library self.now pass.old }
        ensures told { Tries pass.old pass.new tt result (λ answer.
            Answers M.library (desk_at self.now pass.old) (desk_at self.now pass.new)
            (record { act = act.Want first len; view = of_want }) answer) }
        ensures knows { Knows M.library self.now pass.new }
    {
        self.try_enter(pass, WantCall { first, len })
    }

    /// Cancels the wanted ones of `len` frames from `first` on.
    pub fn cancel<R: Wait>(
        &self,
        rt: &R,
        pass: &mut Pass<M, L>,
        first: u32,
        len: u32,
    ) -> Result<CancelReply, Full>
        requires knows { Knows M.library self.now pass.old }
        ensures told { Answers M.library (desk_at self.now pass.old) (desk_at self.now pass.new)
            (record { act = act.Cancel first len; view = of_cancel }) result }
        ensures knows { Knows M.library self.now pass.new }
    {
        self.enter(rt, pass, CancelCall { first, len })
    }

    /// As `cancel`, if the turn is free.
    pub fn try_cancel(
        &self,
        pass: &mut Pass<M, L>,
        first: u32,
        len: u32,
    ) -> Try<Result<CancelReply, Full>, ()>
        requires knows { Knows M.library self.now pass.old }
        ensures told { Tries pass.old pass.new tt result (λ answer.
            Answers M.library (desk_at self.now pass.old) (desk_at self.now pass.new)
            (record { act = act.Cancel first len; view = of_cancel }) answer) }
        ensures knows { Knows M.library self.now pass.new }
    {
        self.try_enter(pass, CancelCall { first, len })
    }

    /// Notes a number of turns of work.
    pub fn mark<R: Wait>(&self, rt: &R, pass: &mut Pass<M, L>, turns: u32) -> Result<(), Full>
        requires knows { Knows M.library self.now pass.old }
        ensures told { Answers M.library (desk_at self.now pass.old) (desk_at self.now pass.new)
            (record { act = act.Mark turns; view = of_done }) result }
        ensures knows { Knows M.library self.now pass.new }
    {
        self.enter(rt, pass, MarkCall { turns })
    }

    /// As `mark`, if the turn is free.
    pub fn try_mark(&self, pass: &mut Pass<M, L>, turns: u32) -> Try<Result<(), Full>, ()>
        requires knows { Knows M.library self.now pass.old }
        ensures told { Tries pass.old pass.new tt result (λ answer.
            Answers M.library (desk_at self.now pass.old) (desk_at self.now pass.new)
            (record { act = act.Mark turns; view = of_done }) answer) }
        ensures knows { Knows M.library self.now pass.new }
    {
        self.try_enter(pass, MarkCall { turns })
    }

    /// Notes a call that was passed over.
    pub fn skip<R: Wait>(&self, rt: &R, pass: &mut Pass<M, L>) -> Result<(), Full>
        requires knows { Knows M.library self.now pass.old }
        ensures told { Answers M.library (desk_at self.now pass.old) (desk_at self.now pass.new)
            (record { act = act.Skip; view = of_done }) result }
        ensures knows { Knows M.library self.now pass.new }
    {
        self.enter(rt, pass, SkipCall)
    }

    /// As `skip`, if the turn is free.
    pub fn try_skip(&self, pass: &mut Pass<M, L>) -> Try<Result<(), Full>, ()>
        requires knows { Knows M.library self.now pass.old }
        ensures told { Tries pass.old pass.new tt result (λ answer.
            Answers M.library (desk_at self.now pass.old) (desk_at self.now pass.new)
            (record { act = act.Skip; view = of_done }) answer) }
        ensures knows { Knows M.library self.now pass.new }
    {
        self.try_enter(pass, SkipCall)
    }
}
