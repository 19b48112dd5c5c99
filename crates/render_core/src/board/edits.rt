//! Calls that change the timeline or want its frames, and notes.

ghost use Rattle.std.specs.Prelude.{◌≡◌, ◌≢◌, ◌+◌, ◌≤◌, OnOk, Err};
ghost use Rattle.tl_model.specs.Edit.{IsEdit};
ghost use Rattle.tl_model.specs.declared.journal.Act.TheVariants as act;
ghost use Rattle.render_core.specs.declared.reply.Full.TheVariants as full;
ghost use Rattle.render_core.specs.Board.{Does, of_edit, of_want, of_cancel, of_done};

use crate::board::Board;
use crate::reply::{CancelReply, Full, WantReply};
use std::alloc::Global;
use time_list::Lane;
use tl_model::{Act, Edit, EditReply, Entry, Media};

impl<M: Media, L: Lane> Board<M, L> {
    /// Makes an edit. A refused one has its entry and changes nothing else; an accepted one closes each open job
    /// whose recipe is no longer that of any frame, and can be undone.
    pub fn edit(
        &mut self,
        alloc: Global,
        by: u32,
        media: &M,
        edit: &Edit,
    ) -> Result<EditReply, Full>
        requires library { media.now ≡ self.old.library }
        requires formed { IsEdit edit.now }
        ensures done { Does M.library self.old self.new (record { pass = by; act = act.Edit edit.now; view = of_edit }) result }
        ensures uses { 1 ≤ self.old.spare → OnOk result (self.new.spare + 1 ≡ self.old.spare) }
    {
        self.make_room(1)?;
        let Ok(copy) = edit.copy(alloc) else {
            return Err(Full::NoMemory);
        };
        let at = self.journal.len() as u64 + 1;
        let Ok(reply) = self.machine.edit(alloc, media, edit, at) else {
            return Err(Full::NoMemory);
        };
        self.journal.push_reserved(Entry {
            pass: by,
            act: Act::Edit(copy),
        });
        Ok(reply)
    }

    /// Undoes the last edit that isn't undone, and closes jobs as an edit does. `NothingToUndo` has its entry too.
    pub fn undo(&mut self, alloc: Global, by: u32) -> Result<EditReply, Full>
        ensures done { Does M.library self.old self.new (record { pass = by; act = act.Undo; view = of_edit }) result }
        ensures uses { 1 ≤ self.old.spare → OnOk result (self.new.spare + 1 ≡ self.old.spare) }
    {
        self.make_room(1)?;
        let at = self.journal.len() as u64 + 1;
        let Ok(reply) = self.machine.undo(alloc, at) else {
            return Err(Full::NoMemory);
        };
        self.journal.push_reserved(Entry {
            pass: by,
            act: Act::Undo,
        });
        Ok(reply)
    }

    /// Makes the edit again that was undone last, and closes jobs as an edit does. `NothingToRedo` has its entry too.
    pub fn redo(&mut self, alloc: Global, by: u32) -> Result<EditReply, Full>
        ensures done { Does M.library self.old self.new (record { pass = by; act = act.Redo; view = of_edit }) result }
        ensures uses { 1 ≤ self.old.spare → OnOk result (self.new.spare + 1 ≡ self.old.spare) }
    {
        self.make_room(1)?;
        let at = self.journal.len() as u64 + 1;
        let Ok(reply) = self.machine.redo(alloc, at) else {
            return Err(Full::NoMemory);
        };
        self.journal.push_reserved(Entry {
            pass: by,
            act: Act::Redo,
        });
        Ok(reply)
    }

    /// Wants the pictures of a range of frames: each recipe that isn't filed and has no open job gets the next job.
    pub fn want(&mut self, by: u32, first: u32, len: u32) -> Result<WantReply, Full>
        ensures done { Does M.library self.old self.new (record { pass = by; act = act.Want first len; view = of_want }) result }
        ensures uses { 1 ≤ self.old.spare → OnOk result (self.new.spare + 1 ≡ self.old.spare) }
    {
        self.make_room(1)?;
        let Ok(reply) = self.machine.want(first, len) else {
            return Err(Full::NoMemory);
        };
        self.journal.push_reserved(Entry {
            pass: by,
            act: Act::Want { first, len },
        });
        Ok(reply)
    }

    /// Cancels the wanted frames of a range: each open job with a recipe of the range is closed.
    pub fn cancel(&mut self, by: u32, first: u32, len: u32) -> Result<CancelReply, Full>
        ensures done { Does M.library self.old self.new (record { pass = by; act = act.Cancel first len; view = of_cancel }) result }
        ensures sure { 1 ≤ self.old.spare → result ≢ Err full.NoMemory }
        ensures uses { 1 ≤ self.old.spare → OnOk result (self.new.spare + 1 ≡ self.old.spare) }
    {
        self.make_room(1)?;
        let at = self.journal.len() as u64 + 1;
        let reply = self.machine.cancel(at, first, len);
        self.journal.push_reserved(Entry {
            pass: by,
            act: Act::Cancel { first, len },
        });
        Ok(reply)
    }

    /// Notes a number of turns of work. Nothing else changes.
    pub fn mark(&mut self, by: u32, turns: u32) -> Result<(), Full>
        ensures done { Does M.library self.old self.new (record { pass = by; act = act.Mark turns; view = of_done }) result }
        ensures sure { 1 ≤ self.old.spare → result ≢ Err full.NoMemory }
        ensures uses { 1 ≤ self.old.spare → OnOk result (self.new.spare + 1 ≡ self.old.spare) }
    {
        self.make_room(1)?;
        self.journal.push_reserved(Entry {
            pass: by,
            act: Act::Mark { turns },
        });
        Ok(())
    }

    /// Notes a call that was passed over. Nothing else changes.
    pub fn skip(&mut self, by: u32) -> Result<(), Full>
        ensures done { Does M.library self.old self.new (record { pass = by; act = act.Skip; view = of_done }) result }
        ensures sure { 1 ≤ self.old.spare → result ≢ Err full.NoMemory }
        ensures uses { 1 ≤ self.old.spare → OnOk result (self.new.spare + 1 ≡ self.old.spare) }
    {
        self.make_room(1)?;
        self.journal.push_reserved(Entry {
            pass: by,
            act: Act::Skip,
        });
        Ok(())
    }
}
