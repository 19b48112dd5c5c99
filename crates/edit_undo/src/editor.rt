//! A timeline with the patches that lead back and forward.

ghost use Rattle.std.specs.Prelude.{◌≡◌, ◌<◌, Ok, OnOk, OnErr, vec_len};
ghost use Rattle.tl_model.specs.Edit.{IsEdit};
ghost use Rattle.tl_model.specs.Sound.{IsSound};
ghost use Rattle.edit_undo.specs.History.{History, blank, edit_outcome, undo_outcome, redo_outcome, Gives, IsSoundHistory};
ghost use Rattle.edit_undo.specs.Patches.{Stacks, AreStacks, Moves, IsSame};

use std::alloc::{AllocError, Global};
use std::marker::Model;
use time_list::{ApplyFault, Lane, Patch, keeps_sound};
use tl_model::{Edit, EditReply, Media};

/// A timeline under edits. Each patch leads from the line after it to the line before it: those of `undos` from the
/// present line back, the last one first, those of `redos` forward.
#[derive(Drop)]
pub struct Editor<L: Lane> {
    lane: L,
    undos: Vec<Patch>,
    redos: Vec<Patch>,
}

impl<L: Lane> Model for Editor<L> {
    ghost use Rattle.edit_undo.specs.History.{History};
    ghost use Rattle.edit_undo.specs.Patches.{history_of, AreStacks};

    ghost Value = { History };

    ghost view = { λ e. history_of (record { line = L.cells e.lane; undos = e.undos.items; redos = e.redos.items }) };

    ghost invariant = { λ e. AreStacks (record { line = L.cells e.lane; undos = e.undos.items; redos = e.redos.items }) };
}

impl<L: Lane> Editor<L> {
    /// No frames, and nothing to undo. It takes no memory.
    pub fn blank(alloc: Global) -> Editor<L>
        ensures { result ≡ blank }
    {
        Editor {
            lane: L::blank(alloc),
            undos: Vec::new(alloc),
            redos: Vec::new(alloc),
        }
    }

    /// The timeline.
    pub fn lane(&self) -> &L
        ensures { L.cells result.now ≡ self.now.line }
    {
        &self.lane
    }

    /// Makes an edit, which can then be undone; nothing is left to redo. A refused one changes nothing.
    pub fn apply<M: Media>(
        &mut self,
        alloc: Global,
        media: &M,
        edit: &Edit,
    ) -> Result<EditReply, AllocError>
        requires sound { IsSound (M.library media.now) self.old.line }
        requires formed { IsEdit edit.now }
        ensures { Gives (edit_outcome (M.library media.now) edit.now self.old) self.old self.new result }
    {
        self.undos.reserve(1)?;
        match self.lane.apply(alloc, media, edit) {
            Ok(patch) => {
                self.undos.push_reserved(patch);
                self.redos.clear();
                Ok(EditReply::Ok {
                    len: self.lane.frames(),
                })
            }
            Err(ApplyFault::Refused(why)) => Ok(EditReply::Refused(why)),
            Err(ApplyFault::NoMemory) => Err(AllocError),
        }
    }

    /// Undoes the latest edit that isn't undone. `NothingToUndo` comes exactly where there is none.
    pub fn undo(&mut self, alloc: Global) -> Result<EditReply, AllocError>
        ensures { Gives (undo_outcome self.old) self.old self.new result }
    {
        if self.undos.is_empty() {
            return Ok(EditReply::NothingToUndo);
        }
        move_back(alloc, &mut self.lane, &mut self.undos, &mut self.redos)?;
        Ok(EditReply::Ok {
            len: self.lane.frames(),
        })
    }

    /// Makes the edit again that was undone last. `NothingToRedo` comes exactly where there is none since the last edit.
    pub fn redo(&mut self, alloc: Global) -> Result<EditReply, AllocError>
        ensures { Gives (redo_outcome self.old) self.old self.new result }
    {
        if self.redos.is_empty() {
            return Ok(EditReply::NothingToRedo);
        }
        move_back(alloc, &mut self.lane, &mut self.redos, &mut self.undos)?;
        Ok(EditReply::Ok {
            len: self.lane.frames(),
        })
    }
}

/// Goes back by the last patch of one stack. The patch that goes forward again comes on the other.
fn move_back<L: Lane>(
    alloc: Global,
    lane: &mut L,
    from: &mut Vec<Patch>,
    onto: &mut Vec<Patch>,
) -> Result<(), AllocError>
    requires some { 0 < vec_len from.old }
    requires stacks { AreStacks (record { line = L.cells lane.old; undos = from.old.items; redos = onto.old.items }) }
    ensures ok { OnOk result (Moves (record { line = L.cells lane.old; undos = from.old.items; redos = onto.old.items })
        (record { line = L.cells lane.new; undos = from.new.items; redos = onto.new.items })) }
    ensures err { OnErr result (IsSame (record { line = L.cells lane.old; undos = from.old.items; redos = onto.old.items })
        (record { line = L.cells lane.new; undos = from.new.items; redos = onto.new.items })) }
{
    onto.reserve(1)?;
    let patch = from.pop().unwrap();
    match lane.revert(alloc, patch) {
        Ok(back) => {
            onto.push_reserved(back);
            Ok(())
        }
        Err((patch, why)) => {
            from.push_reserved(patch);
            Err(why)
        }
    }
}

/// Tells, in a proof, that each call keeps a history of sound timelines one. It does nothing.
pub fn keeps_sound_history<M: Media>(media: &M, edit: &Edit)
    requires { IsEdit edit.now }
    ensures edit { (h next : History) → IsSoundHistory (M.library media.now) h → edit_outcome (M.library media.now) edit.now h ≡ Ok next
        → IsSoundHistory (M.library media.now) next }
    ensures undo { (h next : History) → IsSoundHistory (M.library media.now) h → undo_outcome h ≡ Ok next
        → IsSoundHistory (M.library media.now) next }
    ensures redo { (h next : History) → IsSoundHistory (M.library media.now) h → redo_outcome h ≡ Ok next
        → IsSoundHistory (M.library media.now) next }
{
    keeps_sound(media, edit);
}
