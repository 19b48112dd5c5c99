//! The calls of a script that ask the desk one thing: each is made, and its line put.

ghost use Rattle.std.specs.Prelude.{◌≡◌, IfOk, IsTrue, Ok, Err};
ghost use Rattle.tl_model.specs.Edit.{IsEdit};
ghost use Rattle.tl_model.specs.declared.journal.Act.TheVariants as act;
ghost use Rattle.script_lang.specs.Line.{is_listed};
ghost use Rattle.play_head.specs.Saying.{Speaks, SaysCall, place};
ghost use Rattle.play_head.specs.Told.{edit_line, ask_line};

use crate::halt::{Halt, halt_for};
use crate::say::say;
use crate::told::{ask_line, cancel_line, edit_line, want_line};
use edit_desk::Desk;
use render_core::AskReply;
use script_lang::OutLine;
use std::alloc::Global;
use tl_model::{Edit, EditReply, Name};
use tl_ports::{PutFault, Sink};

/// Puts a line.
pub(crate) fn speak<O: Sink>(alloc: Global, out: &mut O, line: &OutLine) -> Result<(), Halt>
    requires { IsTrue (is_listed line.now) }
    ensures { Speaks O.tells (O.seen out.old) (O.seen out.new) line.now result }
{
    match say(alloc, out, line) {
        Ok(()) => Ok(()),
        Err(PutFault::Failed) => Err(Halt::Out),
        Err(PutFault::NoMemory) => Err(Halt::OutMemory),
    }
}

/// Puts the line of an edit, an undo or a redo.
fn speak_edit<O: Sink>(alloc: Global, out: &mut O, told: EditReply) -> Result<(), Halt>
    ensures { Speaks O.tells (O.seen out.old) (O.seen out.new) (edit_line told) result }
{
    match edit_line(alloc, told) {
        Ok(line) => speak(alloc, out, &line),
        Err(_) => Err(Halt::OutMemory),
    }
}

/// Puts the line of an export that was asked for.
fn speak_ask<O: Sink>(alloc: Global, out: &mut O, told: AskReply) -> Result<(), Halt>
    ensures { Speaks O.tells (O.seen out.old) (O.seen out.new) (ask_line told) result }
{
    match ask_line(alloc, told) {
        Ok(line) => speak(alloc, out, &line),
        Err(_) => Err(Halt::OutMemory),
    }
}

/// Makes an edit.
pub(crate) fn edit<D: Desk, O: Sink>(
    alloc: Global,
    desk: &mut D,
    out: &mut O,
    edit: &Edit,
) -> Result<(), Halt>
    requires { IsEdit edit.now }
    ensures { SaysCall D.Lib.library O.tells (place (D.desk desk.old) (O.seen out.old))
        (place (D.desk desk.new) (O.seen out.new)) (act.Edit edit.now, result) }
{
    match desk.edit(alloc, edit) {
        Ok(told) => speak_edit(alloc, out, told),
        Err(why) => Err(halt_for(why)),
    }
}

/// Undoes the last edit that isn't undone.
pub(crate) fn undo<D: Desk, O: Sink>(alloc: Global, desk: &mut D, out: &mut O) -> Result<(), Halt>
    ensures { SaysCall D.Lib.library O.tells (place (D.desk desk.old) (O.seen out.old))
        (place (D.desk desk.new) (O.seen out.new)) (act.Undo, result) }
{
    match desk.undo(alloc) {
        Ok(told) => speak_edit(alloc, out, told),
        Err(why) => Err(halt_for(why)),
    }
}

/// Makes the edit again that was undone last.
pub(crate) fn redo<D: Desk, O: Sink>(alloc: Global, desk: &mut D, out: &mut O) -> Result<(), Halt>
    ensures { SaysCall D.Lib.library O.tells (place (D.desk desk.old) (O.seen out.old))
        (place (D.desk desk.new) (O.seen out.new)) (act.Redo, result) }
{
    match desk.redo(alloc) {
        Ok(told) => speak_edit(alloc, out, told),
        Err(why) => Err(halt_for(why)),
    }
}

/// Wants frames.
pub(crate) fn want<D: Desk, O: Sink>(
    alloc: Global,
    desk: &mut D,
    out: &mut O,
    first: u32,
    len: u32,
) -> Result<(), Halt>
    ensures { SaysCall D.Lib.library O.tells (place (D.desk desk.old) (O.seen out.old))
        (place (D.desk desk.new) (O.seen out.new)) (act.Want first len, result) }
{
    match desk.want(first, len) {
        Ok(told) => speak(alloc, out, &want_line(told)),
        Err(why) => Err(halt_for(why)),
    }
}

/// Cancels wanted frames.
pub(crate) fn cancel<D: Desk, O: Sink>(
    alloc: Global,
    desk: &mut D,
    out: &mut O,
    first: u32,
    len: u32,
) -> Result<(), Halt>
    ensures { SaysCall D.Lib.library O.tells (place (D.desk desk.old) (O.seen out.old))
        (place (D.desk desk.new) (O.seen out.new)) (act.Cancel first len, result) }
{
    match desk.cancel(first, len) {
        Ok(told) => speak(alloc, out, &cancel_line(told)),
        Err(why) => Err(halt_for(why)),
    }
}

/// Asks for an export.
pub(crate) fn ask<D: Desk, O: Sink>(
    alloc: Global,
    desk: &mut D,
    out: &mut O,
    name: &Name,
) -> Result<(), Halt>
    ensures { SaysCall D.Lib.library O.tells (place (D.desk desk.old) (O.seen out.old))
        (place (D.desk desk.new) (O.seen out.new)) (act.Ask name.now, result) }
{
    match desk.ask_export(alloc, name) {
        Ok(told) => speak_ask(alloc, out, told),
        Err(why) => Err(halt_for(why)),
    }
}
