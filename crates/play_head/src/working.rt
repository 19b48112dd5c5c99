//! The line `work`: its turns are marked and made, and its answer is put.

ghost use Rattle.play_head.specs.Marking.{EndsWork, SaysWork};
ghost use Rattle.play_head.specs.Saying.{place};

use crate::calls::speak;
use crate::halt::{Halt, halt_for};
use crate::work::{Worked, work};
use edit_desk::Desk;
use script_lang::OutLine;
use std::alloc::Global;
use tl_ports::Sink;

/// Puts how many results were filed. Where a claim was refused, its cause stops the line afterwards.
fn say_worked<O: Sink>(alloc: Global, out: &mut O, worked: Worked) -> Result<(), Halt>
    ensures { EndsWork O.tells (O.seen out.old) (O.seen out.new) worked result }
{
    let line = OutLine::Worked {
        count: worked.filed,
    };
    match speak(alloc, out, &line) {
        Ok(()) => match worked.refused {
            None => Ok(()),
            Some(why) => Err(halt_for(why)),
        },
        Err(why) => Err(why),
    }
}

/// Marks a number of turns of work, makes at most so many, and puts how many results were filed, also where a claim was
/// refused.
pub(crate) fn work_line<D: Desk, O: Sink>(
    alloc: Global,
    desk: &mut D,
    out: &mut O,
    turns: u32,
) -> Result<(), Halt>
    ensures { SaysWork D.Lib.library O.tells (place (D.desk desk.old) (O.seen out.old))
        (place (D.desk desk.new) (O.seen out.new)) (turns, result) }
{
    match desk.mark(turns) {
        Ok(()) => {
            let worked = work(desk, alloc, turns);
            say_worked(alloc, out, worked)
        }
        Err(why) => Err(halt_for(why)),
    }
}
