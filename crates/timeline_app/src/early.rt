//! Runs that end before a session starts: with one line, and an empty journal.

ghost use Rattle.std.specs.Prelude.{◌≡◌, ◌≤◌, [], ◌∷◌, IsTrue};
ghost use Rattle.script_lang.specs.Line.{is_listed};
ghost use Rattle.script_lang.specs.declared.out_line.OutLine.TheVariants as out_line;
ghost use Rattle.timeline_app.specs.Course.{SaysBy};
ghost use Rattle.timeline_app.specs.Ending.{status_unless};
ghost use Rattle.timeline_app.specs.Head.{head_line, head_status};
ghost use Rattle.timeline_app.specs.Runs.{EndsEarly};

use crate::head_lines::{head_line, head_status};
use crate::outcome::Outcome;
use crate::session::HeadStop;
use play_head::say_line;
use script_lang::OutLine;
use std::alloc::Global;
use tl_model::Journal;
use tl_ports::{PutFault, Sink};

/// The status after a lone line, which was put so.
fn status_unless(said: Result<(), PutFault>, status: u8) -> u8
    ensures { result ≡ status_unless said status }
{
    match said {
        Ok(()) => status,
        Err(PutFault::Failed) => status,
        Err(PutFault::NoMemory) => 5,
    }
}

/// An outcome without a session.
fn without_journal(alloc: Global, status: u8) -> Outcome
    ensures status { result.status ≡ status }
    ensures journal { result.journal ≡ [] }
{
    Outcome {
        status,
        journal: Journal::from_vec(Vec::new(alloc)),
    }
}

/// Puts the line of what stops a session before its start.
fn say_head<O: Sink>(alloc: Global, out: &mut O, why: &HeadStop) -> Result<(), PutFault>
    requires { IsTrue (is_listed (head_line why.now)) }
    ensures says { SaysBy O.tells (O.seen out.old) (O.seen out.new) (head_line why.now ∷ []) result }
    ensures later { (O.seen out.old).faults ≤ (O.seen out.new).faults }
{
    match head_line(alloc, why) {
        Ok(line) => say_line(alloc, out, &line),
        Err(_) => Err(PutFault::NoMemory),
    }
}

/// Says how the program is used.
pub fn misuse<O: Sink>(alloc: Global, out: &mut O) -> Outcome
    ensures { EndsEarly O.tells (O.seen out.old) (O.seen out.new) (out_line.Usage, 2) result }
{
    let said = say_line(alloc, out, &OutLine::Usage);
    without_journal(alloc, status_unless(said, 2))
}

/// Ends a session before its start.
pub fn end_early<O: Sink>(alloc: Global, out: &mut O, why: &HeadStop) -> Outcome
    requires { IsTrue (is_listed (head_line why.now)) }
    ensures { EndsEarly O.tells (O.seen out.old) (O.seen out.new) (head_line why.now, head_status why.now) result }
{
    let said = say_head(alloc, out, why);
    without_journal(alloc, status_unless(said, head_status(why)))
}

/// Ends a session for which memory ran out before its start.
pub fn end_wanting<O: Sink>(alloc: Global, out: &mut O) -> Outcome
    ensures { EndsEarly O.tells (O.seen out.old) (O.seen out.new) (out_line.NoMemory, 5) result }
{
    end_early(alloc, out, &HeadStop::NoMemory)
}
