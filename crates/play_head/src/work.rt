//! Turns of work: jobs are claimed, rendered and filed.

ghost use Rattle.std.specs.Prelude.{◌≡◌, ◌<◌, ◌+◌, ◌^◌, if◌then◌else◌};
ghost use Rattle.tl_model.specs.Media.{CanRender};
ghost use Rattle.render_core.specs.State.{Holds};
ghost use Rattle.edit_desk.specs.Desk.{state_of};
ghost use Rattle.play_head.specs.Working.{Ends, Turns, Works};

use edit_desk::Desk;
use render_core::{Claim, ClaimReply, FileReply, Full, ReleaseReply};
use std::alloc::Global;

/// How a turn of work went.
#[derive(Clone, Copy, Debug, PartialEq, Eq)]
pub(crate) enum Turned {
    /// The job was ended: its result was filed, or the job had been closed.
    Ended { filed: bool },
    /// Memory ran out, and the job was given back.
    Released,
    /// No job is queued.
    Idle,
    /// The session was stopped.
    Stopped,
}

/// What turns of work did: how many results they filed, and why they ended where a claim was refused.
#[derive(Clone, Copy, Debug, PartialEq, Eq)]
pub(crate) struct Worked {
    pub filed: u32,
    pub refused: Option<Full>,
}

/// Gives a claim back.
fn give_back<D: Desk>(desk: &mut D, claim: Claim) -> Turned
    requires { Holds (state_of D.Lib.library (D.desk desk.old)) (D.desk desk.old).fixed.number claim.job claim.recipe }
    ensures { Ends D.Lib.library (D.desk desk.old) (D.desk desk.new) claim result }
{
    match desk.release(claim) {
        ReleaseReply::Released => Turned::Released,
        ReleaseReply::Closed { at: _ } => Turned::Ended { filed: false },
    }
}

/// Renders a claim and files it, or gives it back where memory ran out.
fn end<D: Desk>(desk: &mut D, alloc: Global, claim: Claim) -> Turned
    requires held { Holds (state_of D.Lib.library (D.desk desk.old)) (D.desk desk.old).fixed.number claim.job claim.recipe }
    requires renders { CanRender (D.Lib.library (D.desk desk.old).fixed.library) claim.recipe }
    ensures { Ends D.Lib.library (D.desk desk.old) (D.desk desk.new) claim result }
{
    let Ok(made) = desk.render(alloc, claim.recipe()) else {
        return give_back(desk, claim);
    };
    match desk.file(claim, made) {
        Ok(FileReply::Filed) => Turned::Ended { filed: true },
        Ok(FileReply::Closed { at: _ }) => Turned::Ended { filed: false },
        Err((claim, _, _)) => give_back(desk, claim),
    }
}

/// Takes a job, renders it and files it.
fn work_turn<D: Desk>(desk: &mut D, alloc: Global) -> Result<Turned, Full>
    ensures { Turns D.Lib.library (D.desk desk.old) (D.desk desk.new) result }
{
    match desk.claim() {
        Ok(ClaimReply::Claimed(claim)) => Ok(end(desk, alloc, claim)),
        Ok(ClaimReply::Idle { len: _ }) => Ok(Turned::Idle),
        Ok(ClaimReply::Stopped { len: _ }) => Ok(Turned::Stopped),
        Err(why) => Err(why),
    }
}

/// One more where it is so.
fn one_more_if(count: u32, more: bool) -> u32
    requires { count + 1 < 2 ^ 32 }
    ensures { result ≡ count + (if more then 1 else 0) }
{
    if more { count + 1 } else { count }
}

/// Does at most so many turns of work, and none after a job was given back, none was queued, the session was stopped or a
/// claim was refused.
pub(crate) fn work<D: Desk>(desk: &mut D, alloc: Global, turns: u32) -> Worked
    ensures { Works D.Lib.library (D.desk desk.old) (D.desk desk.new) turns result }
{
    let mut filed = 0;
    for _ in 0..turns {
        match work_turn(desk, alloc) {
            Ok(Turned::Ended { filed: more }) => filed = one_more_if(filed, more),
            Ok(Turned::Released) => return Worked {
                filed,
                refused: None,
            },
            Ok(Turned::Idle) => return Worked {
                filed,
                refused: None,
            },
            Ok(Turned::Stopped) => return Worked {
                filed,
                refused: None,
            },
            Err(why) => return Worked {
                filed,
                refused: Some(why),
            },
        }
    }
    Worked {
        filed,
        refused: None,
    }
}
