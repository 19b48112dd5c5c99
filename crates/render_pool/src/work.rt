//! Turns of work: a job is claimed, rendered and filed.

ghost use Rattle.std.specs.Prelude.{◌≡◌};
ghost use Rattle.tl_model.specs.Media.{CanRender};
ghost use Rattle.render_core.specs.State.{Holds};
ghost use Rattle.edit_desk.specs.Desk.{state_of};
ghost use Rattle.render_pool.specs.Working.{refused_as, EndsClaim, WorksTurn, WorksUntilStopped};

use crate::end::WorkEnd;
use edit_desk::Desk;
use render_core::{Claim, ClaimReply, FileReply, Full, ReleaseReply};
use std::alloc::Global;
use std::sync::Wait;
use std::thread;
use tl_ports::{Gate, Point};

/// Gives a claim back.
fn give_back<D: Desk>(desk: &mut D, claim: Claim) -> WorkEnd
    requires { Holds (state_of D.Lib.library (D.desk desk.old)) (D.desk desk.old).fixed.number claim.job claim.recipe }
    ensures { EndsClaim D.Lib.library (D.desk desk.old) (D.desk desk.new) claim result }
{
    let job = claim.job();
    match desk.release(claim) {
        ReleaseReply::Released => WorkEnd::Released { job },
        ReleaseReply::Closed { at } => WorkEnd::Closed { job, at },
    }
}

/// Renders a claim and files it, or gives it back where memory ran out.
fn end<D: Desk, G: Gate>(desk: &mut D, alloc: Global, gate: &G, claim: Claim) -> WorkEnd
    requires held { Holds (state_of D.Lib.library (D.desk desk.old)) (D.desk desk.old).fixed.number claim.job claim.recipe }
    requires renders { CanRender (D.Lib.library (D.desk desk.old).fixed.library) claim.recipe }
    ensures { EndsClaim D.Lib.library (D.desk desk.old) (D.desk desk.new) claim result }
{
    let job = claim.job();
    let Ok(made) = desk.render(alloc, claim.recipe()) else {
        return give_back(desk, claim);
    };
    gate.at(Point::Rendered, job);
    match desk.file(claim, made) {
        Ok(FileReply::Filed) => WorkEnd::Filed { job },
        Ok(FileReply::Closed { at }) => WorkEnd::Closed { job, at },
        Err((claim, _, _)) => give_back(desk, claim),
    }
}

/// A claim that was refused.
fn refused(why: Full) -> WorkEnd
    ensures { result ≡ refused_as why }
{
    match why {
        Full::JournalFull { len, owed } => WorkEnd::JournalFull { len, owed },
        Full::NoMemory => WorkEnd::NoMemory,
    }
}

/// Takes the lowest queued job, renders it, and files the result. The gate is called where the job was claimed and where it was rendered.
///
/// `Filed` and `Closed` say what the editing core answered to the result. `Released` stands for want of memory in rendering or filing. The
/// others leave no entry: `Idle` comes exactly where no job is queued, `Stopped` where the session was stopped, `JournalFull` where the
/// claim and its end don't fit, `NoMemory` where memory ran out for the claim.
pub fn work_turn<D: Desk, G: Gate>(desk: &mut D, alloc: Global, gate: &G) -> WorkEnd
    ensures { WorksTurn D.Lib.library (D.desk desk.old) (D.desk desk.new) result }
{
    match desk.claim() {
        Ok(ClaimReply::Claimed(claim)) => {
            gate.at(Point::Claimed, claim.job());
            end(desk, alloc, gate, claim)
        }
        Ok(ClaimReply::Idle { len }) => WorkEnd::Idle { len },
        Ok(ClaimReply::Stopped { len }) => WorkEnd::Stopped { len },
        Err(why) => refused(why),
    }
}

/// Makes turns of work until one after which a worker doesn't go on: `Released`, `Stopped`, `JournalFull` or `NoMemory`, which is
/// answered. Where there is nothing to do the gate is called, and the thread lets others run.
///
/// Of a claim that found nothing or was refused no entry tells, so the clause can't say that there was no such claim before the last.
/// That a worker ends at the first one that is refused is tested.
pub fn work_until_stopped<D: Desk, G: Gate, R: Wait>(
    rt: &R,
    desk: &mut D,
    alloc: Global,
    gate: &G,
) -> WorkEnd
    ensures { WorksUntilStopped D.Lib.library (D.desk desk.old) (D.desk desk.new) result }
{
    for _ in rt.forever() {
        match work_turn(desk, alloc, gate) {
            WorkEnd::Filed { job: _ } => {}
            WorkEnd::Closed { job: _, at: _ } => {}
            WorkEnd::Idle { len } => {
                gate.at(Point::Idle, len);
                thread::yield_now();
            }
            last => return last,
        }
    }
    unreachable!()
}
