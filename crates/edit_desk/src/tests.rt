//! Bodies over any desk, which know no more of it than the trait says.

ghost use Rattle.std.specs.Prelude.{◌≡◌};
ghost use Rattle.tl_model.specs.Media.{CanRender};
ghost use Rattle.render_core.specs.State.{Holds};
ghost use Rattle.edit_desk.specs.Desk.{state_of};

use crate::alone::Alone;
use crate::desk::Desk;
use render_core::{AskReply, Claim, ClaimReply, Stopper, TakeReply};
use std::alloc::Global;
use test_media::Numbers;
use time_list::ListLane;
use tl_model::{Edit, EditReply, Ending, Name, Side};

/// Gives a claim back. Nothing was filed.
fn give_back<D: Desk>(desk: &mut D, claim: Claim) -> bool
    requires { Holds (state_of D.Lib.library (D.desk desk.old)) (D.desk desk.old).fixed.number claim.job claim.recipe }
    ensures { (D.desk desk.new).fixed ≡ (D.desk desk.old).fixed }
{
    let _ = desk.release(claim);
    false
}

/// Renders a claim and files it. Whether it was ended with its result.
fn end<D: Desk>(desk: &mut D, alloc: Global, claim: Claim) -> bool
    requires held { Holds (state_of D.Lib.library (D.desk desk.old)) (D.desk desk.old).fixed.number claim.job claim.recipe }
    requires renders { CanRender (D.Lib.library (D.desk desk.old).fixed.library) claim.recipe }
    ensures { (D.desk desk.new).fixed ≡ (D.desk desk.old).fixed }
{
    let Ok(made) = desk.render(alloc, claim.recipe()) else {
        return give_back(desk, claim);
    };
    match desk.file(claim, made) {
        Ok(_) => true,
        Err((claim, _, _)) => give_back(desk, claim),
    }
}

/// Takes a job, renders it and files it. Whether there was one that was ended with its result.
fn work_turn<D: Desk>(desk: &mut D, alloc: Global) -> bool
    ensures { (D.desk desk.new).fixed ≡ (D.desk desk.old).fixed }
{
    match desk.claim() {
        Ok(ClaimReply::Claimed(claim)) => end(desk, alloc, claim),
        Ok(ClaimReply::Idle { len: _ }) => false,
        Ok(ClaimReply::Stopped { len: _ }) => false,
        Err(_) => false,
    }
}

/// Wants the first frames, does so many turns of work, and plays each of them.
fn work<D: Desk>(desk: &mut D, alloc: Global, turns: u32)
    ensures { (D.desk desk.new).fixed ≡ (D.desk desk.old).fixed }
{
    let _ = desk.want(0, turns);
    for n in 0..turns {
        let _ = work_turn(desk, alloc);
        let _ = desk.play(n);
    }
}

/// Takes exports and ends them, so many.
fn export<D: Desk>(desk: &mut D, turns: u32, ending: Ending)
    ensures { (D.desk desk.new).fixed ≡ (D.desk desk.old).fixed }
{
    for _ in 0..turns {
        match desk.take_export() {
            TakeReply::Taken(job) => desk.end_export(job, ending),
            TakeReply::Idle { len: _ } => {}
            TakeReply::Stopped { len: _ } => {}
        }
    }
}

/// Three black frames have one recipe, and so one job. The journal has the edit, the want, the claim, its result, three
/// plays, the ask, the take, the end and the stop.
#[test]
fn a_session_alone_is_journalled(rt: HostRuntime) {
    let started: (Alone<Numbers, ListLane>, Stopper) = Alone::start(
        rt.alloc(),
        Numbers,
        4,
        100,
    ).expect(&rt, "memory");
    let (mut desk, stopper) = started;
    let edit = Edit::Insert {
        at: 0,
        take: Side::Black,
        len: 3,
    };
    assert!(rt; edit.is_well_formed());
    let edited = desk.edit(rt.alloc(), &edit).expect(&rt, "room");
    assert_eq!(rt; edited, EditReply::Ok { len: 3 });
    work(&mut desk, rt.alloc(), 3);
    let text = String::from_str(rt.alloc(), "o.mkv").expect(&rt, "memory");
    let asked = desk
        .ask_export(rt.alloc(), &Name::from_text(text))
        .expect(&rt, "room");
    assert_eq!(rt; asked, AskReply::Asked { export: 1 });
    export(&mut desk, 2, Ending::Done { frames: 3 });
    assert!(rt; !desk.is_stopped());
    desk.stop(stopper);
    assert_eq!(rt; desk.finish().as_slice().len(), 11);
}
