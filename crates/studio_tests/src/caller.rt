//! What one thread does: calls that are drawn, each noted with what it was told.

ghost use Rattle.std.specs.Prelude.{◌≡◌};
ghost use Rattle.tl_model.specs.Cells.{cells};
ghost use Rattle.tl_model.specs.Media.{CanRender};
ghost use Rattle.render_core.specs.State.{Holds, HoldsExport};
ghost use Rattle.edit_desk.specs.Desk.{state_of};

use crate::dice::Dice;
use crate::doing::{Change, Doing, Told, edit_of};
use crate::line::number_of_segments;
use edit_desk::Desk;
use render_core::{
    CancelReply, Claim, ClaimReply, ExportJob, Full, PlayReply, ShowReply, TakeReply, WantReply,
};
use std::alloc::Global;
use std::sync::Wait;
use studio::{AtPass, Part};
use time_list::Lane;
use tl_model::{EditReply, Ending, Media, Name};

/// How many calls each thread draws.
pub(crate) const CALLS: u32 = 2_000;

/// A call that a thread made, and what it was told.
#[derive(Clone, Copy, PartialEq)]
pub(crate) struct Made {
    pub(crate) doing: Doing,
    pub(crate) told: Told,
}

/// A thread's calls. A call that isn't noted for want of memory is missed when the log is read.
#[derive(Drop)]
struct Log {
    calls: Vec<Made>,
}

impl Log {
    fn note(&mut self, doing: Doing, told: Told) {
        let _ = self.calls.push(Made { doing, told });
    }
}

fn edited(given: Result<EditReply, Full>) -> Told {
    match given {
        Ok(reply) => Told::Edited(reply),
        Err(why) => Told::Full(why),
    }
}

fn wanted(given: Result<WantReply, Full>) -> Told {
    match given {
        Ok(reply) => Told::Wanted(reply),
        Err(why) => Told::Full(why),
    }
}

fn cancelled(given: Result<CancelReply, Full>) -> Told {
    match given {
        Ok(reply) => Told::Cancelled(reply),
        Err(why) => Told::Full(why),
    }
}

/// What a play is told.
pub(crate) fn played(given: Result<PlayReply<u8>, Full>) -> Told {
    match given {
        Ok(PlayReply::Frame(frame)) => Told::Picture(*frame),
        Ok(PlayReply::Fault(fault)) => Told::Fault(fault),
        Ok(PlayReply::Pending { recipe }) => Told::Pending(recipe),
        Ok(PlayReply::PastEnd { len }) => Told::PastEnd { len },
        Err(why) => Told::Full(why),
    }
}

fn shown(given: Result<ShowReply<u8>, Full>) -> Told {
    match given {
        Ok(ShowReply::Frame(frame)) => Told::Picture(*frame),
        Ok(ShowReply::Fault(fault)) => Told::Fault(fault),
        Ok(ShowReply::Render { recipe }) => Told::Pending(recipe),
        Ok(ShowReply::PastEnd { len }) => Told::PastEnd { len },
        Err(why) => Told::Full(why),
    }
}

fn noted(given: Result<(), Full>) -> Told {
    match given {
        Ok(()) => Told::Noted,
        Err(why) => Told::Full(why),
    }
}

fn edit<D: Desk>(desk: &mut D, alloc: Global, change: Change) -> Told
    ensures { (D.desk desk.new).fixed ≡ (D.desk desk.old).fixed }
{
    let edit = edit_of(change);
    if edit.is_well_formed() {
        edited(desk.edit(alloc, &edit))
    } else {
        Told::Noted
    }
}

fn ask<D: Desk>(desk: &mut D, alloc: Global, name: &Name) -> Told
    ensures { (D.desk desk.new).fixed ≡ (D.desk desk.old).fixed }
{
    match desk.ask_export(alloc, name) {
        Ok(reply) => Told::Asked(reply),
        Err(why) => Told::Full(why),
    }
}

fn give_back<D: Desk>(desk: &mut D, claim: Claim, log: &mut Log)
    requires { Holds (state_of D.Lib.library (D.desk desk.old)) (D.desk desk.old).fixed.number claim.job claim.recipe }
    ensures { (D.desk desk.new).fixed ≡ (D.desk desk.old).fixed }
{
    let job = claim.job();
    let reply = desk.release(claim);
    log.note(Doing::Release { job }, Told::Released(reply));
}

/// Renders a claim and files it. Where memory is wanting, and of each third job, it is given back.
fn end_claim<D: Desk>(desk: &mut D, alloc: Global, claim: Claim, log: &mut Log)
    requires held { Holds (state_of D.Lib.library (D.desk desk.old)) (D.desk desk.old).fixed.number claim.job claim.recipe }
    requires renders { CanRender (D.Lib.library (D.desk desk.old).fixed.library) claim.recipe }
    ensures { (D.desk desk.new).fixed ≡ (D.desk desk.old).fixed }
{
    let job = claim.job();
    if job % 3 == 0 {
        return give_back(desk, claim, log);
    }
    let Ok(made) = desk.render(alloc, claim.recipe()) else {
        return give_back(desk, claim, log);
    };
    match desk.file(claim, made) {
        Ok(reply) => log.note(Doing::File { job }, Told::Filed(reply)),
        Err((claim, _, _)) => give_back(desk, claim, log),
    }
}

/// Takes a job and ends it, if there is one.
fn claim<D: Desk>(desk: &mut D, alloc: Global, log: &mut Log)
    ensures { (D.desk desk.new).fixed ≡ (D.desk desk.old).fixed }
{
    match desk.claim() {
        Ok(ClaimReply::Claimed(claim)) => {
            let told = Told::Claimed {
                job: claim.job(),
                recipe: claim.recipe(),
            };
            log.note(Doing::Claim, told);
            end_claim(desk, alloc, claim, log)
        }
        Ok(ClaimReply::Idle { len }) => log.note(Doing::Claim, Told::Idle { len }),
        Ok(ClaimReply::Stopped { len }) => log.note(Doing::Claim, Told::Stopped { len }),
        Err(why) => log.note(Doing::Claim, Told::Full(why)),
    }
}

fn end_export<D: Desk>(desk: &mut D, job: ExportJob, log: &mut Log)
    requires { HoldsExport (state_of D.Lib.library (D.desk desk.old)) (D.desk desk.old).fixed.number job.export job.name
        (cells job.segments) }
    ensures { (D.desk desk.new).fixed ≡ (D.desk desk.old).fixed }
{
    let export = job.export();
    let ending = Ending::Done { frames: 3 };
    desk.end_export(job, ending);
    log.note(Doing::End { export, ending }, Told::Noted);
}

/// Takes an export and ends it, if there is one.
fn take<D: Desk>(desk: &mut D, log: &mut Log)
    ensures { (D.desk desk.new).fixed ≡ (D.desk desk.old).fixed }
{
    match desk.take_export() {
        TakeReply::Taken(job) => {
            let told = Told::Taken {
                export: job.export(),
                sides: number_of_segments(job.state().as_slice()),
            };
            log.note(Doing::Take, told);
            end_export(desk, job, log)
        }
        TakeReply::Idle { len } => log.note(Doing::Take, Told::Idle { len }),
        TakeReply::Stopped { len } => log.note(Doing::Take, Told::Stopped { len }),
    }
}

/// Makes a call that leaves one entry at most. What it was told.
fn one_call<D: Desk>(desk: &mut D, alloc: Global, name: &Name, doing: Doing) -> Told
where
    D::Lib: Media<Frame = u8>,
    ensures { (D.desk desk.new).fixed ≡ (D.desk desk.old).fixed }
{
    match doing {
        Doing::Edit(change) => edit(desk, alloc, change),
        Doing::Undo => edited(desk.undo(alloc)),
        Doing::Redo => edited(desk.redo(alloc)),
        Doing::Want { first, len } => wanted(desk.want(first, len)),
        Doing::Cancel { first, len } => cancelled(desk.cancel(first, len)),
        Doing::Play { n } => played(desk.play(n)),
        Doing::Show { n } => shown(desk.show(alloc, n)),
        Doing::Ask => ask(desk, alloc, name),
        Doing::Mark { turns } => noted(desk.mark(turns)),
        _ => noted(desk.skip()),
    }
}

/// Makes a call that was drawn, and notes it.
fn make<D: Desk>(desk: &mut D, alloc: Global, name: &Name, doing: Doing, log: &mut Log)
where
    D::Lib: Media<Frame = u8>,
    ensures { (D.desk desk.new).fixed ≡ (D.desk desk.old).fixed }
{
    match doing {
        Doing::Claim => claim(desk, alloc, log),
        Doing::Take => take(desk, log),
        _ => {
            let told = one_call(desk, alloc, name, doing);
            log.note(doing, told);
        }
    }
}

/// Makes the calls that are drawn from a seed.
fn call_all<D: Desk>(desk: &mut D, alloc: Global, name: &Name, seed: u32) -> Vec<Made>
where
    D::Lib: Media<Frame = u8>,
    ensures { (D.desk desk.new).fixed ≡ (D.desk desk.old).fixed }
{
    let mut dice = Dice::of(seed);
    let mut log = Log {
        calls: Vec::new(alloc),
    };
    for _ in 0..CALLS {
        make(desk, alloc, name, dice.roll(), &mut log);
    }
    let Log { calls } = log;
    calls
}

/// A thread's part: calls that are drawn from a seed.
#[derive(Drop)]
pub(crate) struct Caller<'a> {
    pub(crate) alloc: Global,
    pub(crate) name: &'a Name,
    pub(crate) seed: u32,
}

impl<'a, R: Wait, M: Media<Frame = u8> + Drop, L: Lane> Part<R, M, L> for Caller<'a> {
    type Answer = Vec<Made>;

    ghost asks = { λ part at. Unit {0} };

    ghost told = { λ part old new calls. Unit {0} };

    fn work(self, desk: &mut AtPass<'_, M, L, R>) -> Vec<Made> {
        let Caller { alloc, name, seed } = self;
        call_all(desk, alloc, name, seed)
    }
}
