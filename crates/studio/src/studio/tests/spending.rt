//! Calls that take something or spend it, tried while another pass holds the turn and made once it is free.

ghost use Rattle.std.specs.Prelude.{◌≡◌, [], IfSome};
ghost use Rattle.tl_model.specs.Cells.{cells};
ghost use Rattle.tl_model.specs.Media.{CanRender};
ghost use Rattle.render_core.specs.State.{Holds, HoldsExport};
ghost use Rattle.edit_desk.specs.Desk.{state_of};
ghost use Rattle.studio.specs.Known.{desk_at, Knows};

use crate::studio::{Pass, Studio};
use crate::tries::Try;
use render_core::{Claim, ClaimReply, ExportJob, FileReply, ReleaseReply, Stopper, TakeReply};
use std::alloc::Global;
use std::sync::Wait;
use time_list::Lane;
use tl_model::{Ending, Media, Rendered};

/// How many entries there were while the turn was held, and what came of the call once it was free.
type Twice<A> = Option<(u64, A)>;

/// A claim.
pub(super) fn claimed<R: Wait, M: Media + Drop, L: Lane>(
    rt: &R,
    studio: &Studio<M, L>,
    holder: &mut Pass<M, L>,
    pass: &mut Pass<M, L>,
) -> Twice<Claim>
    requires holder { Knows M.library studio.now holder.old }
    requires knows { Knows M.library studio.now pass.old }
    ensures holder { Knows M.library studio.now holder.new }
    ensures knows { Knows M.library studio.now pass.new }
    ensures number { pass.new.number ≡ pass.old.number }
    ensures held { IfSome result (λ made.
        Holds (state_of M.library (desk_at studio.now pass.new)) pass.new.number made.1.job made.1.recipe) }
    ensures renders { IfSome result (λ made. CanRender (M.library studio.now.start.library) made.1.recipe) }
{
    let held = studio.turn.enter(rt, holder);
    let tried = studio.try_claim(pass);
    studio.turn.leave(holder, held);
    match tried {
        Try::Busy { seen, back: () } => match studio.claim(rt, pass) {
            Ok(ClaimReply::Claimed(claim)) => Some((seen, claim)),
            Ok(ClaimReply::Idle { len: _ }) => None,
            Ok(ClaimReply::Stopped { len: _ }) => None,
            Err(_) => None,
        },
        Try::Done(Ok(ClaimReply::Claimed(claim))) => {
            studio.release(rt, pass, claim);
            None
        }
        Try::Done(Ok(ClaimReply::Idle { len: _ })) => None,
        Try::Done(Ok(ClaimReply::Stopped { len: _ })) => None,
        Try::Done(Err(_)) => None,
    }
}

/// The return of a claim, with the job that came back.
pub(super) fn released<R: Wait, M: Media + Drop, L: Lane>(
    rt: &R,
    studio: &Studio<M, L>,
    holder: &mut Pass<M, L>,
    pass: &mut Pass<M, L>,
    claim: Claim,
) -> Twice<(u64, ReleaseReply)>
    requires holder { Knows M.library studio.now holder.old }
    requires knows { Knows M.library studio.now pass.old }
    requires held { Holds (state_of M.library (desk_at studio.now pass.old)) pass.old.number claim.job claim.recipe }
    ensures holder { Knows M.library studio.now holder.new }
    ensures knows { Knows M.library studio.now pass.new }
{
    let held = studio.turn.enter(rt, holder);
    let tried = studio.try_release(pass, claim);
    studio.turn.leave(holder, held);
    match tried {
        Try::Done(_) => None,
        Try::Busy { seen, back } => {
            let job = back.job();
            match studio.try_release(pass, back) {
                Try::Done(reply) => Some((seen, (job, reply))),
                Try::Busy { seen: _, back } => {
                    studio.release(rt, pass, back);
                    None
                }
            }
        }
    }
}

/// A result, with the job that came back.
pub(super) fn filed<R: Wait, M: Media + Drop, L: Lane>(
    rt: &R,
    studio: &Studio<M, L>,
    holder: &mut Pass<M, L>,
    pass: &mut Pass<M, L>,
    claim: Claim,
    rendered: Rendered<M>,
) -> Twice<(u64, FileReply)>
    requires holder { Knows M.library studio.now holder.old }
    requires knows { Knows M.library studio.now pass.old }
    requires held { Holds (state_of M.library (desk_at studio.now pass.old)) pass.old.number claim.job claim.recipe }
    requires rendered { rendered ≡ record { recipe = claim.recipe; library = studio.now.start.library } }
    ensures holder { Knows M.library studio.now holder.new }
    ensures knows { Knows M.library studio.now pass.new }
{
    let held = studio.turn.enter(rt, holder);
    let tried = studio.try_file(pass, claim, rendered);
    studio.turn.leave(holder, held);
    match tried {
        Try::Done(Ok(_)) => None,
        Try::Done(Err((claim, _, _))) => {
            studio.release(rt, pass, claim);
            None
        }
        Try::Busy {
            seen,
            back: (claim, rendered),
        } => {
            let job = claim.job();
            match studio.file(rt, pass, claim, rendered) {
                Ok(reply) => Some((seen, (job, reply))),
                Err((claim, _, _)) => {
                    studio.release(rt, pass, claim);
                    None
                }
            }
        }
    }
}

/// The take of an export.
pub(super) fn taken<R: Wait, M: Media + Drop, L: Lane>(
    rt: &R,
    studio: &Studio<M, L>,
    holder: &mut Pass<M, L>,
    pass: &mut Pass<M, L>,
) -> Twice<ExportJob>
    requires holder { Knows M.library studio.now holder.old }
    requires knows { Knows M.library studio.now pass.old }
    ensures holder { Knows M.library studio.now holder.new }
    ensures knows { Knows M.library studio.now pass.new }
    ensures number { pass.new.number ≡ pass.old.number }
    ensures held { IfSome result (λ made. HoldsExport (state_of M.library (desk_at studio.now pass.new)) pass.new.number
        made.1.export made.1.name (cells made.1.segments)) }
{
    let held = studio.turn.enter(rt, holder);
    let tried = studio.try_take_export(pass);
    studio.turn.leave(holder, held);
    match tried {
        Try::Busy { seen, back: () } => match studio.take_export(rt, pass) {
            TakeReply::Taken(job) => Some((seen, job)),
            TakeReply::Idle { len: _ } => None,
            TakeReply::Stopped { len: _ } => None,
        },
        Try::Done(TakeReply::Taken(job)) => {
            studio.end_export(rt, pass, job, Ending::Done { frames: 2 });
            None
        }
        Try::Done(TakeReply::Idle { len: _ }) => None,
        Try::Done(TakeReply::Stopped { len: _ }) => None,
    }
}

/// The end of an export, with the one that came back.
pub(super) fn ended<R: Wait, M: Media + Drop, L: Lane>(
    rt: &R,
    studio: &Studio<M, L>,
    holder: &mut Pass<M, L>,
    pass: &mut Pass<M, L>,
    job: ExportJob,
) -> Twice<u64>
    requires holder { Knows M.library studio.now holder.old }
    requires knows { Knows M.library studio.now pass.old }
    requires held { HoldsExport (state_of M.library (desk_at studio.now pass.old)) pass.old.number job.export job.name
        (cells job.segments) }
    ensures holder { Knows M.library studio.now holder.new }
    ensures knows { Knows M.library studio.now pass.new }
{
    let held = studio.turn.enter(rt, holder);
    let tried = studio.try_end_export(pass, job, Ending::Done { frames: 2 });
    studio.turn.leave(holder, held);
    match tried {
        Try::Done(()) => None,
        Try::Busy { seen, back } => {
            let export = back.export();
            match studio.try_end_export(pass, back, Ending::Done { frames: 2 }) {
                Try::Done(()) => Some((seen, export)),
                Try::Busy { seen: _, back } => {
                    studio.end_export(rt, pass, back, Ending::Done { frames: 2 });
                    None
                }
            }
        }
    }
}

/// The stop, by a pass 0 that has seen no entry.
pub(super) fn stopped<R: Wait, M: Media + Drop, L: Lane>(
    rt: &R,
    studio: &Studio<M, L>,
    holder: &mut Pass<M, L>,
    main: &mut Pass<M, L>,
    stopper: Stopper,
) -> Twice<()>
    requires holder { Knows M.library studio.now holder.old }
    requires knows { Knows M.library studio.now main.old }
    requires number { main.old.number ≡ 0 }
    requires first { main.old.seen ≡ [] }
    ensures holder { Knows M.library studio.now holder.new }
    ensures knows { Knows M.library studio.now main.new }
{
    let held = studio.turn.enter(rt, holder);
    let tried = studio.try_stop(main, stopper);
    studio.turn.leave(holder, held);
    match tried {
        Try::Done(()) => None,
        Try::Busy { seen, back } => {
            match studio.try_stop(main, back) {
                Try::Done(()) => Some((seen, ())),
                Try::Busy { seen: _, back } => {
                    studio.stop(rt, main, back);
                    None
                }
            }
        }
    }
}

/// A claim that is given back.
pub(super) fn released_one<R: Wait, M: Media + Drop, L: Lane>(
    rt: &R,
    studio: &Studio<M, L>,
    holder: &mut Pass<M, L>,
    pass: &mut Pass<M, L>,
) -> Option<(u64, u64, u64, ReleaseReply)>
    requires holder { Knows M.library studio.now holder.old }
    requires knows { Knows M.library studio.now pass.old }
    ensures holder { Knows M.library studio.now holder.new }
    ensures knows { Knows M.library studio.now pass.new }
{
    let (before, claim) = claimed(rt, studio, holder, pass)?;
    let (seen, (job, reply)) = released(rt, studio, holder, pass, claim)?;
    Some((before, seen, job, reply))
}

/// A claim that is rendered and filed.
pub(super) fn filed_one<R: Wait, M: Media + Drop, L: Lane>(
    rt: &R,
    alloc: Global,
    studio: &Studio<M, L>,
    holder: &mut Pass<M, L>,
    pass: &mut Pass<M, L>,
) -> Option<(u64, u64, u64, FileReply)>
    requires holder { Knows M.library studio.now holder.old }
    requires knows { Knows M.library studio.now pass.old }
    ensures holder { Knows M.library studio.now holder.new }
    ensures knows { Knows M.library studio.now pass.new }
{
    let (before, claim) = claimed(rt, studio, holder, pass)?;
    match Rendered::make(alloc, studio.media(), claim.recipe()) {
        Ok(made) => {
            let (seen, (job, reply)) = filed(rt, studio, holder, pass, claim, made)?;
            Some((before, seen, job, reply))
        }
        Err(_) => {
            studio.release(rt, pass, claim);
            None
        }
    }
}

/// An export that is taken and ended.
pub(super) fn ended_one<R: Wait, M: Media + Drop, L: Lane>(
    rt: &R,
    studio: &Studio<M, L>,
    holder: &mut Pass<M, L>,
    pass: &mut Pass<M, L>,
) -> Option<(u64, u64, u64)>
    requires holder { Knows M.library studio.now holder.old }
    requires knows { Knows M.library studio.now pass.old }
    ensures holder { Knows M.library studio.now holder.new }
    ensures knows { Knows M.library studio.now pass.new }
{
    let (before, job) = taken(rt, studio, holder, pass)?;
    let (seen, export) = ended(rt, studio, holder, pass, job)?;
    Some((before, seen, export))
}
