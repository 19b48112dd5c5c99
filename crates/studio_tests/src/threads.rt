//! Four threads that call one studio, each as its pass.

ghost use Rattle.std.specs.Prelude.{◌≡◌, []};
ghost use Rattle.std.specs.Thread.{IsSync};
ghost use Rattle.studio.specs.Known.{Knows};
ghost use Rattle.studio.specs.Parts.{KnowsAs};

use crate::caller::{Caller, Made};
use crate::doing::EXPORT_NAME;
use crate::judging::first_fault;
use crate::machine::Machine;
use crate::passes::{Two, closed, four_more, stop_first};
use render_core::Stopper;
use std::alloc::Global;
use std::sync::Wait;
use std::test::Fail;
use std::thread;
use std::thread::Threads;
use studio::{Pass, Studio, worked};
use test_media::Numbers;
use time_list::{Lane, ListLane};
use tl_model::{Media, Name};

const CACHE: u32 = 4;

/// Fewer entries than the calls could leave.
const LIMIT: u64 = 7_500;

/// 6,418 of the calls that are drawn leave an entry whatever they are told, as long as there is room.
const LEAST: usize = 6_000;

/// A pass that made its calls, and the calls.
type Called<M, L> = (Pass<M, L>, Vec<Made>);

/// Makes the calls that are drawn from a seed with a pass.
fn in_one<R: Wait, M: Media<Frame = u8> + Drop, L: Lane>(
    rt: &R,
    alloc: Global,
    studio: &Studio<M, L>,
    name: &Name,
    pass: Pass<M, L>,
) -> Called<M, L>
    requires { Knows M.library studio.now pass }
    ensures { KnowsAs M.library studio.now pass result.0 }
{
    let seed = pass.number();
    worked(rt, studio, pass, Caller { alloc, name, seed })
}

/// What two threads do.
fn in_two<R: Threads + Wait + Sync, M: Media<Frame = u8> + Drop + Sync, L: Lane + Send>(
    rt: &R,
    alloc: Global,
    studio: &Studio<M, L>,
    name: &Name,
    passes: Two<M, L>,
) -> (Called<M, L>, Called<M, L>)
    requires first { Knows M.library studio.now passes.0 }
    requires second { Knows M.library studio.now passes.1 }
    ensures first { KnowsAs M.library studio.now passes.0 result.0.0 }
    ensures second { KnowsAs M.library studio.now passes.1 result.1.0 }
{
    let (a, b) = passes;
    thread::join(
        rt,
        move || -> Called<M, L>
            requires { Knows M.library studio.now a }
            ensures { KnowsAs M.library studio.entry.now a result.0 }
        { in_one(rt, alloc, studio, name, a) },
        move || -> Called<M, L>
            requires { Knows M.library studio.now b }
            ensures { KnowsAs M.library studio.entry.now b result.0 }
        { in_one(rt, alloc, studio, name, b) },
    )
}

/// What four threads do.
fn in_four<R: Threads + Wait + Sync, M: Media<Frame = u8> + Drop + Sync, L: Lane + Send>(
    rt: &R,
    alloc: Global,
    studio: &Studio<M, L>,
    name: &Name,
    front: Two<M, L>,
    back: Two<M, L>,
) -> ((Called<M, L>, Called<M, L>), (Called<M, L>, Called<M, L>))
    requires first { Knows M.library studio.now front.0 }
    requires second { Knows M.library studio.now front.1 }
    requires third { Knows M.library studio.now back.0 }
    requires fourth { Knows M.library studio.now back.1 }
    ensures first { KnowsAs M.library studio.now front.0 result.0.0.0 }
    ensures second { KnowsAs M.library studio.now front.1 result.0.1.0 }
    ensures third { KnowsAs M.library studio.now back.0 result.1.0.0 }
    ensures fourth { KnowsAs M.library studio.now back.1 result.1.1.0 }
{
    thread::join(
        rt,
        move || -> (Called<M, L>, Called<M, L>)
            requires first { Knows M.library studio.now front.0 }
            requires second { Knows M.library studio.now front.1 }
            ensures first { KnowsAs M.library studio.entry.now front.0 result.0.0 }
            ensures second { KnowsAs M.library studio.entry.now front.1 result.1.0 }
        { in_two(rt, alloc, studio, name, front) },
        move || -> (Called<M, L>, Called<M, L>)
            requires first { Knows M.library studio.now back.0 }
            requires second { Knows M.library studio.now back.1 }
            ensures first { KnowsAs M.library studio.entry.now back.0 result.0.0 }
            ensures second { KnowsAs M.library studio.entry.now back.1 result.1.0 }
        { in_two(rt, alloc, studio, name, back) },
    )
}

/// Passes 1 to 4 call in a thread each, and pass 0 stops in the end. The journal is legal by the plain machine, each thread's calls
/// stand in it in their order, and each was told what the machine says there. Beside the calls of another thread it isn't so.
#[test]
fn four_threads_share_one_journal(rt: HostRuntime) -> Result<(), Fail> {
    let started: (Studio<Numbers, ListLane>, Pass<Numbers, ListLane>, Stopper) = Studio::start(
        rt.alloc(),
        Numbers,
        CACHE,
        LIMIT,
    )?;
    let (studio, mut main, stopper) = started;
    let name = Name::from_text(String::from_str(rt.alloc(), EXPORT_NAME).expect(&rt, "memory"));
    let (front, back) = four_more(&studio, &mut main);
    let (front, back) = in_four(&rt, rt.alloc(), &studio, &name, front, back);
    let ((one, first), (two, second)) = front;
    let ((three, third), (four, fourth)) = back;
    stop_first(&rt, &studio, &mut main, stopper);
    let journal = closed(studio, main, (one, two), (three, four));
    let logs = [
        first.as_slice(),
        second.as_slice(),
        third.as_slice(),
        fourth.as_slice(),
    ];
    assert!(rt; journal.as_slice().len() > LEAST);
    let machine = Machine::new(rt.alloc(), CACHE as usize, LIMIT);
    assert_eq!(rt; first_fault(machine, journal.as_slice(), logs)?, None);
    let exchanged = [
        second.as_slice(),
        first.as_slice(),
        third.as_slice(),
        fourth.as_slice(),
    ];
    let machine = Machine::new(rt.alloc(), CACHE as usize, LIMIT);
    assert!(rt; first_fault(machine, journal.as_slice(), exchanged)?.is_some());
    Ok(())
}
