//! A session that main plays beside an exporter and workers, each in a thread of its own with a pass of one studio.

ghost use Rattle.std.specs.Prelude.{◌≡◌, ◌≤◌, ◌+◌, [], None, length};
ghost use Rattle.tl_limits.specs.Limits.{max_clips, max_workers};
ghost use Rattle.pic_planes.specs.Picture.{Image};
ghost use Rattle.turn_lock.specs.Passes.{first_pass};
ghost use Rattle.script_lang.specs.ScriptSound.{IsScript};
ghost use Rattle.studio.specs.Known.{Knows};
ghost use Rattle.timeline_app.specs.Course.{Course, RunsCourse, program_for, session_at};
ghost use Rattle.timeline_app.specs.Together.{AreDoneAs, AreReadyAs, IsFresh, MadeTurns, PlaysTogether, WorkTogether, main_desk};

use crate::ending::final_status;
use crate::outcome::Outcome;
use crate::play::{said_by, say_rest};
use arrayvec::ArrayVec;
use crew::{
    ExporterPart, Place, ScriptPart, Seat, Shown, Slot, WorkerPart, join_all, join_in, man,
};
use pic_planes::Picture;
use play_head::{Playback, finish_exports};
use render_core::Stopper;
use script_lang::Script;
use std::alloc::Global;
use std::sync::Wait;
use std::thread::Threads;
use studio::{AtPass, Studio};
use time_list::ListLane;
use tl_model::{Clips, Media};
use tl_ports::{Gate, Sink, Store, Vault};

/// What a session plays, how many workers it has, and the gate that its threads call.
#[derive(Drop)]
struct Plan<'a, G> {
    script: &'a Script,
    clips: &'a Clips,
    workers: u32,
    gate: &'a G,
}

/// A pass of a session's studio.
type Pass<M> = studio::Pass<M, ListLane>;

/// The seats of a session's workers, of which there are at most 16.
type Seats<'a, R, M, G> = ArrayVec<Place<'a, R, M, ListLane, WorkerPart<'a, R, G>>, 16>;

/// Seats so many workers, each with a new pass of main's.
fn seat_workers<'a, R: Wait, M: Media + Drop, G: Gate>(
    rt: &'a R,
    alloc: Global,
    studio: &'a Studio<M, ListLane>,
    main: &mut Pass<M>,
    count: u32,
    gate: &'a G,
) -> Seats<'a, R, M, G>
    requires knows { Knows M.library studio.now main.old }
    requires main { main.old.number ≡ 0 }
    requires made { main.old.made ≡ 1 }
    requires few { count ≤ max_workers }
    ensures made { main.new ≡ record main.old { made = 1 + count } }
    ensures knows { Knows M.library studio.now main.new }
    ensures len { length result.items ≡ count }
    ensures seats { AreReadyAs result.items
        (λ number seat. (seat.studio.now ≡ studio.now) × IsFresh M.library studio.now number seat.pass) }
{
    let mut seats = ArrayVec::new();
    for _ in 0..count {
        let pass = studio.split(main);
        let part = WorkerPart { rt, alloc, gate };
        seats.push(Slot::Ready(Seat {
            rt,
            studio,
            pass,
            part,
        }));
    }
    seats
}

/// Gives a place back to its lender.
fn give_back<T>(place: &mut T)
    ensures { place.new ≡ place.old }
{}

/// Main plays the script in this thread and stops the session. Beside it the exporter carries out exports, and the workers make turns of
/// work. The exporter's pass comes back, main's, and how the script ended.
fn work_together<'a, R, M, T, V, S, O, G>(
    rt: &'a R,
    alloc: Global,
    studio: &'a Studio<M, ListLane>,
    passes: (Pass<M>, Pass<M>),
    seats: &mut [Place<'a, R, M, ListLane, WorkerPart<'a, R, G>>],
    stopper: Stopper,
    plan: &Plan<'a, G>,
    store: &mut T,
    vault: &mut V,
    screen: &mut S,
    out: &mut O,
) -> (Pass<M>, Pass<M>, Playback)
where
    R: Threads + Wait + Sync,
    M: Media<Frame = Picture> + Drop + Sync,
    T: Store,
    V: Vault + Send,
    S: Sink,
    O: Sink,
    G: Gate + Sync,
    requires exporter { IsFresh M.library studio.now 1 passes.0 }
    requires knows { Knows M.library studio.now passes.1 }
    requires main { passes.1.number ≡ 0 }
    requires fresh { passes.1.seen ≡ [] }
    requires seats { AreReadyAs seats.old (λ number seat. (seat.studio.now ≡ studio.now) × IsFresh M.library studio.now number seat.pass) }
    requires script { IsScript plan.now.script.now }
    requires clips { length plan.now.clips.now ≤ max_clips }
    requires idle { (V.seen vault.old).begun ≡ None }
    ensures together { WorkTogether
        (program_for M.library (record { script = plan.now.script.now; clips = plan.now.clips.now; others = 1 + plan.now.workers })
        (T.seen store.old).file (record { store = T.tells; vault = V.tells; screen = S.tells; out = O.tells }))
        studio.now
        (record {
          pass = passes.1;
          seen = record { store = T.seen store.old; vault = V.seen vault.old; screen = S.seen screen.old; out = O.seen out.old };
        })
        (record { store = T.seen store.new; vault = V.seen vault.new; screen = S.seen screen.new; out = O.seen out.new }) result }
    ensures len { length seats.new ≡ length seats.old }
    ensures seats { AreDoneAs seats.new (λ number left. MadeTurns M.library studio.now number left.0) }
{
    let (exporter, main) = passes;
    let mut right = Some(stopper);
    let exports = ExporterPart {
        rt,
        alloc,
        vault,
        rate: plan.script.rate,
        gate: plan.gate,
    };
    let plays = ScriptPart {
        alloc,
        script: plan.script,
        clips: plan.clips,
        store,
        screen,
        out,
        gate: plan.gate,
        stopper: &mut right,
    };
    let ((exporter, vault), (main, shown)) = man(
        rt,
        studio,
        (exporter, exports),
        seats,
        (main, plays),
    );
    let Shown {
        store,
        screen,
        out,
        stopper,
        playback,
    } = shown;
    give_back(vault);
    give_back(store);
    give_back(screen);
    give_back(out);
    give_back(stopper);
    match right {
        None => {}
        Some(_) => unreachable!(),
    }
    (exporter, main, playback)
}

/// Main makes the passes of a crew, plays the script and stops the session beside it, and joins them all.
fn play_together<'a, R, M, T, V, S, O, G>(
    rt: &'a R,
    alloc: Global,
    studio: &'a Studio<M, ListLane>,
    main: Pass<M>,
    stopper: Stopper,
    plan: &Plan<'a, G>,
    store: &mut T,
    vault: &mut V,
    screen: &mut S,
    out: &mut O,
) -> (Pass<M>, Playback)
where
    R: Threads + Wait + Sync,
    M: Media<Frame = Picture> + Drop + Sync,
    T: Store,
    V: Vault + Send,
    S: Sink,
    O: Sink,
    G: Gate + Sync,
    requires knows { Knows M.library studio.now main }
    requires main { main.number ≡ 0 }
    requires made { main.made ≡ 0 }
    requires fresh { main.seen ≡ [] }
    requires few { plan.now.workers ≤ max_workers }
    requires script { IsScript plan.now.script.now }
    requires clips { length plan.now.clips.now ≤ max_clips }
    requires idle { (V.seen vault.old).begun ≡ None }
    ensures { PlaysTogether
        (program_for M.library (record { script = plan.now.script.now; clips = plan.now.clips.now; others = 1 + plan.now.workers })
        (T.seen store.old).file (record { store = T.tells; vault = V.tells; screen = S.tells; out = O.tells }))
        studio.now
        (record {
          pass = main;
          seen = record { store = T.seen store.old; vault = V.seen vault.old; screen = S.seen screen.old; out = O.seen out.old };
        })
        (record {
          pass = result.0;
          seen = record { store = T.seen store.new; vault = V.seen vault.new; screen = S.seen screen.new; out = O.seen out.new };
        })
        (result.1.result, result.1.is_silenced) }
{
    let mut main = main;
    let exporter = studio.split(&mut main);
    let mut seats = seat_workers(rt, alloc, studio, &mut main, plan.workers, plan.gate);
    let passes = (exporter, main);
    let (exporter, mut main, playback) = work_together(
        rt,
        alloc,
        studio,
        passes,
        seats.as_mut_slice(),
        stopper,
        plan,
        store,
        vault,
        screen,
        out,
    );
    join_in(studio, &mut main, exporter);
    join_all(studio, &mut main, seats);
    (main, playback)
}

/// Plays a session that is begun to its end, beside an exporter and workers. What exports are left when main has joined them, main carries
/// out.
pub fn run_together<R, M, T, V, S, O, G>(
    rt: &R,
    alloc: Global,
    studio: Studio<M, ListLane>,
    main: Pass<M>,
    stopper: Stopper,
    script: &Script,
    clips: &Clips,
    workers: u32,
    gate: &G,
    store: &mut T,
    vault: &mut V,
    screen: &mut S,
    out: &mut O,
) -> Outcome
where
    R: Threads + Wait + Sync,
    M: Media<Frame = Picture> + Drop + Sync,
    T: Store,
    V: Vault + Send,
    S: Sink,
    O: Sink,
    G: Gate + Sync,
    requires first { main ≡ first_pass studio }
    requires knows { Knows M.library studio main }
    requires few { workers ≤ max_workers }
    requires script { IsScript script.now }
    requires clips { length clips.now ≤ max_clips }
    requires idle { (V.seen vault.old).begun ≡ None }
    ensures { (course : Course Image) × RunsCourse
        (program_for M.library (record { script = script.now; clips = clips.now; others = 1 + workers })
        (T.seen store.old).file (record { store = T.tells; vault = V.tells; screen = S.tells; out = O.tells }))
        (session_at (main_desk studio [])
        (record { store = T.seen store.old; vault = V.seen vault.old; screen = S.seen screen.old; out = O.seen out.old }))
        (session_at (main_desk studio result.journal)
        (record { store = T.seen store.new; vault = V.seen vault.new; screen = S.seen screen.new; out = O.seen out.new }))
        course result.status }
{
    let plan = Plan {
        script,
        clips,
        workers,
        gate,
    };
    let (main, playback) = play_together(
        rt, alloc, &studio, main, stopper, &plan, store, vault, screen, out,
    );
    let mut desk = AtPass::new(rt, &studio, main);
    finish_exports(alloc, &mut desk, vault, script.rate);
    let main = desk.into_pass();
    let journal = studio.close(main);
    let said = say_rest(alloc, out, clips, journal.as_slice(), said_by(playback));
    Outcome {
        status: final_status(said, playback.result, journal.as_slice()),
        journal,
    }
}
