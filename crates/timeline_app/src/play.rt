//! A session that is begun, played to its end: its script, the stop, the exports that are left, and their lines.

ghost use Rattle.std.specs.Prelude.{◌≡◌, ◌≤◌, [], None, length};
ghost use Rattle.std.specs.List.{flat_map};
ghost use Rattle.tl_limits.specs.Limits.{max_clips};
ghost use Rattle.pic_planes.specs.Picture.{Image};
ghost use Rattle.script_lang.specs.ScriptSound.{IsScript};
ghost use Rattle.timeline_app.specs.Course.{Course, PlaysAll, RunsCourse, SaysRest, program_for, session_at};
ghost use Rattle.timeline_app.specs.Ending.{entry_lines, said_by};

use crate::ending::{final_status, say_endings};
use crate::outcome::Outcome;
use edit_desk::{Alone, Desk};
use pic_planes::Picture;
use play_head::{Playback, Stop, finish_exports, play_script};
use render_core::Stopper;
use script_lang::Script;
use std::alloc::Global;
use time_list::ListLane;
use tl_model::{Clips, Entry, Media};
use tl_ports::{OpenGate, PutFault, Sink, Store, Vault};

/// Plays a script's body, stops the session, and carries out the exports that are left.
fn play_all<D: Desk, T: Store, V: Vault, S: Sink, O: Sink>(
    alloc: Global,
    desk: &mut D,
    stopper: Stopper,
    script: &Script,
    clips: &Clips,
    store: &mut T,
    vault: &mut V,
    screen: &mut S,
    out: &mut O,
) -> Playback
where
    D::Lib: Media<Frame = Picture>,
    requires script { IsScript script.now }
    requires clips { length clips.now ≤ max_clips }
    requires idle { (V.seen vault.old).begun ≡ None }
    requires main { (D.desk desk.old).fixed.number ≡ 0 }
    requires fresh { (D.desk desk.old).seen ≡ [] }
    ensures { PlaysAll
        (program_for D.Lib.library (record { script = script.now; clips = clips.now; others = 0 }) (T.seen store.old).file
        (record { store = T.tells; vault = V.tells; screen = S.tells; out = O.tells }))
        (session_at (D.desk desk.old)
        (record { store = T.seen store.old; vault = V.seen vault.old; screen = S.seen screen.old; out = O.seen out.old }))
        (session_at (D.desk desk.new)
        (record { store = T.seen store.new; vault = V.seen vault.new; screen = S.seen screen.new; out = O.seen out.new }))
        (result.result, result.is_silenced) }
{
    let playback = play_script(alloc, desk, script, clips, store, screen, out, &OpenGate);
    desk.known();
    desk.stop(stopper);
    finish_exports(alloc, desk, vault, script.rate);
    playback
}

/// How the puts to `out` went while a script was played.
pub fn said_by(playback: Playback) -> Result<(), PutFault>
    ensures { result ≡ said_by playback.result playback.is_silenced }
{
    if !playback.is_silenced {
        return Ok(());
    }
    match playback.result {
        Err(Stop::OutMemory) => Err(PutFault::NoMemory),
        _ => Err(PutFault::Failed),
    }
}

/// Puts the end lines, unless a put before them wasn't `Ok`.
pub fn say_rest<O: Sink>(
    alloc: Global,
    out: &mut O,
    clips: &Clips,
    journal: &[Entry],
    said: Result<(), PutFault>,
) -> Result<(), PutFault>
    ensures says { SaysRest O.tells (O.seen out.old) (O.seen out.new) (flat_map (entry_lines clips.now) journal.now) (said, result) }
    ensures later { (O.seen out.old).faults ≤ (O.seen out.new).faults }
{
    match said {
        Ok(()) => say_endings(alloc, out, clips, journal),
        Err(fault) => Err(fault),
    }
}

/// Plays a session that is begun to its end, alone.
pub fn run_desk<M: Media<Frame = Picture> + Drop, T: Store, V: Vault, S: Sink, O: Sink>(
    alloc: Global,
    mut desk: Alone<M, ListLane>,
    stopper: Stopper,
    script: &Script,
    clips: &Clips,
    store: &mut T,
    vault: &mut V,
    screen: &mut S,
    out: &mut O,
) -> Outcome
    requires script { IsScript script.now }
    requires clips { length clips.now ≤ max_clips }
    requires idle { (V.seen vault.old).begun ≡ None }
    requires main { desk.fixed.number ≡ 0 }
    requires fresh { desk.seen ≡ [] }
    ensures { (course : Course Image) × RunsCourse
        (program_for M.library (record { script = script.now; clips = clips.now; others = 0 }) (T.seen store.old).file
        (record { store = T.tells; vault = V.tells; screen = S.tells; out = O.tells }))
        (session_at desk (record { store = T.seen store.old; vault = V.seen vault.old; screen = S.seen screen.old; out = O.seen out.old }))
        (session_at (record desk { seen = result.journal })
        (record { store = T.seen store.new; vault = V.seen vault.new; screen = S.seen screen.new; out = O.seen out.new }))
        course result.status }
{
    let playback = play_all(
        alloc, &mut desk, stopper, script, clips, store, vault, screen, out,
    );
    let journal = desk.finish();
    let said = say_rest(alloc, out, clips, journal.as_slice(), said_by(playback));
    Outcome {
        status: final_status(said, playback.result, journal.as_slice()),
        journal,
    }
}
