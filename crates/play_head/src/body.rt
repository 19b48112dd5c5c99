//! The body of a script: its lines one after another, and where one stops it, the stop line.

ghost use Rattle.std.specs.Prelude.{◌≡◌, ◌≤◌, Bool, length};
ghost use Rattle.tl_limits.specs.Limits.{max_clips};
ghost use Rattle.script_lang.specs.ScriptSound.{IsScript};
ghost use Rattle.play_head.specs.Playing.{player};
ghost use Rattle.play_head.specs.PlayingScript.{PlaysScript, setting_of, tells_of};

use crate::ending::{Playback, stop_script};
use crate::lines::play_line;
use crate::stop::Stop;
use edit_desk::Desk;
use pic_planes::Picture;
use script_lang::Script;
use std::alloc::Global;
use tl_model::{Clips, Media};
use tl_ports::{Gate, Sink, Store};

/// Plays a script's body, line after line: each line's calls are made, its answer put to `out`, and then the rows of its
/// picture to the screen. The first line that can't be played to its end stops the script, and the stop line is put,
/// unless a line couldn't be put. The gate is called after each play. `clips` are those of the script, by their numbers.
pub fn play_script<D: Desk, T: Store, S: Sink, O: Sink, G: Gate>(
    alloc: Global,
    desk: &mut D,
    script: &Script,
    clips: &Clips,
    store: &mut T,
    screen: &mut S,
    out: &mut O,
    gate: &G,
) -> Playback
where
    D::Lib: Media<Frame = Picture>,
    requires script { IsScript script.now }
    requires clips { length clips.now ≤ max_clips }
    ensures { PlaysScript
        (setting_of D.Lib.library clips.now script.now.rate (T.seen store.old).file (tells_of T.tells S.tells O.tells))
        (player (D.desk desk.old) (T.seen store.old) (S.seen screen.old) (O.seen out.old))
        (player (D.desk desk.new) (T.seen store.new) (S.seen screen.new) (O.seen out.new))
        script.now.body (result.result, result.is_silenced) }
{
    let rate = script.rate;
    for line in script.body.as_slice() {
        match play_line(alloc, desk, store, screen, out, gate, clips, rate, line) {
            Ok(()) => {}
            Err(why) => return stop_script(alloc, out, &line.call, why),
        }
    }
    Playback {
        result: Ok(()),
        is_silenced: false,
    }
}

/// Plays a script's body as [`play_script`] does, and tells only why it stopped.
pub fn play_body<D: Desk, T: Store, S: Sink, O: Sink, G: Gate>(
    alloc: Global,
    desk: &mut D,
    script: &Script,
    clips: &Clips,
    store: &mut T,
    screen: &mut S,
    out: &mut O,
    gate: &G,
) -> Result<(), Stop>
where
    D::Lib: Media<Frame = Picture>,
    requires script { IsScript script.now }
    requires clips { length clips.now ≤ max_clips }
    ensures { (silenced : Bool) × PlaysScript
        (setting_of D.Lib.library clips.now script.now.rate (T.seen store.old).file (tells_of T.tells S.tells O.tells))
        (player (D.desk desk.old) (T.seen store.old) (S.seen screen.old) (O.seen out.old))
        (player (D.desk desk.new) (T.seen store.new) (S.seen screen.new) (O.seen out.new))
        script.now.body (result, silenced) }
{
    play_script(alloc, desk, script, clips, store, screen, out, gate).result
}
