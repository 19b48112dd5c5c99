//! What the main thread of a session does over the desk of its pass: a script is played, and then the session is stopped.

ghost use Rattle.std.specs.Prelude.{◌≡◌, ◌≤◌, false, IsSome, None, length};
ghost use Rattle.tl_limits.specs.Limits.{max_clips};
ghost use Rattle.tl_model.specs.declared.journal.Act.TheVariants as act;
ghost use Rattle.render_core.specs.Step.{Silent};
ghost use Rattle.edit_desk.specs.Desk.{Enters, state_of};
ghost use Rattle.script_lang.specs.ScriptSound.{IsScript};
ghost use Rattle.play_head.specs.Playing.{player};
ghost use Rattle.play_head.specs.PlayingScript.{setting_of, tells_of};
ghost use Rattle.crew.specs.Parts.{desk_in};
ghost use Rattle.crew.specs.Scripts.{GoesOnAfter, PlaysAndStops};

use edit_desk::Desk;
use pic_planes::Picture;
use play_head::{Playback, play_script};
use render_core::Stopper;
use script_lang::Script;
use std::alloc::Global;
use std::sync::Wait;
use studio::{AtPass, Part};
use time_list::Lane;
use tl_model::{Clips, Media};
use tl_ports::{Gate, Sink, Store};

/// The main thread: a script is played, and then the session is stopped. The right to stop is taken out of its place. It answers what
/// it was lent, and how the script ended.
#[derive(Drop)]
pub struct ScriptPart<'a, 't, 's, 'o, 'p, T: Store, S: Sink, O: Sink, G: Gate> {
    pub alloc: Global,
    pub script: &'a Script,
    pub clips: &'a Clips,
    pub store: &'t mut T,
    pub screen: &'s mut S,
    pub out: &'o mut O,
    pub gate: &'a G,
    pub stopper: &'p mut Option<Stopper>,
}

/// What playing a script leaves: the store, the screen, `out` and the empty place of the right to stop, all as they were lent, and how
/// the script ended.
#[derive(Drop)]
pub struct Shown<'t, 's, 'o, 'p, T, S, O> {
    pub store: &'t mut T,
    pub screen: &'s mut S,
    pub out: &'o mut O,
    pub stopper: &'p mut Option<Stopper>,
    pub playback: Playback,
}

/// Stops a session by the right to stop, which is taken out of its place.
fn stop_by<D: Desk>(desk: &mut D, place: &mut Option<Stopper>)
    requires main { (D.desk desk.old).fixed.number ≡ 0 }
    requires once { (state_of D.Lib.library (D.desk desk.old)).is_stopped ≡ false }
    requires right { IsSome place.old }
    ensures stops { Enters D.Lib.library (D.desk desk.old) (D.desk desk.new) act.Stop Silent }
    ensures empty { place.new ≡ None }
{
    match place.take() {
        Some(right) => desk.stop(right),
        None => unreachable!(),
    }
}

impl<
    'a,
    't,
    's,
    'o,
    'p,
    R: Wait,
    M: Media<Frame = Picture> + Drop,
    L: Lane,
    T: Store,
    S: Sink,
    O: Sink,
    G: Gate,
> Part<R, M, L> for ScriptPart<'a, 't, 's, 'o, 'p, T, S, O, G> {
    type Answer = Shown<'t, 's, 'o, 'p, T, S, O>;

    ghost asks = { λ part at. IsScript part.script.now × (length part.clips.now ≤ max_clips) × (at.pass.number ≡ 0)
        × IsSome part.stopper.now × GoesOnAfter
        (setting_of M.library part.clips.now part.script.now.rate (T.seen part.store.now).file (tells_of T.tells S.tells O.tells))
        (player (desk_in at) (T.seen part.store.now) (S.seen part.screen.now) (O.seen part.out.now)) part.script.now.body };

    ghost told = { λ part old new left. (left.store.ghost_name ≡ part.store.ghost_name)
        × (left.screen.ghost_name ≡ part.screen.ghost_name) × (left.out.ghost_name ≡ part.out.ghost_name)
        × (left.stopper.ghost_name ≡ part.stopper.ghost_name) × (left.stopper.now ≡ None) × PlaysAndStops
        (setting_of M.library part.clips.now part.script.now.rate (T.seen part.store.now).file (tells_of T.tells S.tells O.tells))
        (player (desk_in old) (T.seen part.store.now) (S.seen part.screen.now) (O.seen part.out.now))
        (player (desk_in new) (T.seen left.store.now) (S.seen left.screen.now) (O.seen left.out.now))
        part.script.now.body (left.playback.result, left.playback.is_silenced) };

    fn work(self, desk: &mut AtPass<'_, M, L, R>) -> Shown<'t, 's, 'o, 'p, T, S, O> {
        let ScriptPart {
            alloc,
            script,
            clips,
            store,
            screen,
            out,
            gate,
            stopper,
        } = self;
        let playback = play_script(alloc, desk, script, clips, store, screen, out, gate);
        desk.known();
        stop_by(desk, stopper);
        Shown {
            store,
            screen,
            out,
            stopper,
            playback,
        }
    }
}
