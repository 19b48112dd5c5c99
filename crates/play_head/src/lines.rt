//! A line of a script, by its call.

ghost use Rattle.std.specs.Prelude.{◌≤◌, length};
ghost use Rattle.tl_limits.specs.Limits.{IsRate, max_clips};
ghost use Rattle.script_lang.specs.ScriptSound.{IsCall};
ghost use Rattle.play_head.specs.Playing.{player};
ghost use Rattle.play_head.specs.PlayingLine.{PlaysLine};
ghost use Rattle.play_head.specs.PlayingScript.{setting_of, tells_of};

use crate::calls::{ask, cancel, edit, redo, undo, want};
use crate::edits::edit_for;
use crate::halt::Halt;
use crate::lists::list;
use crate::pictures::{play, show};
use crate::rolling::roll;
use crate::working::work_line;
use edit_desk::Desk;
use pic_planes::Picture;
use script_lang::{BodyLine, Call};
use std::alloc::Global;
use tl_model::{Clips, Media};
use tl_ports::{Gate, Sink, Store};

/// Plays a line.
pub(crate) fn play_line<D: Desk, T: Store, S: Sink, O: Sink, G: Gate>(
    alloc: Global,
    desk: &mut D,
    store: &mut T,
    screen: &mut S,
    out: &mut O,
    gate: &G,
    clips: &Clips,
    rate: u32,
    line: &BodyLine,
) -> Result<(), Halt>
where
    D::Lib: Media<Frame = Picture>,
    requires rate { IsRate rate }
    requires clips { length clips.now ≤ max_clips }
    requires call { IsCall line.now.call }
    ensures { PlaysLine
        (setting_of D.Lib.library clips.now rate (T.seen store.old).file (tells_of T.tells S.tells O.tells))
        (player (D.desk desk.old) (T.seen store.old) (S.seen screen.old) (O.seen out.old))
        (player (D.desk desk.new) (T.seen store.new) (S.seen screen.new) (O.seen out.new)) line.now result }
{
    match edit_for(clips, &line.call) {
        Some(change) => edit(alloc, desk, out, &change),
        None => match &line.call {
            Call::Edl { file } => list(alloc, desk, store, out, clips, rate, file),
            Call::Undo => undo(alloc, desk, out),
            Call::Redo => redo(alloc, desk, out),
            Call::Want { first, len } => want(alloc, desk, out, *first, *len),
            Call::Cancel { first, len } => cancel(alloc, desk, out, *first, *len),
            Call::Play { n } => play(alloc, desk, screen, out, gate, *n),
            Call::Show { n } => show(alloc, desk, screen, out, *n),
            Call::Roll { first, len } => roll(alloc, desk, screen, out, gate, *first, *len),
            Call::Work { turns } => work_line(alloc, desk, out, *turns),
            Call::Export { file } => ask(alloc, desk, out, file),
            _ => unreachable!(),
        },
    }
}
