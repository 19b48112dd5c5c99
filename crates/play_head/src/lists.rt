//! The line of an edit list: the list is fetched, read and built, and takes the timeline's place or is passed over.

ghost use Rattle.std.specs.Prelude.{◌≡◌, ◌≤◌, ◌<◌, ◌^◌, All, Bool, Err, IfOk, length};
ghost use Rattle.std.specs.Str.Lines.{lines};
ghost use Rattle.tl_limits.specs.Limits.{IsRate, max_clips};
ghost use Rattle.tl_model.specs.Edit.{IsReplacement};
ghost use Rattle.tl_model.specs.declared.edit.Edit.TheVariants as edits;
ghost use Rattle.tl_model.specs.declared.journal.Act.TheVariants as act;
ghost use Rattle.tl_ports.specs.Seen.{SinkSeen};
ghost use Rattle.edl_text.specs.declared.fault.EdlFault.TheVariants as faults;
ghost use Rattle.script_lang.specs.declared.script.BodyLine.{BodyLine};
ghost use Rattle.script_lang.specs.declared.script.Call.TheVariants as call;
ghost use Rattle.play_head.specs.Listing.{FetchesList, ReadsAs, Skips};
ghost use Rattle.play_head.specs.Playing.{list_line};
ghost use Rattle.play_head.specs.PlayingActs.{image_rows};
ghost use Rattle.play_head.specs.PlayingLine.{PlaysLine};
ghost use Rattle.play_head.specs.Saying.{Speaks, SaysCall, place};

use crate::calls::{edit, speak};
use crate::halt::{Halt, halt_for};
use crate::told::list_line;
use edit_desk::Desk;
use edl_build::build;
use edl_text::{EdlFault, EdlWhy, read_edl};
use pic_planes::Picture;
use std::alloc::Global;
use tl_limits::MAX_TEXT_BYTES;
use tl_model::{Clips, Edit, Media, Name, Segments};
use tl_ports::{FetchFault, Sink, Store};

/// The text of an edit list, of at most 16 MiB.
fn fetch_list<T: Store>(alloc: Global, store: &mut T, file: &Name) -> Result<Vec<u8>, Halt>
    ensures { FetchesList T.tells (T.seen store.old) (T.seen store.new) file.now result }
{
    let mut text = Vec::new(alloc);
    match store.fetch(file.as_str(), MAX_TEXT_BYTES, &mut text) {
        Ok(()) => Ok(text),
        Err(FetchFault::NoMemory) => Err(Halt::NoMemory),
        Err(fault) => Err(Halt::Store { fault }),
    }
}

/// The segments of an edit list over the clips, or its first faulty line.
fn read_list(alloc: Global, text: &[u8], clips: &Clips, rate: u32) -> Result<Segments, EdlFault>
    requires rate { IsRate rate }
    requires clips { length clips.now ≤ max_clips }
    requires lines { length (lines text.now) < 2 ^ 32 }
    ensures reads { ReadsAs clips.now rate text.now result }
    ensures formed { IfOk result (All IsReplacement) }
{
    match read_edl(alloc, text, rate) {
        Ok(list) => build(alloc, &list, clips),
        Err(fault) => Err(fault),
    }
}

/// Puts an edit list in the timeline's place.
fn replace<D: Desk, O: Sink>(
    alloc: Global,
    desk: &mut D,
    out: &mut O,
    segments: Segments,
) -> Result<(), Halt>
    requires { All IsReplacement segments }
    ensures { SaysCall D.Lib.library O.tells (place (D.desk desk.old) (O.seen out.old))
        (place (D.desk desk.new) (O.seen out.new)) (act.Edit (edits.Replace segments), result) }
{
    edit(alloc, desk, out, &Edit::Replace { segments })
}

/// Puts the line of an edit list that is faulty at its line `n`.
fn speak_list<O: Sink>(alloc: Global, out: &mut O, n: u32, why: EdlWhy) -> Result<(), Halt>
    ensures { Speaks O.tells (O.seen out.old) (O.seen out.new) (list_line (Err (faults.Line n why))) result }
{
    match list_line(alloc, n, why) {
        Ok(line) => speak(alloc, out, &line),
        Err(_) => Err(Halt::OutMemory),
    }
}

/// Passes over an edit list that is faulty at its line `n`.
fn pass_over<D: Desk, O: Sink>(
    alloc: Global,
    desk: &mut D,
    out: &mut O,
    n: u32,
    why: EdlWhy,
) -> Result<(), Halt>
    ensures { Skips D.Lib.library O.tells (place (D.desk desk.old) (O.seen out.old))
        (place (D.desk desk.new) (O.seen out.new)) (list_line (Err (faults.Line n why)), result) }
{
    match desk.skip() {
        Ok(()) => speak_list(alloc, out, n, why),
        Err(why) => Err(halt_for(why)),
    }
}

/// Plays the line of an edit list. It puts nothing to the screen.
pub(crate) fn list<D: Desk, T: Store, O: Sink>(
    alloc: Global,
    desk: &mut D,
    store: &mut T,
    out: &mut O,
    clips: &Clips,
    rate: u32,
    file: &Name,
) -> Result<(), Halt>
where
    D::Lib: Media<Frame = Picture>,
    requires rate { IsRate rate }
    requires clips { length clips.now ≤ max_clips }
    ensures { (line : BodyLine) (screen : SinkSeen) (shows : Bool) → line.call ≡ call.Edl file.now → PlaysLine
        (record {
          library = D.Lib.library;
          rows = image_rows;
          clips = clips.now;
          rate = rate;
          files = (T.seen store.old).file;
          tells = record { store = T.tells; screen = shows; out = O.tells };
        })
        (record { desk = D.desk desk.old; store = T.seen store.old; screen = screen; out = O.seen out.old })
        (record { desk = D.desk desk.new; store = T.seen store.new; screen = screen; out = O.seen out.new }) line result }
{
    let text = match fetch_list(alloc, store, file) {
        Ok(text) => text,
        Err(why) => return Err(why),
    };
    match read_list(alloc, &text, clips, rate) {
        Ok(segments) => replace(alloc, desk, out, segments),
        Err(EdlFault::Line { n, why }) => pass_over(alloc, desk, out, n, why),
        Err(EdlFault::NoMemory) => Err(Halt::NoMemory),
    }
}
