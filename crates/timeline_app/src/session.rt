//! The head of a session: its script is fetched and read, and then the clips of its lines are loaded, one after another.

ghost use Rattle.std.specs.Prelude.{◌≡◌, IfOk, IfErr, OnOk};
ghost use Rattle.script_lang.specs.ScriptSound.{IsScript};
ghost use Rattle.tl_ports.specs.Outside.{IsFetched};
ghost use Rattle.timeline_app.specs.Session.{fetched_by, file_within, IsUnfetchedStop, ReadsText, LoadsOr, LoadsClips, Opens};

use clip_store::{LoadFault, Shelf};
use script_lang::{ClipLine, Script, ScriptFault, ScriptRefusal, read_script};
use std::alloc::Global;
use tl_limits::{MAX_CLIP_BYTES, MAX_TEXT_BYTES};
use tl_model::Name;
use tl_ports::{FetchFault, Store};

/// What stops a session before its start: the first cause, by the script's lines.
#[derive(Debug, Drop)]
pub enum HeadStop {
    /// The file of this name wasn't fetched, for another cause than want of memory.
    Store { name: Name, fault: FetchFault },
    /// The script is faulty at its line `n`.
    Script { n: u32, why: ScriptFault },
    /// The file of the clip line `n` can't be loaded, for another cause than want of memory.
    Clip { n: u32, fault: LoadFault },
    /// Memory ran out.
    NoMemory,
}

/// Fetches a whole file of at most `limit` bytes. The name is copied first, since nothing may be wanting once the fetch failed.
fn fetch<T: Store>(
    alloc: Global,
    store: &mut T,
    name: &str,
    limit: u64,
) -> Result<Vec<u8>, HeadStop>
    ensures fetched { IfOk result (λ bytes. IsFetched T.tells (T.seen store.old) (file_within name.now limit) bytes.items) }
    ensures stop { IfErr result (IsUnfetchedStop (fetched_by T.tells (T.seen store.old) (T.seen store.new)) (file_within name.now limit)) }
    ensures files { (T.seen store.new).file ≡ (T.seen store.old).file }
    ensures same { OnOk result (T.seen store.new ≡ T.seen store.old) }
{
    let Ok(text) = String::from_str(alloc, name) else {
        return Err(HeadStop::NoMemory);
    };
    let mut bytes = Vec::new(alloc);
    match store.fetch(name, limit, &mut bytes) {
        Ok(()) => Ok(bytes),
        Err(FetchFault::NoMemory) => Err(HeadStop::NoMemory),
        Err(fault) => Err(HeadStop::Store {
            name: Name::from_text(text),
            fault,
        }),
    }
}

/// Reads a script.
fn script_in(alloc: Global, text: &[u8]) -> Result<Script, HeadStop>
    ensures reads { ReadsText text.now result }
    ensures sound { IfOk result IsScript }
{
    match read_script(alloc, text) {
        Ok(script) => Ok(script),
        Err(ScriptRefusal::Fault { n, why }) => Err(HeadStop::Script { n, why }),
        Err(ScriptRefusal::NoMemory) => Err(HeadStop::NoMemory),
    }
}

/// Loads the file of a clip line.
fn load_line<T: Store>(
    alloc: Global,
    store: &mut T,
    line: &ClipLine,
    shelf: &mut Shelf,
) -> Result<(), HeadStop>
    ensures loads { LoadsOr (fetched_by T.tells (T.seen store.old) (T.seen store.new)) line.now shelf.old shelf.new result }
    ensures same { OnOk result (T.seen store.new ≡ T.seen store.old) }
    ensures files { (T.seen store.new).file ≡ (T.seen store.old).file }
{
    let bytes = fetch(alloc, store, line.file.as_str(), MAX_CLIP_BYTES)?;
    match shelf.load(alloc, line.name.as_str(), line.start, bytes) {
        Ok(_) => Ok(()),
        Err(LoadFault::NoMemory) => Err(HeadStop::NoMemory),
        Err(fault) => Err(HeadStop::Clip { n: line.n, fault }),
    }
}

/// Loads the files of clip lines in their order.
fn load_lines<T: Store>(alloc: Global, store: &mut T, lines: &[ClipLine]) -> Result<Shelf, HeadStop>
    ensures clips { LoadsClips (fetched_by T.tells (T.seen store.old) (T.seen store.new)) lines.now result }
    ensures same { OnOk result (T.seen store.new ≡ T.seen store.old) }
    ensures files { (T.seen store.new).file ≡ (T.seen store.old).file }
{
    let mut shelf = Shelf::start(alloc);
    for line in lines {
        match load_line(alloc, store, line, &mut shelf) {
            Ok(()) => {}
            Err(stop) => return Err(stop),
        }
    }
    Ok(shelf)
}

/// Fetches and reads the script of this name, and loads the clips of its lines in their order. The first that isn't fetched
/// or is faulty stops.
pub fn open<T: Store>(alloc: Global, store: &mut T, name: &str) -> Result<(Script, Shelf), HeadStop>
    ensures opens { Opens (fetched_by T.tells (T.seen store.old) (T.seen store.new)) name.now result }
    ensures sound { IfOk result (λ read. IsScript read.0) }
    ensures same { OnOk result (T.seen store.new ≡ T.seen store.old) }
    ensures files { (T.seen store.new).file ≡ (T.seen store.old).file }
{
    let text = fetch(alloc, store, name, MAX_TEXT_BYTES)?;
    let script = script_in(alloc, &text)?;
    let shelf = load_lines(alloc, store, script.clips.as_slice())?;
    Ok((script, shelf))
}
