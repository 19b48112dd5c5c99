//! The end of a session: the end line of each export, and the status.

ghost use Rattle.std.specs.Prelude.{◌≡◌, ◌≤◌, ◌∷◌, [], IfOk};
ghost use Rattle.std.specs.List.{flat_map, list_any};
ghost use Rattle.timeline_app.specs.Ending.{clip_name, ending_line, is_sink, is_memory, is_fault, ending_status, stop_status, unless_stopped, final_status, entry_lines, entry_endings, any_ending, stop_in};
ghost use Rattle.tl_model.specs.declared.fault.Ending.TheVariants as ending;
ghost use Rattle.timeline_app.specs.Course.{SaysBy};

use play_head::{Stop, fault_word, say_line};
use script_lang::OutLine;
use std::alloc::{AllocError, Global};
use tl_model::{Act, Clips, Ending, Entry, Name, RenderFault};
use tl_ports::{PutFault, Sink};

/// The name of a clip by its number.
fn clip_name(alloc: Global, clips: &Clips, clip: u32) -> Result<Name, AllocError>
    ensures { IfOk result (λ name. name ≡ clip_name clips.now clip) }
{
    match clips.as_slice().get(clip as usize) {
        Some((name, _)) => name.copy(alloc),
        None => Ok(Name::from_text(String::new(alloc))),
    }
}

/// The line of an export with a frame that couldn't be rendered.
fn fault_line(
    alloc: Global,
    clips: &Clips,
    export: u64,
    at: u32,
    fault: RenderFault,
) -> Result<OutLine, AllocError>
    ensures { IfOk result (λ line. line ≡ ending_line clips.now export (ending.ClipFault at fault)) }
{
    let clip = clip_name(alloc, clips, fault.clip)?;
    let word = String::from_str(alloc, fault_word(fault.kind))?;
    Ok(OutLine::ExportFault {
        export,
        at,
        clip,
        frame: fault.frame,
        kind: Name::from_text(word),
    })
}

/// The line of how an export ended.
fn ending_line(
    alloc: Global,
    clips: &Clips,
    export: u64,
    ending: Ending,
) -> Result<OutLine, AllocError>
    ensures { IfOk result (λ line. line ≡ ending_line clips.now export ending) }
{
    match ending {
        Ending::Done { frames } => Ok(OutLine::Done { export, frames }),
        Ending::ClipFault { at, fault } => fault_line(alloc, clips, export, at, fault),
        Ending::SliceTooLong { at } => Ok(OutLine::Long { export, at }),
        Ending::Sink => Ok(OutLine::Sink { export }),
        Ending::NoMemory => Ok(OutLine::Memory { export }),
    }
}

/// Puts the line of an export that ended.
fn say_ending<O: Sink>(
    alloc: Global,
    out: &mut O,
    clips: &Clips,
    export: u64,
    ending: Ending,
) -> Result<(), PutFault>
    ensures says { SaysBy O.tells (O.seen out.old) (O.seen out.new) (ending_line clips.now export ending ∷ []) result }
    ensures later { (O.seen out.old).faults ≤ (O.seen out.new).faults }
{
    match ending_line(alloc, clips, export, ending) {
        Ok(line) => say_line(alloc, out, &line),
        Err(_) => Err(PutFault::NoMemory),
    }
}

/// Puts the line of an entry that ends an export. Any other entry has none.
fn say_entry<O: Sink>(
    alloc: Global,
    out: &mut O,
    clips: &Clips,
    entry: &Entry,
) -> Result<(), PutFault>
    ensures says { SaysBy O.tells (O.seen out.old) (O.seen out.new) (entry_lines clips.now entry.now) result }
    ensures later { (O.seen out.old).faults ≤ (O.seen out.new).faults }
{
    match &entry.act {
        Act::End { export, ending } => say_ending(alloc, out, clips, *export, *ending),
        _ => Ok(()),
    }
}

/// Puts the line of each export that ended, in the order of the journal, up to a put that isn't `Ok`.
pub fn say_endings<O: Sink>(
    alloc: Global,
    out: &mut O,
    clips: &Clips,
    journal: &[Entry],
) -> Result<(), PutFault>
    ensures says { SaysBy O.tells (O.seen out.old) (O.seen out.new) (flat_map (entry_lines clips.now) journal.now) result }
    ensures later { (O.seen out.old).faults ≤ (O.seen out.new).faults }
{
    for entry in journal {
        match say_entry(alloc, out, clips, entry) {
            Ok(()) => {}
            Err(fault) => return Err(fault),
        }
    }
    Ok(())
}

fn is_sink(entry: &Entry) -> bool
    ensures { result ≡ any_ending is_sink entry.now }
{
    matches!(
        &entry.act,
        Act::End {
            export: _,
            ending: Ending::Sink
        }
    )
}

fn is_memory(entry: &Entry) -> bool
    ensures { result ≡ any_ending is_memory entry.now }
{
    matches!(
        &entry.act,
        Act::End {
            export: _,
            ending: Ending::NoMemory
        }
    )
}

fn is_fault(entry: &Entry) -> bool
    ensures { result ≡ any_ending is_fault entry.now }
{
    match &entry.act {
        Act::End {
            export: _,
            ending: Ending::ClipFault { at: _, fault: _ },
        } => true,
        Act::End {
            export: _,
            ending: Ending::SliceTooLong { at: _ },
        } => true,
        _ => false,
    }
}

fn has_sink(journal: &[Entry]) -> bool
    ensures { result ≡ list_any is_sink (flat_map entry_endings journal.now) }
{
    journal.iter().any(|entry| is_sink(entry))
}

fn has_memory(journal: &[Entry]) -> bool
    ensures { result ≡ list_any is_memory (flat_map entry_endings journal.now) }
{
    journal.iter().any(|entry| is_memory(entry))
}

fn has_fault(journal: &[Entry]) -> bool
    ensures { result ≡ list_any is_fault (flat_map entry_endings journal.now) }
{
    journal.iter().any(|entry| is_fault(entry))
}

/// The status of exports that ended.
fn ending_status(journal: &[Entry]) -> u8
    ensures { result ≡ ending_status (flat_map entry_endings journal.now) }
{
    if has_sink(journal) {
        return 4;
    }
    if has_memory(journal) {
        return 5;
    }
    if has_fault(journal) { 7 } else { 0 }
}

/// The status of what stopped a script.
fn stop_status(stop: Stop) -> u8
    ensures { result ≡ stop_status stop }
{
    match stop {
        Stop::Store => 4,
        Stop::Screen => 4,
        Stop::Out => 4,
        Stop::NoMemory => 5,
        Stop::OutMemory => 5,
        Stop::JournalFull { len: _, owed: _ } => 6,
    }
}

fn unless_stopped(status: u8, played: Result<(), Stop>) -> u8
    ensures { result ≡ unless_stopped status (stop_in played) }
{
    match played {
        Ok(()) => status,
        Err(stop) => stop_status(stop),
    }
}

/// The status of a session, by how the puts to `out` went, how playing its script ended, and its journal.
pub fn final_status(said: Result<(), PutFault>, played: Result<(), Stop>, journal: &[Entry]) -> u8
    ensures { result ≡ final_status said (stop_in played) (flat_map entry_endings journal.now) }
{
    match said {
        Ok(()) => unless_stopped(ending_status(journal), played),
        Err(PutFault::Failed) => unless_stopped(4, played),
        Err(PutFault::NoMemory) => 5,
    }
}
