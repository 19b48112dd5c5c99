//! The line of what stops a session before its start, and its status.

ghost use Rattle.std.specs.Prelude.{◌≡◌, IfOk, option_map};
ghost use Rattle.script_lang.specs.declared.out_line.OutLine.TheVariants as out;
ghost use Rattle.timeline_app.specs.Head.{clip_word, record_word, clip_line, record_line, load_line, head_line, head_status};

use crate::session::HeadStop;
use clip_store::LoadFault;
use ffv1_record::RecordFault;
use mkv_read::ClipFault;
use play_head::store_word;
use script_lang::OutLine;
use std::alloc::{AllocError, Global};
use tl_model::Name;

/// What is wrong with a clip's file, in a word. None is want of memory.
fn clip_word(fault: ClipFault) -> Option<&'static str>
    ensures { option_map (λ word. word.now) result ≡ clip_word fault }
{
    match fault {
        ClipFault::Ebml { at: _ } => Some("Ebml"),
        ClipFault::DocType => Some("DocType"),
        ClipFault::NoTrack => Some("NoTrack"),
        ClipFault::Codec => Some("Codec"),
        ClipFault::NoPrivate => Some("NoPrivate"),
        ClipFault::Encoded => Some("Encoded"),
        ClipFault::Limit { which: _ } => Some("Limit"),
        ClipFault::Laced { at: _ } => Some("Laced"),
        ClipFault::TimeOrder { at: _ } => Some("TimeOrder"),
        ClipFault::NoFrames => Some("NoFrames"),
        ClipFault::NoMemory => None,
    }
}

/// What is wrong with a clip's record, in a word. None is want of memory.
fn record_word(fault: RecordFault) -> Option<&'static str>
    ensures { option_map (λ word. word.now) result ≡ record_word fault }
{
    match fault {
        RecordFault::Short => Some("Short"),
        RecordFault::Parity => Some("Parity"),
        RecordFault::Symbol => Some("Symbol"),
        RecordFault::Version => Some("Version"),
        RecordFault::Micro => Some("Micro"),
        RecordFault::Coder => Some("Coder"),
        RecordFault::Transition => Some("Transition"),
        RecordFault::Color => Some("Color"),
        RecordFault::Depth => Some("Depth"),
        RecordFault::Subsample => Some("Subsample"),
        RecordFault::ExtraPlane => Some("ExtraPlane"),
        RecordFault::Slices => Some("Slices"),
        RecordFault::Tables => Some("Tables"),
        RecordFault::InitialStates => Some("InitialStates"),
        RecordFault::Ec => Some("Ec"),
        RecordFault::NoMemory => None,
    }
}

fn named(alloc: Global, word: &str) -> Result<Name, AllocError>
    ensures { IfOk result (λ name. name ≡ word.now) }
{
    let text = String::from_str(alloc, word)?;
    Ok(Name::from_text(text))
}

fn script_line(alloc: Global, n: u32, word: &str) -> Result<OutLine, AllocError>
    ensures { IfOk result (λ line. line ≡ out.FaultLine n word.now) }
{
    let why = named(alloc, word)?;
    Ok(OutLine::FaultLine { n, why })
}

fn clip_line(alloc: Global, n: u32, fault: ClipFault) -> Result<OutLine, AllocError>
    ensures { IfOk result (λ line. line ≡ clip_line n (clip_word fault)) }
{
    match clip_word(fault) {
        None => Ok(OutLine::NoMemory),
        Some(word) => {
            let kind = named(alloc, word)?;
            Ok(OutLine::FaultClip { n, kind })
        }
    }
}

fn record_line(alloc: Global, n: u32, fault: RecordFault) -> Result<OutLine, AllocError>
    ensures { IfOk result (λ line. line ≡ record_line n (record_word fault)) }
{
    match record_word(fault) {
        None => Ok(OutLine::NoMemory),
        Some(word) => {
            let kind = named(alloc, word)?;
            Ok(OutLine::FaultRecord { n, kind })
        }
    }
}

/// The line of a file that isn't loaded.
fn load_line(alloc: Global, n: u32, fault: LoadFault) -> Result<OutLine, AllocError>
    ensures { IfOk result (λ line. line ≡ load_line n fault) }
{
    match fault {
        LoadFault::SameName => script_line(alloc, n, "SameName"),
        LoadFault::Total => script_line(alloc, n, "Total"),
        LoadFault::Clip(fault) => clip_line(alloc, n, fault),
        LoadFault::Record(fault) => record_line(alloc, n, fault),
        LoadFault::Slices => script_line(alloc, n, "Slices"),
        LoadFault::NoMemory => Ok(OutLine::NoMemory),
    }
}

/// The line of what stops a session before its start.
pub fn head_line(alloc: Global, why: &HeadStop) -> Result<OutLine, AllocError>
    ensures { IfOk result (λ line. line ≡ head_line why.now) }
{
    match why {
        HeadStop::Store { name, fault } => {
            let name = name.copy(alloc)?;
            let kind = named(alloc, store_word(*fault))?;
            Ok(OutLine::Store { name, kind })
        }
        HeadStop::Script { n, why } => script_line(alloc, *n, why.word()),
        HeadStop::Clip { n, fault } => load_line(alloc, *n, *fault),
        HeadStop::NoMemory => Ok(OutLine::NoMemory),
    }
}

/// Its status.
pub fn head_status(why: &HeadStop) -> u8
    ensures { result ≡ head_status why.now }
{
    match why {
        HeadStop::Store { name: _, fault: _ } => 4,
        HeadStop::Script { n: _, why: _ } => 3,
        HeadStop::Clip { n: _, fault: _ } => 3,
        HeadStop::NoMemory => 5,
    }
}
