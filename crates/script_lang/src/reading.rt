//! Reading a line back.

ghost use Rattle.std.specs.Prelude.{◌≡◌, not, IsTrue, IfOk, IfSome, Some};
ghost use Rattle.std.specs.List.{list_all};
ghost use Rattle.std.specs.Str.{bytes_eq};
ghost use Rattle.text_words.specs.declared.blanks.Blanks.TheVariants.{SpaceTabReturn};
ghost use Rattle.text_words.specs.Blanks.{is_blank};
ghost use Rattle.text_words.specs.Law.{is_line, is_word};
ghost use Rattle.script_lang.specs.Line.{is_name, is_one_of, line_text};
ghost use Rattle.script_lang.specs.Lists.{refusals, edl_faults, frame_faults, line_faults, clip_faults, record_faults, store_faults};
ghost use Rattle.script_lang.specs.Parsed.{Finds};
ghost use Rattle.script_lang.specs.Sound.{fits, is_sound, found, verified, read_text};
ghost use Rattle.script_lang.specs.declared.out_line.OutLine.{OutLine};

use crate::fields::is_one_of;
use crate::out_line::OutLine;
use crate::parsing::{Unread, parsed};
use crate::printing::put_line;
use std::alloc::{AllocError, Global};
use text_words::{Blanks, is_text, next_line, words};
use tl_model::Name;

#[rattlefmt::skip]
const REFUSALS: [&str; 11] = [
    "PastEnd", "NoCut", "NoClip", "ShapeDiffers", "OutsideClip", "MixTooLong", "TooManyFrames", "TooManySegments",
    "NothingToUndo", "NothingToRedo", "EmptyTimeline",
];

#[rattlefmt::skip]
const EDL_FAULTS: [&str; 11] = [
    "Drop", "Speed", "Wipe", "Key", "Unknown", "Timecode", "PairMissing", "UnknownClip", "Span", "OutsideClip", "Overlap",
];

#[rattlefmt::skip]
const FRAME_FAULTS: [&str; 9] = [
    "Empty", "Chain", "Parity", "NotKey", "Header", "TableIndex", "Cover", "Symbol", "Overrun",
];

#[rattlefmt::skip]
const LINE_FAULTS: [&str; 13] = [
    "Limit", "Utf8", "Word", "Order", "Count", "Number", "Timecode", "Format", "SameName", "UnknownClip", "SameExport",
    "Slices", "Total",
];

#[rattlefmt::skip]
const CLIP_FAULTS: [&str; 10] = [
    "Ebml", "DocType", "NoTrack", "Codec", "NoPrivate", "Encoded", "Limit", "Laced", "TimeOrder", "NoFrames",
];

#[rattlefmt::skip]
const RECORD_FAULTS: [&str; 15] = [
    "Short", "Parity", "Symbol", "Version", "Micro", "Coder", "Transition", "Color", "Depth", "Subsample", "ExtraPlane",
    "Slices", "Tables", "InitialStates", "Ec",
];

const STORE_FAULTS: [&str; 3] = ["Failed", "Missing", "TooLarge"];

fn is_refusal(why: &Name) -> bool
    ensures { result ≡ is_one_of refusals why.now }
{
    is_one_of(&REFUSALS, why.as_str().as_bytes())
}

fn is_edl_fault(why: &Name) -> bool
    ensures { result ≡ is_one_of edl_faults why.now }
{
    is_one_of(&EDL_FAULTS, why.as_str().as_bytes())
}

fn is_frame_fault(kind: &Name) -> bool
    ensures { result ≡ is_one_of frame_faults kind.now }
{
    is_one_of(&FRAME_FAULTS, kind.as_str().as_bytes())
}

fn is_line_fault(why: &Name) -> bool
    ensures { result ≡ is_one_of line_faults why.now }
{
    is_one_of(&LINE_FAULTS, why.as_str().as_bytes())
}

fn is_clip_fault(kind: &Name) -> bool
    ensures { result ≡ is_one_of clip_faults kind.now }
{
    is_one_of(&CLIP_FAULTS, kind.as_str().as_bytes())
}

fn is_record_fault(kind: &Name) -> bool
    ensures { result ≡ is_one_of record_faults kind.now }
{
    is_one_of(&RECORD_FAULTS, kind.as_str().as_bytes())
}

fn is_store_fault(kind: &Name) -> bool
    ensures { result ≡ is_one_of store_faults kind.now }
{
    is_one_of(&STORE_FAULTS, kind.as_str().as_bytes())
}

fn is_blank(byte: u8) -> bool
    ensures { result ≡ is_blank SpaceTabReturn byte }
{
    byte == b' ' || byte == b'\t' || byte == b'\r'
}

fn has_no_blank(word: &[u8]) -> bool
    ensures { result ≡ list_all (λ byte. not (is_blank SpaceTabReturn byte)) word.now }
{
    word.iter().all(|byte| !is_blank(*byte))
}

fn is_word(word: &[u8]) -> bool
    ensures { result ≡ is_word SpaceTabReturn word.now }
{
    !word.is_empty() && has_no_blank(word)
}

fn is_line(word: &[u8]) -> bool
    ensures { result ≡ is_line word.now }
{
    word.iter().all(|byte| *byte != b'\n' && *byte != b'\r')
}

fn is_name(name: &Name) -> bool
    ensures { result ≡ is_name name.now }
{
    let bytes = name.as_str().as_bytes();
    is_text(bytes) && is_word(bytes) && is_line(bytes)
}

#[tactic(auto, unfolding(crate::specs::Line::fields))]
fn is_sound(line: &OutLine) -> bool
    ensures { result ≡ is_sound line.now }
{
    match line {
        OutLine::Refused { why } => is_refusal(why),
        OutLine::EdlLine { n: _, why } => is_edl_fault(why),
        OutLine::Fault { n: _, kind } => is_frame_fault(kind),
        OutLine::FaultLine { n: _, why } => is_line_fault(why),
        OutLine::FaultClip { n: _, kind } => is_clip_fault(kind),
        OutLine::FaultRecord { n: _, kind } => is_record_fault(kind),
        OutLine::Store { name, kind } => is_name(name) && is_store_fault(kind),
        OutLine::ExportFault {
            export: _,
            at: _,
            clip,
            frame: _,
            kind,
        } => is_name(clip) && is_frame_fault(kind),
        _ => true,
    }
}

/// What the first line of a text can be.
#[tactic(auto, unfolding(crate::specs::Sound::found_in))]
fn found(alloc: Global, text: &[u8]) -> Result<OutLine, Unread>
    ensures { Finds result (found text.now) }
{
    match next_line(text) {
        Some((first, _)) => {
            let words = words(alloc, Blanks::SpaceTabReturn, first)?;
            parsed(alloc, &words)
        }
        None => Err(Unread::NoLine),
    }
}

/// Whether a sound line is spelled as the text.
#[tactic(auto, using(crate::proofs::Soundness::listed_if_sound))]
fn is_spelled(alloc: Global, line: &OutLine, text: &[u8]) -> Result<bool, AllocError>
    requires { IsTrue (is_sound line.now) }
    ensures { IfOk result (λ same. same ≡ bytes_eq (line_text line.now) text.now) }
{
    let mut spelled = Vec::new(alloc);
    put_line(line, &mut spelled)?;
    Ok(spelled.as_slice() == text)
}

/// The line, where it is sound and spelled as the text.
fn verified(alloc: Global, line: OutLine, text: &[u8]) -> Result<Option<OutLine>, AllocError>
    ensures { IfOk result (λ read. read ≡ verified text.now line) }
{
    if !is_sound(&line) {
        return Ok(None);
    }
    if is_spelled(alloc, &line, text)? {
        Ok(Some(line))
    } else {
        Ok(None)
    }
}

#[tactic(auto, unfolding(crate::specs::Sound::read_text))]
fn read_text(alloc: Global, text: &[u8]) -> Result<Option<OutLine>, AllocError>
    ensures { IfOk result (λ read. read ≡ read_text text.now) }
{
    match found(alloc, text) {
        Ok(line) => {
            let read = verified(alloc, line, text)?;
            Ok(read)
        }
        Err(Unread::NoLine) => Ok(None),
        Err(Unread::NoMemory) => Err(AllocError),
    }
}

/// The line that a text is, with its line feed. None exactly where the text is no line: single blanks part its words, a number has
/// no leading zeros, a name is a single word, and each other word is of its list.
pub fn read_line(alloc: Global, text: &[u8]) -> Result<Option<OutLine>, AllocError>
    ensures line { IfOk result (λ read. IfSome read (λ line. (IsTrue (is_sound line)) × (text.now ≡ line_text line))) }
    ensures back { IfOk result (λ read. (line : OutLine) → IsTrue (fits line) → IsTrue (is_sound line)
        → text.now ≡ line_text line → read ≡ Some line) }
{
    let read = read_text(alloc, text)?;
    Ok(read)
}
