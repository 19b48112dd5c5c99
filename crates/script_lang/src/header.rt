//! The lines of a script's header.

ghost use Rattle.std.specs.Prelude.{◌≡◌, ℕ, ◌≤◌, ◌<◌, ◌*◌, map, IfOk, Ok, true};
ghost use Rattle.tl_limits.specs.Limits.{IsRate, max_side, timecode_frames};
ghost use Rattle.pic_planes.specs.Shape.{AreShifts};
ghost use Rattle.script_lang.specs.Fields.{Answers, Reads};
ghost use Rattle.script_lang.specs.Header.{rate_of, clip_at, clip_of, chroma_of, coder_of, chroma_planes, is_side, is_grid, is_covered, coded_format, sized_format, own_format, like_format, format_of};
ghost use Rattle.script_lang.specs.Lists.{Words};
ghost use Rattle.script_lang.specs.ScriptText.{names};
ghost use Rattle.script_lang.specs.ScriptSound.{IsFormat};
ghost use Rattle.script_lang.specs.State.{begun, clip_line, Keeps};

use crate::fields::{LineRefusal, copy_of, name_of, pair_of, within};
use crate::script::{ChromaWord, CoderWord, FormatLine, ScriptFault};
use crate::state::{State, has_word};
use pic_planes::{Chroma, reaches_ends};
use std::alloc::Global;
use text_words::timecode;
use tl_limits::{MAX_RATE, MAX_SIDE, MAX_SLICES};

/// The words of a clip's line.
#[derive(Clone, Copy)]
pub struct ClipWords<'a> {
    pub name: &'a str,
    pub file: &'a str,
    pub start: u32,
}

/// How many frames a second has.
#[tactic(auto, unfolding(crate::specs::Header::rate_of))]
pub fn rate_of(words: &[&[u8]]) -> Result<u32, ScriptFault>
    ensures exact { result ≡ rate_of (map (λ word. word.now) words.now) }
    ensures rate { IfOk result IsRate }
{
    match words {
        [word] => within(1, MAX_RATE, word),
        _ => Err(ScriptFault::Count),
    }
}

fn clip_at<'a>(name: &'a [u8], file: &'a [u8], start: u32) -> Result<ClipWords<'a>, ScriptFault>
    requires { start < timecode_frames }
    ensures below { IfOk result (λ clip. clip.start < timecode_frames) }
    ensures exact { (n : ℕ) → Answers (clip_line n) result (clip_at n name.now file.now start) }
{
    let name = name_of(name)?;
    let file = name_of(file)?;
    Ok(ClipWords { name, file, start })
}

/// A name, a file and perhaps a timecode.
#[tactic(auto, unfolding(crate::specs::Header::clip_of))]
pub fn clip_of<'a>(rate: u32, words: &[&'a [u8]]) -> Result<ClipWords<'a>, ScriptFault>
    requires { IsRate rate }
    ensures below { IfOk result (λ clip. clip.start < timecode_frames) }
    ensures exact { (n : ℕ) → Answers (clip_line n) result (clip_of n rate (map (λ word. word.now) words.now)) }
{
    match words {
        [name, file] => clip_at(name, file, 0),
        [name, file, time] => {
            let start = timecode(rate, time).ok_or(ScriptFault::Timecode)?;
            clip_at(name, file, start)
        }
        _ => Err(ScriptFault::Count),
    }
}

#[tactic(auto, unfolding(crate::specs::Header::chroma_of))]
fn chroma_of(word: &[u8]) -> Option<ChromaWord>
    ensures { result ≡ chroma_of word.now }
{
    if word == b"grey".as_slice() {
        Some(ChromaWord::Grey)
    } else if word == b"444".as_slice() {
        Some(ChromaWord::C444)
    } else if word == b"440".as_slice() {
        Some(ChromaWord::C440)
    } else if word == b"422".as_slice() {
        Some(ChromaWord::C422)
    } else if word == b"420".as_slice() {
        Some(ChromaWord::C420)
    } else if word == b"411".as_slice() {
        Some(ChromaWord::C411)
    } else if word == b"410".as_slice() {
        Some(ChromaWord::C410)
    } else {
        None
    }
}

#[tactic(auto, unfolding(crate::specs::Header::coder_of))]
fn coder_of(word: &[u8]) -> Option<CoderWord>
    ensures { result ≡ coder_of word.now }
{
    if word == b"range".as_slice() {
        Some(CoderWord::Range)
    } else if word == b"rice".as_slice() {
        Some(CoderWord::Rice)
    } else {
        None
    }
}

/// The planes of a chroma.
pub fn chroma_planes(kind: ChromaWord) -> Chroma
    ensures planes { result ≡ chroma_planes kind }
    ensures shifts { AreShifts result }
{
    match kind {
        ChromaWord::Grey => Chroma::Grey,
        ChromaWord::C444 => Chroma::Shifts { h: 0, v: 0 },
        ChromaWord::C440 => Chroma::Shifts { h: 0, v: 1 },
        ChromaWord::C422 => Chroma::Shifts { h: 1, v: 0 },
        ChromaWord::C420 => Chroma::Shifts { h: 1, v: 1 },
        ChromaWord::C411 => Chroma::Shifts { h: 2, v: 0 },
        ChromaWord::C410 => Chroma::Shifts { h: 2, v: 2 },
    }
}

fn is_side(size: u32) -> bool
    ensures { result ≡ is_side size }
{
    1 <= size && size <= MAX_SIDE
}

fn is_grid(columns: u32, rows: u32, width: u32, height: u32) -> bool
    requires width { width ≤ max_side }
    requires height { height ≤ max_side }
    ensures { result ≡ is_grid columns rows width height }
{
    1 <= columns && columns <= width && 1 <= rows && rows <= height && columns * rows <= MAX_SLICES
}

/// Whether the picture and its grid keep their limits.
#[tactic(auto, unfolding(crate::specs::Header::is_covered))]
fn is_covered(columns: u32, rows: u32, width: u32, height: u32, kind: ChromaWord) -> bool
    ensures { result ≡ is_covered columns rows width height kind }
{
    if is_side(width) && is_side(height) && is_grid(columns, rows, width, height) {
        reaches_ends(chroma_planes(kind), columns, rows, width, height)
    } else {
        false
    }
}

/// A format of a size and a grid by the words for its chroma and its coder.
#[tactic(auto, unfolding(crate::specs::Header::coded_format))]
fn coded_format(
    size: (u32, u32),
    grid: (u32, u32),
    chroma: &[u8],
    coder: &[u8],
) -> Result<FormatLine, ScriptFault>
    ensures exact { result ≡ coded_format size grid chroma.now coder.now }
    ensures sound { IfOk result (λ format. (names : Words) → IsFormat names format) }
{
    let (width, height) = size;
    let (columns, rows) = grid;
    let chroma = chroma_of(chroma).ok_or(ScriptFault::Format)?;
    let coder = coder_of(coder).ok_or(ScriptFault::Format)?;
    if !is_covered(columns, rows, width, height, chroma) {
        return Err(ScriptFault::Format);
    }
    Ok(FormatLine::Own {
        width,
        height,
        chroma,
        coder,
        columns,
        rows,
    })
}

/// The same once both are read.
#[tactic(auto, unfolding(crate::specs::Header::sized_format))]
fn sized_format(
    size: Result<(u32, u32), ScriptFault>,
    grid: Result<(u32, u32), ScriptFault>,
    chroma: &[u8],
    coder: &[u8],
) -> Result<FormatLine, ScriptFault>
    ensures exact { result ≡ sized_format size grid chroma.now coder.now }
    ensures sound { IfOk result (λ format. (names : Words) → IsFormat names format) }
{
    let size = size?;
    let grid = grid?;
    coded_format(size, grid, chroma, coder)
}

#[tactic(auto, unfolding(crate::specs::Header::own_format))]
fn own_format(words: &[&[u8]]) -> Result<FormatLine, ScriptFault>
    ensures exact { result ≡ own_format (map (λ word. word.now) words.now) }
    ensures sound { IfOk result (λ format. (names : Words) → IsFormat names format) }
{
    match words {
        [width, height, chroma, coder, columns, rows] => sized_format(
            pair_of(0, width, height),
            pair_of(0, columns, rows),
            chroma,
            coder,
        ),
        _ => Err(ScriptFault::Count),
    }
}

#[tactic(auto, unfolding(crate::specs::Header::like_format))]
fn like_format(alloc: Global, state: &State<'_>, words: &[&[u8]]) -> Result<FormatLine, LineRefusal>
    requires { Keeps state.now }
    ensures read { Reads (λ format. format) result (like_format (names (begun state.now)) (map (λ word. word.now) words.now)) }
    ensures sound { IfOk result (IsFormat (names (begun state.now))) }
{
    let [word] = words else {
        return Err(LineRefusal::Fault(ScriptFault::Count));
    };
    let name = name_of(word)?;
    if !has_word(&state.names, name) {
        return Err(LineRefusal::Fault(ScriptFault::UnknownClip));
    }
    let name = copy_of(alloc, name)?;
    Ok(FormatLine::As { name })
}

/// A format, which after `as` is that of a clip.
#[tactic(auto, unfolding(crate::specs::Header::format_of))]
pub fn format_of(
    alloc: Global,
    state: &State<'_>,
    words: &[&[u8]],
) -> Result<FormatLine, LineRefusal>
    requires { Keeps state.now }
    ensures read { Reads (λ format. format) result (format_of (names (begun state.now)) (map (λ word. word.now) words.now)) }
    ensures sound { IfOk result (IsFormat (names (begun state.now))) }
{
    match words {
        [] => Err(LineRefusal::Fault(ScriptFault::Count)),
        [first, more @ ..] if *first == b"as".as_slice() => like_format(alloc, state, more),
        _ => Ok(own_format(words)?),
    }
}
