//! Reading a script.

ghost use Rattle.std.specs.Prelude.{◌≡◌, ◌||◌, true, false, is_some, is_none, length, ◌++◌, ◌∷◌, [], Ok, ◌≤◌, ◌<◌, map, IfOk, OnOk, codes};
ghost use Rattle.std.specs.Str.{bytes_eq};
ghost use Rattle.std.specs.Str.Lines.{lines};
ghost use Rattle.tl_limits.specs.Limits.{IsRate, max_lines, max_clips, timecode_frames};
ghost use Rattle.script_lang.specs.ScriptText.{names, with_rate, header_rate, with_clip_line, with_clip, with_format, with_body, with_edl, with_export, with_other, with_known, with_call, with_words, has_room, with_split, is_comment, with_line, ended, at_line, script_from, script};
ghost use Rattle.script_lang.specs.ScriptSound.{IsScript};
ghost use Rattle.script_lang.specs.State.{has_word, begun, clip_line, Keeps, Took, Takes, Gives};

use crate::calls::{call_of, is_call_name};
use crate::fields::{LineRefusal, copy_of, one_name};
use crate::header::{ClipWords, clip_of, format_of, rate_of};
use crate::script::{
    BodyLine, BodyLines, Call, ClipLine, ClipLines, Script, ScriptFault, ScriptRefusal,
};
use crate::state::{State, empty_state, has_word, put_word};
use std::alloc::{AllocError, AllocFailed, Global};
use text_words::{Blanks, is_text, next_line, words};
use tl_limits::{MAX_CLIPS, MAX_LINES};

#[tactic(auto, unfolding(crate::specs::ScriptText::with_rate))]
fn take_rate(state: &mut State<'_>, rest: &[&[u8]]) -> Result<(), LineRefusal>
    requires { Keeps state.old }
    ensures { Takes result state.new (with_rate (begun state.old) (map (λ word. word.now) rest.now)) }
{
    if state.rate.is_some() {
        return Err(LineRefusal::Fault(ScriptFault::Order));
    }
    let rate = rate_of(rest)?;
    state.rate = Some(rate);
    Ok(())
}

/// The rate, while the header is open.
#[tactic(auto, unfolding(crate::specs::ScriptText::header_rate))]
fn header_rate(state: &State<'_>) -> Result<u32, ScriptFault>
    requires { Keeps state.now }
    ensures exact { result ≡ header_rate (begun state.now) }
    ensures header { IfOk result (λ _. is_none state.now.format ≡ true) }
    ensures rate { IfOk result IsRate }
{
    if state.format.is_some() {
        return Err(ScriptFault::Order);
    }
    state.rate.ok_or(ScriptFault::Order)
}

/// The line of a clip.
fn owned_clip(alloc: Global, n: u32, clip: ClipWords<'_>) -> Result<ClipLine, AllocError>
    ensures { IfOk result (λ line. line ≡ clip_line n clip.entry) }
{
    let name = copy_of(alloc, clip.name)?;
    let file = copy_of(alloc, clip.file)?;
    Ok(ClipLine {
        n,
        name,
        file,
        start: clip.start,
    })
}

fn push_clip(clips: &mut Vec<ClipLine>, line: ClipLine) -> Result<(), AllocError>
    ensures { OnOk result (clips.new.items ≡ clips.old.items ++ line ∷ []) }
{
    clips.push(line)?;
    Ok(())
}

/// Puts a clip at the end.
fn put_clip<'a>(
    alloc: Global,
    state: &mut State<'a>,
    n: u32,
    clip: ClipWords<'a>,
) -> Result<(), AllocError>
    requires keeps { Keeps state.old }
    requires room { length state.old.clips.items < max_clips }
    requires below { clip.start < timecode_frames }
    requires header { is_none state.old.format ≡ true }
    requires fresh { (bytes_eq clip.name.now (codes "black") || has_word state.old.names clip.name.now) ≡ false }
    ensures { OnOk result (Took state.new (Ok (with_clip_line (begun state.old) (clip_line n clip.entry)))) }
{
    put_word(&mut state.names, clip.name)?;
    put_word(&mut state.read, clip.file)?;
    let line = owned_clip(alloc, n, clip)?;
    push_clip(&mut state.clips, line)?;
    Ok(())
}

/// Whether no clip may have a name any more.
fn is_taken(state: &State<'_>, name: &str) -> bool
    ensures { result ≡ (bytes_eq name.now (codes "black") || has_word state.now.names name.now) }
{
    name == "black" || has_word(&state.names, name)
}

#[tactic(auto, unfolding(crate::specs::ScriptText::with_clip))]
fn take_clip<'a>(
    alloc: Global,
    state: &mut State<'a>,
    n: u32,
    rest: &[&'a [u8]],
) -> Result<(), LineRefusal>
    requires keeps { Keeps state.old }
    requires room { length state.old.clips.items < max_clips }
    ensures { Takes result state.new (with_clip (begun state.old) n (map (λ word. word.now) rest.now)) }
{
    let rate = header_rate(state)?;
    let clip = clip_of(rate, rest)?;
    if is_taken(state, clip.name) {
        return Err(LineRefusal::Fault(ScriptFault::SameName));
    }
    put_clip(alloc, state, n, clip)?;
    Ok(())
}

#[tactic(auto, unfolding(crate::specs::ScriptText::with_format))]
fn take_format(alloc: Global, state: &mut State<'_>, rest: &[&[u8]]) -> Result<(), LineRefusal>
    requires { Keeps state.old }
    ensures { Takes result state.new (with_format (begun state.old) (map (λ word. word.now) rest.now)) }
{
    header_rate(state)?;
    let format = format_of(alloc, state, rest)?;
    state.format = Some(format);
    Ok(())
}

/// Puts a call at the end.
fn put_call(body: &mut Vec<BodyLine>, n: u32, call: Call) -> Result<(), AllocError>
    ensures { OnOk result (body.new.items ≡ body.old.items ++ record { n = n; call = call } ∷ []) }
{
    body.push(BodyLine { n, call })?;
    Ok(())
}

/// Takes a call that names no file to write or edit list to read.
#[tactic(auto, unfolding(crate::specs::ScriptText::with_other))]
fn take_other(
    alloc: Global,
    state: &mut State<'_>,
    n: u32,
    first: &[u8],
    rest: &[&[u8]],
) -> Result<(), LineRefusal>
    requires keeps { Keeps state.old }
    requires formatted { is_some state.old.format ≡ true }
    ensures { Takes result state.new (with_other (begun state.old) n first.now (map (λ word. word.now) rest.now)) }
{
    let call = call_of(alloc, first, rest)?;
    put_call(&mut state.body, n, call)?;
    Ok(())
}

#[tactic(auto, unfolding(crate::specs::ScriptText::with_edl))]
fn take_edl<'a>(
    alloc: Global,
    state: &mut State<'a>,
    n: u32,
    rest: &[&'a [u8]],
) -> Result<(), LineRefusal>
    requires keeps { Keeps state.old }
    requires formatted { is_some state.old.format ≡ true }
    ensures { Takes result state.new (with_edl (begun state.old) n (map (λ word. word.now) rest.now)) }
{
    let file = one_name(rest)?;
    if has_word(&state.exported, file) {
        return Err(LineRefusal::Fault(ScriptFault::SameExport));
    }
    put_word(&mut state.read, file)?;
    let file = copy_of(alloc, file)?;
    let call = Call::Edl { file };
    put_call(&mut state.body, n, call)?;
    Ok(())
}

/// Whether a line has named a file.
fn is_named(state: &State<'_>, file: &str) -> bool
    ensures { result ≡ (has_word state.now.read file.now || has_word state.now.exported file.now) }
{
    has_word(&state.read, file) || has_word(&state.exported, file)
}

#[tactic(auto, unfolding(crate::specs::ScriptText::with_export))]
fn take_export<'a>(
    alloc: Global,
    state: &mut State<'a>,
    n: u32,
    rest: &[&'a [u8]],
) -> Result<(), LineRefusal>
    requires keeps { Keeps state.old }
    requires formatted { is_some state.old.format ≡ true }
    ensures { Takes result state.new (with_export (begun state.old) n (map (λ word. word.now) rest.now)) }
{
    let file = one_name(rest)?;
    if is_named(state, file) {
        return Err(LineRefusal::Fault(ScriptFault::SameExport));
    }
    put_word(&mut state.exported, file)?;
    let file = copy_of(alloc, file)?;
    let call = Call::Export { file };
    put_call(&mut state.body, n, call)?;
    Ok(())
}

#[tactic(auto, unfolding(crate::specs::ScriptText::with_known))]
fn take_known<'a>(
    alloc: Global,
    state: &mut State<'a>,
    n: u32,
    first: &[u8],
    rest: &[&'a [u8]],
) -> Result<(), LineRefusal>
    requires keeps { Keeps state.old }
    requires formatted { is_some state.old.format ≡ true }
    ensures { Takes result state.new (with_known (begun state.old) n first.now (map (λ word. word.now) rest.now)) }
{
    if first == b"edl".as_slice() {
        take_edl(alloc, state, n, rest)?;
    } else if first == b"export".as_slice() {
        take_export(alloc, state, n, rest)?;
    } else {
        take_other(alloc, state, n, first, rest)?;
    }
    Ok(())
}

#[tactic(auto, unfolding(crate::specs::ScriptText::with_call))]
fn take_call<'a>(
    alloc: Global,
    state: &mut State<'a>,
    n: u32,
    first: &[u8],
    rest: &[&'a [u8]],
) -> Result<(), LineRefusal>
    requires { Keeps state.old }
    ensures { Takes result state.new (with_call (begun state.old) n first.now (map (λ word. word.now) rest.now)) }
{
    if !is_call_name(first) {
        return Err(LineRefusal::Fault(ScriptFault::Word));
    }
    if state.format.is_none() {
        return Err(LineRefusal::Fault(ScriptFault::Order));
    }
    take_known(alloc, state, n, first, rest)?;
    Ok(())
}

#[tactic(auto, unfolding(crate::specs::ScriptText::with_words))]
fn take_words<'a>(
    alloc: Global,
    state: &mut State<'a>,
    n: u32,
    first: &[u8],
    rest: &[&'a [u8]],
) -> Result<(), LineRefusal>
    requires keeps { Keeps state.old }
    requires room { has_room (begun state.old) first.now ≡ true }
    ensures { Takes result state.new (with_words (begun state.old) n first.now (map (λ word. word.now) rest.now)) }
{
    if first == b"rate".as_slice() {
        take_rate(state, rest)?;
    } else if first == b"clip".as_slice() {
        take_clip(alloc, state, n, rest)?;
    } else if first == b"format".as_slice() {
        take_format(alloc, state, rest)?;
    } else {
        take_call(alloc, state, n, first, rest)?;
    }
    Ok(())
}

fn has_room(state: &State<'_>, first: &[u8]) -> bool
    ensures { result ≡ has_room (begun state.now) first.now }
{
    !(first == b"clip".as_slice() && MAX_CLIPS as usize <= state.clips.len())
}

#[tactic(auto, unfolding(crate::specs::ScriptText::with_split))]
fn take_split<'a>(
    alloc: Global,
    state: &mut State<'a>,
    n: u32,
    line: &[u8],
    words: &[&'a [u8]],
) -> Result<(), LineRefusal>
    requires { Keeps state.old }
    ensures { Takes result state.new (with_split (begun state.old) n line.now (map (λ word. word.now) words.now)) }
{
    let [first, rest @ ..] = words else {
        return Ok(());
    };
    if !has_room(state, first) {
        return Err(LineRefusal::Fault(ScriptFault::Limit));
    }
    if !is_text(line) {
        return Err(LineRefusal::Fault(ScriptFault::Utf8));
    }
    take_words(alloc, state, n, first, rest)?;
    Ok(())
}

fn is_comment(line: &[u8]) -> bool
    ensures { result ≡ is_comment line.now }
{
    match line {
        [byte, ..] => *byte == b'#',
        [] => false,
    }
}

/// Takes line `n`.
#[tactic(auto, unfolding(crate::specs::ScriptText::with_line))]
fn take_line<'a>(
    alloc: Global,
    state: &mut State<'a>,
    n: u32,
    line: &'a [u8],
) -> Result<(), LineRefusal>
    requires { Keeps state.old }
    ensures taken { Takes result state.new (with_line (begun state.old) n line.now) }
    ensures few { OnOk result (n ≤ max_lines) }
{
    if n > MAX_LINES {
        return Err(LineRefusal::Fault(ScriptFault::Limit));
    }
    if is_comment(line) {
        return Ok(());
    }
    let words = words(alloc, Blanks::SpaceTabReturn, line)?;
    take_split(alloc, state, n, line, &words)?;
    Ok(())
}

/// What ends before line `n`.
#[tactic(auto, unfolding(crate::specs::ScriptText::ended))]
fn ended(state: State<'_>, n: u32) -> Result<Script, ScriptRefusal>
    requires { Keeps state }
    ensures sound { IfOk result IsScript }
    ensures exact { result ≡ ended (begun state.entry) n state.entry.rate state.entry.format }
{
    let State {
        rate,
        clips,
        format,
        body,
        names: _,
        read: _,
        exported: _,
    } = state;
    match (rate, format) {
        (Some(rate), Some(format)) => Ok(Script {
            rate,
            clips: ClipLines::from_vec(clips),
            format,
            body: BodyLines::from_vec(body),
        }),
        _ => Err(ScriptRefusal::Fault {
            n,
            why: ScriptFault::Order,
        }),
    }
}

/// The script that a text is, in time linear in its bytes. Else its first faulty line and, of that line's faults, the first in the order
/// of `ScriptFault`.
#[tactic(auto, unfolding(crate::specs::ScriptText::script_from))]
pub fn read_script(alloc: Global, text: &[u8]) -> Result<Script, ScriptRefusal>
    ensures exact { Gives result (script text.now) }
    ensures sound { IfOk result IsScript }
{
    let mut state = empty_state(alloc);
    let mut n = 0;
    let mut left = text;
    while let Some((line, rest)) = next_line(left) {
        n += 1;
        match take_line(alloc, &mut state, n, line) {
            Ok(()) => {}
            Err(LineRefusal::Fault(why)) => return Err(ScriptRefusal::Fault { n, why }),
            Err(LineRefusal::NoMemory) => return Err(ScriptRefusal::NoMemory),
        }
        left = rest;
    }
    ended(state, n + 1)
}
