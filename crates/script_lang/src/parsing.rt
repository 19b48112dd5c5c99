//! The line that words are those of.

ghost use Rattle.std.specs.Prelude.{◌≡◌, ◌∷◌, map, fold, codes, Some, option_map, if◌then◌else◌};
ghost use Rattle.text_words.specs.Blanks.{text};
ghost use Rattle.script_lang.specs.Parsed.{Finds, FindsName, next_value, long_number, number, counted, two, ended, three, ended_at, four, five, seven, parsed};
ghost use Rattle.script_lang.specs.declared.parsing.Unread.TheVariants.{NoMemory};

use crate::out_line::OutLine;
use std::alloc::{AllocError, Global};
use text_words::text;
use tl_model::Name;

/// Why words aren't read.
#[derive(Clone, Copy)]
pub enum Unread {
    NoLine,
    NoMemory,
}

impl From<AllocError> for Unread {
    ghost from_gives = { λ _ e. e ≡ NoMemory };

    fn from(_: AllocError) -> Self {
        Unread::NoMemory
    }
}

fn next_value(value: Option<u64>, digit: u8) -> Option<u64>
    ensures { result ≡ next_value value digit }
{
    let value = value?;
    if digit.is_ascii_digit() {
        value
            .checked_mul(10)?
            .checked_add(u64::from(digit.saturating_sub(b'0')))
    } else {
        None
    }
}

/// A number of at most 64 bits.
#[tactic(auto, unfolding(crate::specs::Parsed::long_number))]
fn long_number(word: &[u8]) -> Option<u64>
    ensures { result ≡ long_number word.now }
{
    word.iter()
        .fold(Some(0), |value, digit| next_value(value, *digit))
}

/// A number of at most 32 bits.
#[tactic(auto, unfolding(crate::specs::Parsed::number))]
fn number(word: &[u8]) -> Option<u32>
    ensures { result ≡ number word.now }
{
    let n = long_number(word)?;
    u32::try_from(n).ok()
}

fn name(alloc: Global, word: &[u8]) -> Result<Name, Unread>
    ensures { FindsName result (text word.now) }
{
    match text(word) {
        Some(name) => Ok(Name::from_text(String::from_str(alloc, name)?)),
        None => Err(Unread::NoLine),
    }
}

#[tactic(auto, unfolding(crate::specs::Parsed::counted))]
fn counted(first: &[u8], n: u32) -> Option<OutLine>
    ensures { result ≡ counted first.now n }
{
    if first == b"ok".as_slice() {
        Some(OutLine::Ok { len: n })
    } else if first == b"wanted".as_slice() {
        Some(OutLine::Wanted { count: n })
    } else if first == b"cancelled".as_slice() {
        Some(OutLine::Cancelled { count: n })
    } else if first == b"past".as_slice() {
        Some(OutLine::Past { len: n })
    } else if first == b"frame".as_slice() {
        Some(OutLine::Frame { n })
    } else if first == b"pending".as_slice() {
        Some(OutLine::Pending { n })
    } else if first == b"worked".as_slice() {
        Some(OutLine::Worked { count: n })
    } else {
        None
    }
}

#[tactic(auto, unfolding(crate::specs::Parsed::two))]
fn two(alloc: Global, first: &[u8], a: &[u8]) -> Result<OutLine, Unread>
    ensures { Finds result (two first.now a.now) }
{
    if first == b"refused".as_slice() {
        let why = name(alloc, a)?;
        Ok(OutLine::Refused { why })
    } else if first == b"asked".as_slice() {
        let export = long_number(a).ok_or(Unread::NoLine)?;
        Ok(OutLine::Asked { export })
    } else if first == b"screen".as_slice() {
        Ok(OutLine::ScreenFailed)
    } else if first == b"no".as_slice() {
        Ok(OutLine::NoMemory)
    } else {
        let n = number(a).ok_or(Unread::NoLine)?;
        counted(first, n).ok_or(Unread::NoLine)
    }
}

#[tactic(auto, unfolding(crate::specs::Parsed::ended))]
fn ended(a: &[u8], b: &[u8]) -> Result<OutLine, Unread>
    ensures { Finds result (ended a.now b.now) }
{
    let export = long_number(a).ok_or(Unread::NoLine)?;
    if b == b"sink".as_slice() {
        Ok(OutLine::Sink { export })
    } else {
        Ok(OutLine::Memory { export })
    }
}

#[tactic(auto, unfolding(crate::specs::Parsed::three))]
fn three(alloc: Global, first: &[u8], a: &[u8], b: &[u8]) -> Result<OutLine, Unread>
    ensures { Finds result (three first.now a.now b.now) }
{
    if first == b"fault".as_slice() {
        let n = number(a).ok_or(Unread::NoLine)?;
        let kind = name(alloc, b)?;
        Ok(OutLine::Fault { n, kind })
    } else if first == b"store".as_slice() {
        let file = name(alloc, a)?;
        let kind = name(alloc, b)?;
        Ok(OutLine::Store { name: file, kind })
    } else {
        ended(a, b)
    }
}

#[tactic(auto, unfolding(crate::specs::Parsed::ended_at))]
fn ended_at(a: &[u8], b: &[u8], c: &[u8]) -> Result<OutLine, Unread>
    ensures { Finds result (ended_at a.now b.now c.now) }
{
    let export = long_number(a).ok_or(Unread::NoLine)?;
    let n = number(c).ok_or(Unread::NoLine)?;
    if b == b"done".as_slice() {
        Ok(OutLine::Done { export, frames: n })
    } else {
        Ok(OutLine::Long { export, at: n })
    }
}

#[tactic(auto, unfolding(crate::specs::Parsed::four))]
fn four(alloc: Global, first: &[u8], a: &[u8], b: &[u8], c: &[u8]) -> Result<OutLine, Unread>
    ensures { Finds result (four first.now a.now b.now c.now) }
{
    if first == b"edl".as_slice() {
        let n = number(b).ok_or(Unread::NoLine)?;
        let why = name(alloc, c)?;
        Ok(OutLine::EdlLine { n, why })
    } else if first == b"fault".as_slice() {
        let n = number(b).ok_or(Unread::NoLine)?;
        let why = name(alloc, c)?;
        Ok(OutLine::FaultLine { n, why })
    } else if first == b"journal".as_slice() {
        let len = long_number(b).ok_or(Unread::NoLine)?;
        let owed = long_number(c).ok_or(Unread::NoLine)?;
        Ok(OutLine::JournalFull { len, owed })
    } else {
        ended_at(a, b, c)
    }
}

#[tactic(auto, unfolding(crate::specs::Parsed::five))]
fn five(alloc: Global, a: &[u8], b: &[u8], c: &[u8]) -> Result<OutLine, Unread>
    ensures { Finds result (five a.now b.now c.now) }
{
    let n = number(a).ok_or(Unread::NoLine)?;
    let kind = name(alloc, c)?;
    if b == b"clip".as_slice() {
        Ok(OutLine::FaultClip { n, kind })
    } else {
        Ok(OutLine::FaultRecord { n, kind })
    }
}

#[tactic(auto, unfolding(crate::specs::Parsed::seven))]
fn seven(alloc: Global, a: &[u8], b: &[u8], c: &[u8], d: &[u8], e: &[u8]) -> Result<OutLine, Unread>
    ensures { Finds result (seven a.now b.now c.now d.now e.now) }
{
    let export = long_number(a).ok_or(Unread::NoLine)?;
    let at = number(b).ok_or(Unread::NoLine)?;
    let clip = name(alloc, c)?;
    let frame = number(d).ok_or(Unread::NoLine)?;
    let kind = name(alloc, e)?;
    Ok(OutLine::ExportFault {
        export,
        at,
        clip,
        frame,
        kind,
    })
}

/// The only line that these words can be the words of, if they are those of a line.
#[tactic(auto, unfolding(crate::specs::Parsed::parsed))]
pub fn parsed(alloc: Global, words: &[&[u8]]) -> Result<OutLine, Unread>
    ensures { Finds result (parsed (map (λ word. word.now) words.now)) }
{
    match words {
        [first, a] => two(alloc, first, a),
        [first, a, b] => three(alloc, first, a, b),
        [first, a, b, c] => four(alloc, first, a, b, c),
        [_, _, a, b, c] => five(alloc, a, b, c),
        [_, a, _, b, c, d, e] => seven(alloc, a, b, c, d, e),
        [_, _, _, _, _, _, _, _, _] => Ok(OutLine::Usage),
        _ => Err(Unread::NoLine),
    }
}
