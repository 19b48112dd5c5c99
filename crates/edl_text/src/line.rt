//! The line table of an edit list.

ghost use Rattle.std.specs.Prelude.{◌≡◌, map, length, drop, take, true, false, MatchOption};
ghost use Rattle.std.specs.List.{list_any};
ghost use Rattle.std.specs.Str.{bytes_eq};
ghost use Rattle.tl_limits.specs.Limits.{IsRate};
ghost use Rattle.edl_text.specs.Line.{begins, has_semicolon, time_of, span_of, times_at, times_of, edit_with, dissolve_of, edit_of, is_video, event_of, begins_with_digit, words_row, marked_row, keyword_row, rest_of, counting_row, row_with, Says};

use crate::fault::EdlWhy;
use crate::row::{Edit, Row, Shown, Times};
use text_words::{Blanks, is_text, number, text, timecode, trim};

fn has_semicolon(word: &[u8]) -> bool
    ensures { result ≡ has_semicolon word.now }
{
    word.iter().any(|byte| *byte == b';')
}

#[tactic(auto, unfolding(crate::specs::Line::time_of))]
fn time_of(rate: u32, word: &[u8]) -> Result<u32, EdlWhy>
    requires { IsRate rate }
    ensures { result ≡ time_of rate word.now }
{
    if has_semicolon(word) {
        Err(EdlWhy::Drop)
    } else {
        timecode(rate, word).ok_or(EdlWhy::Timecode)
    }
}

#[tactic(auto, unfolding(crate::specs::Line::span_of))]
fn span_of(rate: u32, first: &[u8], last: &[u8]) -> Result<(u32, u32), EdlWhy>
    requires { IsRate rate }
    ensures { result ≡ span_of rate first.now last.now }
{
    let start = time_of(rate, first)?;
    let end = time_of(rate, last)?;
    Ok((start, end))
}

/// The times of a source and of its place in the record.
fn times_at(
    source: Result<(u32, u32), EdlWhy>,
    placed: Result<(u32, u32), EdlWhy>,
) -> Result<Times, EdlWhy>
    ensures { result ≡ times_at source placed }
{
    let (source_in, source_out) = source?;
    let (record_in, record_out) = placed?;
    Ok(Times {
        source_in,
        source_out,
        record_in,
        record_out,
    })
}

#[tactic(auto, unfolding(crate::specs::Line::times_of))]
fn times_of(rate: u32, words: &[&[u8]]) -> Result<Times, EdlWhy>
    requires { IsRate rate }
    ensures { result ≡ times_of rate (map (λ word. word.now) words.now) }
{
    match words {
        [a, b, c, d] => times_at(span_of(rate, a, b), span_of(rate, c, d)),
        _ => Err(EdlWhy::Unknown),
    }
}

#[tactic(auto, unfolding(crate::specs::Line::edit_with))]
fn edit_with(rate: u32, duration: Option<u32>, words: &[&[u8]]) -> Result<Edit, EdlWhy>
    requires { IsRate rate }
    ensures { result ≡ edit_with rate duration (map (λ word. word.now) words.now) }
{
    let times = times_of(rate, words)?;
    Ok(Edit { duration, times })
}

#[tactic(auto, unfolding(crate::specs::Line::dissolve_of))]
fn dissolve_of(rate: u32, words: &[&[u8]]) -> Result<Edit, EdlWhy>
    requires { IsRate rate }
    ensures { result ≡ dissolve_of rate (map (λ word. word.now) words.now) }
{
    let [duration, more @ ..] = words else {
        return Err(EdlWhy::Unknown);
    };
    let frames = number(3, 0, 999, duration).ok_or(EdlWhy::Unknown)?;
    edit_with(rate, Some(frames), more)
}

/// Whether the bytes begin with a keyword.
fn begins(bytes: &[u8], keyword: &[u8]) -> bool
    ensures { result ≡ begins bytes.now keyword.now }
{
    bytes.strip_prefix(keyword).is_some()
}

#[tactic(auto, unfolding(crate::specs::Line::edit_of))]
fn edit_of(rate: u32, words: &[&[u8]]) -> Result<Edit, EdlWhy>
    requires { IsRate rate }
    ensures { result ≡ edit_of rate (map (λ word. word.now) words.now) }
{
    let [kind, more @ ..] = words else {
        return Err(EdlWhy::Unknown);
    };
    if *kind == b"C".as_slice() {
        edit_with(rate, None, more)
    } else if *kind == b"D".as_slice() {
        dissolve_of(rate, more)
    } else if begins(kind, b"W") {
        Err(EdlWhy::Wipe)
    } else if begins(kind, b"K") {
        Err(EdlWhy::Key)
    } else {
        Err(EdlWhy::Unknown)
    }
}

fn is_video(channel: &[u8]) -> bool
    ensures { result ≡ is_video channel.now }
{
    channel == b"V".as_slice()
        || channel == b"B".as_slice()
        || channel.strip_suffix(b"/V").is_some()
}

#[tactic(auto, unfolding(crate::specs::Line::event_of))]
fn event_of<'a>(rate: u32, words: &[&'a [u8]]) -> Result<Row<'a>, EdlWhy>
    requires { IsRate rate }
    ensures { Says result (event_of rate (map (λ word. word.now) words.now)) }
{
    let [digits, reel, channel, more @ ..] = words else {
        return Err(EdlWhy::Unknown);
    };
    let number = number(6, 0, 999_999, digits).ok_or(EdlWhy::Unknown)?;
    let reel = text(reel).ok_or(EdlWhy::Unknown)?;
    let edit = edit_of(rate, more)?;
    if is_video(channel) {
        Ok(Row::Video(Shown { number, reel, edit }))
    } else {
        Ok(Row::Other { number })
    }
}

fn begins_with_digit(word: &[u8]) -> bool
    ensures { result ≡ begins_with_digit word.now }
{
    match word {
        [byte, ..] => byte.is_ascii_digit(),
        [] => false,
    }
}

#[tactic(auto, unfolding(crate::specs::Line::words_row))]
fn words_row<'a>(rate: u32, words: &[&'a [u8]]) -> Result<Row<'a>, EdlWhy>
    requires { IsRate rate }
    ensures { Says result (words_row rate (map (λ word. word.now) words.now)) }
{
    match words {
        [first, ..] if begins_with_digit(first) => event_of(rate, words),
        _ => Ok(Row::Passed),
    }
}

#[tactic(auto, unfolding(crate::specs::Line::marked_row))]
fn marked_row<'a>(rate: u32, line: &[u8], words: &[&'a [u8]]) -> Result<Row<'a>, EdlWhy>
    requires { IsRate rate }
    ensures { Says result (marked_row rate line.now (map (λ word. word.now) words.now)) }
{
    if begins(line, b"*") {
        Ok(Row::Passed)
    } else if begins(line, b"AUD") {
        Ok(Row::Passed)
    } else if begins(line, b"M2") {
        Err(EdlWhy::Speed)
    } else {
        words_row(rate, words)
    }
}

/// What follows a keyword that the line begins with, trimmed.
fn rest_of<'a>(keyword: &[u8], line: &'a [u8]) -> Option<&'a [u8]>
    ensures { MatchOption result (begins line.now keyword.now ≡ false)
        (λ x. (begins line.now keyword.now ≡ true) × (x.now ≡ rest_of keyword.now line.now)) }
{
    match line.strip_prefix(keyword) {
        Some(rest) => Some(trim(Blanks::SpaceTab, rest)),
        None => None,
    }
}

fn counting_row<'a>(mode: &[u8]) -> Result<Row<'a>, EdlWhy>
    ensures { Says result (counting_row mode.now) }
{
    if mode == b"DROP FRAME".as_slice() {
        Err(EdlWhy::Drop)
    } else {
        Ok(Row::Passed)
    }
}

#[tactic(auto, unfolding(crate::specs::Line::keyword_row))]
fn keyword_row<'a>(rate: u32, line: &'a [u8], words: &[&'a [u8]]) -> Result<Row<'a>, EdlWhy>
    requires { IsRate rate }
    ensures { Says result (keyword_row rate line.now (map (λ word. word.now) words.now)) }
{
    if let Some(title) = rest_of(b"TITLE:", line) {
        let text = text(title).ok_or(EdlWhy::Unknown)?;
        Ok(Row::Title { text })
    } else if let Some(mode) = rest_of(b"FCM:", line) {
        counting_row(mode)
    } else if let Some(name) = rest_of(b"* FROM CLIP NAME:", line) {
        let text = text(name).ok_or(EdlWhy::Unknown)?;
        Ok(Row::From { text })
    } else if let Some(name) = rest_of(b"* TO CLIP NAME:", line) {
        let text = text(name).ok_or(EdlWhy::Unknown)?;
        Ok(Row::To { text })
    } else {
        marked_row(rate, line, words)
    }
}

/// What a line with these words says, or its fault.
pub fn row_of<'a>(rate: u32, line: &'a [u8], words: &[&'a [u8]]) -> Result<Row<'a>, EdlWhy>
    requires { IsRate rate }
    ensures { Says result (row_with rate line.now (map (λ word. word.now) words.now)) }
{
    if is_text(line) {
        keyword_row(rate, line, words)
    } else {
        Err(EdlWhy::Unknown)
    }
}
