//! Words, which blanks part.

ghost use Rattle.std.specs.Prelude.{◌≡◌, map, IfOk, Some, option_map, if◌then◌else◌};
ghost use Rattle.std.specs.Str.{is_utf8};
ghost use Rattle.std.specs.List.{slice_split};
ghost use Rattle.text_words.specs.Blanks.{is_blank, words, without_leading, without_trailing, trimmed, text};

use std::alloc::{AllocError, Global};

/// What parts words: space and tab alone, as in edit lists, or a carriage return too, as in scripts.
#[derive(Clone, Copy, Debug, PartialEq, Eq)]
pub enum Blanks {
    SpaceTab,
    SpaceTabReturn,
}

fn is_blank(blanks: Blanks, byte: u8) -> bool
    ensures { result ≡ is_blank blanks byte }
{
    match blanks {
        Blanks::SpaceTab => byte == b' ' || byte == b'\t',
        Blanks::SpaceTabReturn => byte == b' ' || byte == b'\t' || byte == b'\r',
    }
}

/// What stands between the blanks of a line.
fn pieces<'a>(alloc: Global, blanks: Blanks, line: &'a [u8]) -> Result<Vec<&'a [u8]>, AllocError>
    ensures { IfOk result (λ v. map (λ piece. piece.now) v.items ≡ slice_split (is_blank blanks) line.now) }
{
    line.split(|byte| is_blank(blanks, *byte)).collect(alloc)
}

/// The words of a line.
#[tactic(auto, unfolding(crate::specs::Blanks::words))]
pub fn words<'a>(alloc: Global, blanks: Blanks, line: &'a [u8]) -> Result<Vec<&'a [u8]>, AllocError>
    ensures { IfOk result (λ v. map (λ word. word.now) v.items ≡ words blanks line.now) }
{
    let pieces = pieces(alloc, blanks, line)?;
    let mut words = Vec::new(alloc);
    for piece in &pieces {
        if !piece.is_empty() {
            words.push(*piece)?;
        }
    }
    Ok(words)
}

/// A text without the blanks at its ends.
pub fn trim(blanks: Blanks, text: &[u8]) -> &[u8]
    ensures { result.now ≡ trimmed blanks text.now }
{
    without_trailing(blanks, without_leading(blanks, text))
}

#[tactic(auto, unfolding(crate::specs::Blanks::without_leading))]
fn without_leading(blanks: Blanks, text: &[u8]) -> &[u8]
    ensures { result.now ≡ without_leading blanks text.now }
{
    let mut kept = text;
    while let [byte, rest @ ..] = kept {
        if !is_blank(blanks, *byte) {
            break;
        }
        kept = rest;
    }
    kept
}

#[tactic(auto, unfolding(crate::specs::Blanks::without_trailing))]
fn without_trailing(blanks: Blanks, text: &[u8]) -> &[u8]
    ensures { result.now ≡ without_trailing blanks text.now }
{
    let mut kept = text;
    while let [rest @ .., byte] = kept {
        if !is_blank(blanks, *byte) {
            break;
        }
        kept = rest;
    }
    kept
}

/// Whether the bytes are UTF-8.
pub fn is_text(bytes: &[u8]) -> bool
    ensures { result ≡ is_utf8 bytes.now }
{
    std::str::from_utf8(bytes).is_ok()
}

/// The bytes as text, where they are UTF-8.
pub fn text(bytes: &[u8]) -> Option<&str>
    ensures { option_map (λ x. x.now) result ≡ text bytes.now }
{
    match std::str::from_utf8(bytes) {
        Ok(text) => Some(text),
        Err(_) => None,
    }
}
