//! The lines of a script's body but for those that name a file.

ghost use Rattle.std.specs.Prelude.{◌≡◌, ◌≤◌, map, codes, IfOk};
ghost use Rattle.script_lang.specs.Line.{is_one_of};
ghost use Rattle.script_lang.specs.Fields.{Reads, Answers};
ghost use Rattle.script_lang.specs.Calls.{call_names, span_of, piece_of, relink_of, no_words, journal_call, view_call, place_call, call_of};

use crate::fields::{
    LineRefusal, is_one_of, one_number, owned_name, pair_of, place_by, two_numbers, whole,
};
use crate::script::{Call, ScriptFault};
use std::alloc::Global;
use tl_model::Name;

/// The first word of each line of a body.
#[rattlefmt::skip]
const CALL_NAMES: [&str; 20] = [
    "insert", "overwrite", "extract", "lift", "split", "trimin", "trimout", "slip", "dissolve", "relink", "edl", "undo", "redo",
    "want", "cancel", "play", "show", "roll", "work", "export",
];

/// Whether a line of a body begins with a word.
pub fn is_call_name(word: &[u8]) -> bool
    ensures { result ≡ is_one_of call_names word.now }
{
    is_one_of(&CALL_NAMES, word)
}

/// Frames of a clip and their place.
#[derive(Drop)]
pub struct Piece {
    pub at: u32,
    pub name: Name,
    pub first: u32,
    pub len: u32,
}

/// A place, a first frame, and a length.
#[tactic(auto, unfolding(crate::specs::Calls::span_of))]
fn span_of(a: &[u8], b: &[u8], c: &[u8]) -> Result<(u32, u32, u32), ScriptFault>
    ensures { result ≡ span_of a.now b.now c.now }
{
    let at = whole(0, a)?;
    let (first, len) = pair_of(1, b, c)?;
    Ok((at, first, len))
}

#[tactic(auto, unfolding(crate::specs::Calls::piece_of))]
fn piece_of(alloc: Global, words: &[&[u8]]) -> Result<Piece, LineRefusal>
    ensures { Reads (λ piece. piece) result (piece_of (map (λ word. word.now) words.now)) }
{
    let [a, word, b, c] = words else {
        return Err(LineRefusal::Fault(ScriptFault::Count));
    };
    let (at, first, len) = span_of(a, b, c)?;
    let name = owned_name(alloc, word)?;
    Ok(Piece {
        at,
        name,
        first,
        len,
    })
}

#[tactic(auto, unfolding(crate::specs::Calls::relink_of))]
fn relink_of(alloc: Global, words: &[&[u8]]) -> Result<Call, LineRefusal>
    ensures { Reads (λ call. call) result (relink_of (map (λ word. word.now) words.now)) }
{
    let [a, word, b] = words else {
        return Err(LineRefusal::Fault(ScriptFault::Count));
    };
    let (at, first) = pair_of(0, a, b)?;
    let name = owned_name(alloc, word)?;
    Ok(Call::Relink { at, name, first })
}

/// Nothing follows the first word.
fn no_words(words: &[&[u8]]) -> Result<(), ScriptFault>
    ensures { Answers (λ _. tt) result (no_words (map (λ word. word.now) words.now)) }
{
    match words {
        [] => Ok(()),
        _ => Err(ScriptFault::Count),
    }
}

#[tactic(auto, unfolding(crate::specs::Calls::journal_call))]
fn journal_call(first: &[u8], rest: &[&[u8]]) -> Result<Call, ScriptFault>
    ensures { result ≡ journal_call first.now (map (λ word. word.now) rest.now) }
{
    if first == b"undo".as_slice() {
        no_words(rest)?;
        Ok(Call::Undo)
    } else if first == b"redo".as_slice() {
        no_words(rest)?;
        Ok(Call::Redo)
    } else if first == b"work".as_slice() {
        let turns = one_number(1, rest)?;
        Ok(Call::Work { turns })
    } else {
        Err(ScriptFault::Word)
    }
}

#[tactic(auto, unfolding(crate::specs::Calls::view_call))]
fn view_call(first: &[u8], rest: &[&[u8]]) -> Result<Call, ScriptFault>
    ensures { result ≡ view_call first.now (map (λ word. word.now) rest.now) }
{
    if first == b"play".as_slice() {
        let n = one_number(0, rest)?;
        Ok(Call::Play { n })
    } else if first == b"show".as_slice() {
        let n = one_number(0, rest)?;
        Ok(Call::Show { n })
    } else if first == b"roll".as_slice() {
        let (first, len) = two_numbers(1, rest)?;
        Ok(Call::Roll { first, len })
    } else if first == b"want".as_slice() {
        let (first, len) = two_numbers(1, rest)?;
        Ok(Call::Want { first, len })
    } else if first == b"cancel".as_slice() {
        let (first, len) = two_numbers(1, rest)?;
        Ok(Call::Cancel { first, len })
    } else {
        journal_call(first, rest)
    }
}

#[tactic(auto, unfolding(crate::specs::Calls::place_call))]
fn place_call(alloc: Global, first: &[u8], rest: &[&[u8]]) -> Result<Call, LineRefusal>
    ensures { Reads (λ call. call) result (place_call first.now (map (λ word. word.now) rest.now)) }
{
    if first == b"split".as_slice() {
        let at = one_number(0, rest)?;
        Ok(Call::Split { at })
    } else if first == b"trimin".as_slice() {
        let (at, by) = place_by(rest)?;
        Ok(Call::TrimIn { at, by })
    } else if first == b"trimout".as_slice() {
        let (at, by) = place_by(rest)?;
        Ok(Call::TrimOut { at, by })
    } else if first == b"slip".as_slice() {
        let (at, by) = place_by(rest)?;
        Ok(Call::Slip { at, by })
    } else if first == b"relink".as_slice() {
        let call = relink_of(alloc, rest)?;
        Ok(call)
    } else {
        let call = view_call(first, rest)?;
        Ok(call)
    }
}

/// What a line of a body says by its words, but for `edl` and `export`.
#[tactic(auto, unfolding(crate::specs::Calls::call_of))]
pub fn call_of(alloc: Global, first: &[u8], rest: &[&[u8]]) -> Result<Call, LineRefusal>
    ensures { Reads (λ call. call) result (call_of first.now (map (λ word. word.now) rest.now)) }
{
    if first == b"insert".as_slice() {
        let Piece {
            at,
            name,
            first,
            len,
        } = piece_of(alloc, rest)?;
        Ok(Call::Insert {
            at,
            name,
            first,
            len,
        })
    } else if first == b"overwrite".as_slice() {
        let Piece {
            at,
            name,
            first,
            len,
        } = piece_of(alloc, rest)?;
        Ok(Call::Overwrite {
            at,
            name,
            first,
            len,
        })
    } else if first == b"extract".as_slice() {
        let (at, len) = two_numbers(1, rest)?;
        Ok(Call::Extract { at, len })
    } else if first == b"lift".as_slice() {
        let (at, len) = two_numbers(1, rest)?;
        Ok(Call::Lift { at, len })
    } else if first == b"dissolve".as_slice() {
        let (at, len) = two_numbers(0, rest)?;
        Ok(Call::Dissolve { at, len })
    } else {
        let call = place_call(alloc, first, rest)?;
        Ok(call)
    }
}
