//! Words of a script's line: numbers and names.

ghost use Rattle.std.specs.Prelude.{◌≡◌, ◌≤◌, ◌<◌, ◌^◌, map, IfOk};
ghost use Rattle.std.specs.List.{list_any};
ghost use Rattle.std.specs.Str.{bytes_eq};
ghost use Rattle.tl_limits.specs.Limits.{max_frames};
ghost use Rattle.script_lang.specs.Fields.{within, whole, signed, name_of, one_number, pair_of, two_numbers, place_by, one_name, Answers, Reads};
ghost use Rattle.script_lang.specs.declared.fields.LineRefusal.TheVariants.{Fault, NoMemory};

use crate::script::ScriptFault;
use std::alloc::{AllocError, AllocFailed, Global};
use text_words::{number, signed_number, text};
use tl_limits::MAX_FRAMES;
use tl_model::Name;

/// Why a line isn't taken.
#[derive(Clone, Copy)]
pub enum LineRefusal {
    Fault(ScriptFault),
    NoMemory,
}

impl From<AllocError> for LineRefusal {
    ghost from_gives = { λ _ e. e ≡ NoMemory };

    fn from(_: AllocError) -> Self {
        LineRefusal::NoMemory
    }
}

impl From<ScriptFault> for LineRefusal {
    ghost from_gives = { λ why e. e ≡ Fault why };

    fn from(why: ScriptFault) -> Self {
        LineRefusal::Fault(why)
    }
}

/// Whether a word is one of a list.
pub fn is_one_of(words: &[&str], word: &[u8]) -> bool
    ensures { result ≡ list_any (λ other. bytes_eq other.now word.now) words.now }
{
    words.iter().any(|other| other.as_bytes() == word)
}

/// A number of at most 7 digits in a range.
#[tactic(auto, unfolding(crate::specs::Fields::within))]
pub fn within(low: u32, high: u32, word: &[u8]) -> Result<u32, ScriptFault>
    ensures exact { result ≡ within low high word.now }
    ensures bounds { IfOk result (λ n. (low ≤ n) × (n ≤ high)) }
{
    number(7, low, high, word).ok_or(ScriptFault::Number)
}

/// The same to 1,000,000.
pub fn whole(low: u32, word: &[u8]) -> Result<u32, ScriptFault>
    ensures exact { result ≡ whole low word.now }
    ensures bounds { IfOk result (λ n. (low ≤ n) × (n ≤ max_frames)) }
{
    within(low, MAX_FRAMES, word)
}

#[tactic(auto, unfolding(crate::specs::Fields::signed))]
fn signed(word: &[u8]) -> Result<i32, ScriptFault>
    ensures { result ≡ signed word.now }
{
    signed_number(7, MAX_FRAMES, word).ok_or(ScriptFault::Number)
}

/// A word as text.
#[tactic(auto, unfolding(crate::specs::Fields::name_of))]
pub fn name_of(word: &[u8]) -> Result<&str, ScriptFault>
    ensures { Answers (λ name. name.now) result (name_of word.now) }
{
    text(word).ok_or(ScriptFault::Utf8)
}

#[tactic(auto, unfolding(crate::specs::Fields::one_name))]
pub fn one_name<'a>(words: &[&'a [u8]]) -> Result<&'a str, ScriptFault>
    ensures { Answers (λ name. name.now) result (one_name (map (λ word. word.now) words.now)) }
{
    match words {
        [a] => name_of(a),
        _ => Err(ScriptFault::Count),
    }
}

/// A text as a name.
pub fn copy_of(alloc: Global, text: &str) -> Result<Name, AllocError>
    ensures { IfOk result (λ name. name ≡ text.now) }
{
    Ok(Name::from_text(String::from_str(alloc, text)?))
}

/// A word as a name.
pub fn owned_name(alloc: Global, word: &[u8]) -> Result<Name, LineRefusal>
    ensures { Reads (λ name. name) result (name_of word.now) }
{
    let text = name_of(word)?;
    Ok(copy_of(alloc, text)?)
}

#[tactic(auto, unfolding(crate::specs::Fields::one_number))]
pub fn one_number(low: u32, words: &[&[u8]]) -> Result<u32, ScriptFault>
    ensures { result ≡ one_number low (map (λ word. word.now) words.now) }
{
    match words {
        [a] => whole(low, a),
        _ => Err(ScriptFault::Count),
    }
}

/// A place, and a number of at least `low`.
#[tactic(auto, unfolding(crate::specs::Fields::pair_of))]
pub fn pair_of(low: u32, a: &[u8], b: &[u8]) -> Result<(u32, u32), ScriptFault>
    ensures exact { result ≡ pair_of low a.now b.now }
    ensures bounds { IfOk result (λ x. (x.0 ≤ max_frames) × ((low ≤ x.1) × (x.1 ≤ max_frames))) }
{
    let at = whole(0, a)?;
    let n = whole(low, b)?;
    Ok((at, n))
}

/// The same as two words.
#[tactic(auto, unfolding(crate::specs::Fields::two_numbers))]
pub fn two_numbers(low: u32, words: &[&[u8]]) -> Result<(u32, u32), ScriptFault>
    ensures { result ≡ two_numbers low (map (λ word. word.now) words.now) }
{
    match words {
        [a, b] => pair_of(low, a, b),
        _ => Err(ScriptFault::Count),
    }
}

/// A place, and by how much.
#[tactic(auto, unfolding(crate::specs::Fields::place_by))]
pub fn place_by(words: &[&[u8]]) -> Result<(u32, i32), ScriptFault>
    ensures { result ≡ place_by (map (λ word. word.now) words.now) }
{
    match words {
        [a, b] => {
            let at = whole(0, a)?;
            let by = signed(b)?;
            Ok((at, by))
        }
        _ => Err(ScriptFault::Count),
    }
}
