//! Lines of words: what a word is put from, and whole lines.

ghost use Rattle.std.specs.Prelude.{◌≡◌, [], ◌∷◌, ◌++◌, map, flat_map, decimal, OnOk, OnErr};
ghost use Rattle.text_words.specs.Number.{Extends};
ghost use Rattle.script_lang.specs.Line.{joined};
ghost use Rattle.script_lang.specs.Word.{spelled, shape_words};
ghost use Rattle.script_lang.specs.Writing.{digits, signed_digits};

use itoa::Buffer;
use std::alloc::AllocError;
use text_words::put_number;
use tl_model::Name;

/// What a word of a line is put from.
#[derive(Clone, Copy)]
pub enum Word<'a> {
    Text(&'a str),
    Number(u64),
    /// A number of a script.
    Digits(u32),
    Signed(i32),
}

/// A line: what it begins with, and the words after that.
#[derive(Clone, Copy)]
pub enum Shape<'a> {
    Plain(&'static str),
    One(&'static str, Word<'a>),
    Two(&'static str, Word<'a>, Word<'a>),
    Three(&'static str, Word<'a>, Word<'a>, Word<'a>),
    Four(&'static str, Word<'a>, Word<'a>, Word<'a>, Word<'a>),
    Six(&'static str, Word<'a>, Word<'a>, Word<'a>, Word<'a>, Word<'a>, Word<'a>),
}

pub fn name(name: &Name) -> Word<'_>
    ensures { spelled result ≡ name.now }
{
    Word::Text(name.as_str())
}

fn put_long(into: &mut Vec<u8>, number: u64) -> Result<(), AllocError>
    ensures ok { OnOk result (into.new.items ≡ into.old.items ++ decimal number) }
    ensures err { OnErr result (Extends into.old.items into.new.items) }
{
    let mut buffer = Buffer::new();
    into.extend_from_slice(buffer.format(number).as_bytes())?;
    Ok(())
}

/// Puts a number after a minus.
fn put_negative(into: &mut Vec<u8>, size: u32) -> Result<(), AllocError>
    ensures ok { OnOk result (into.new.items ≡ into.old.items ++ 45 ∷ digits size) }
    ensures err { OnErr result (Extends into.old.items into.new.items) }
{
    into.push(b'-')?;
    put_number(into, 1, size)?;
    Ok(())
}

fn put_signed(into: &mut Vec<u8>, by: i32) -> Result<(), AllocError>
    ensures ok { OnOk result (into.new.items ≡ into.old.items ++ signed_digits by) }
    ensures err { OnErr result (Extends into.old.items into.new.items) }
{
    if by < 0 {
        put_negative(into, by.unsigned_abs())?;
    } else {
        put_number(into, 1, by.unsigned_abs())?;
    }
    Ok(())
}

/// Puts a word at the end. After a refusal the list begins as before.
fn put_word(into: &mut Vec<u8>, word: Word<'_>) -> Result<(), AllocError>
    ensures ok { OnOk result (into.new.items ≡ into.old.items ++ spelled word.entry) }
    ensures err { OnErr result (Extends into.old.items into.new.items) }
{
    match word {
        Word::Text(text) => into.extend_from_slice(text.as_bytes())?,
        Word::Number(number) => put_long(into, number)?,
        Word::Digits(number) => put_number(into, 1, number)?,
        Word::Signed(by) => put_signed(into, by)?,
    }
    Ok(())
}

/// Puts words at the end, each after a blank.
fn put_more(into: &mut Vec<u8>, words: &[Word<'_>]) -> Result<(), AllocError>
    ensures ok { OnOk result (into.new.items ≡ into.old.items ++ flat_map (λ word. 32 ∷ spelled word) words.now) }
    ensures err { OnErr result (Extends into.old.items into.new.items) }
{
    for word in words {
        into.push(b' ')?;
        put_word(into, *word)?;
    }
    Ok(())
}

/// Puts a line of these words at the end.
#[tactic(auto, unfolding(crate::specs::Line::joined), using(std::proofs::Common::append_assoc, crate::proofs::Spelling::more_spelled))]
fn put_words(into: &mut Vec<u8>, first: &str, more: &[Word<'_>]) -> Result<(), AllocError>
    ensures ok { OnOk result (into.new.items ≡ into.old.items ++ (joined (first.now ∷ map spelled more.now) ++ 10 ∷ [])) }
    ensures err { OnErr result (Extends into.old.items into.new.items) }
{
    into.extend_from_slice(first.as_bytes())?;
    put_more(into, more)?;
    into.push(b'\n')?;
    Ok(())
}

/// Puts a line at the end.
pub fn put_shape(into: &mut Vec<u8>, shape: Shape<'_>) -> Result<(), AllocError>
    ensures ok { OnOk result (into.new.items ≡ into.old.items ++ (joined (shape_words shape.entry) ++ 10 ∷ [])) }
    ensures err { OnErr result (Extends into.old.items into.new.items) }
{
    match shape {
        Shape::Plain(text) => put_words(into, text, &[])?,
        Shape::One(first, a) => put_words(into, first, &[a])?,
        Shape::Two(first, a, b) => put_words(into, first, &[a, b])?,
        Shape::Three(first, a, b, c) => put_words(into, first, &[a, b, c])?,
        Shape::Four(first, a, b, c, d) => put_words(into, first, &[a, b, c, d])?,
        Shape::Six(first, a, b, c, d, e, f) => put_words(into, first, &[a, b, c, d, e, f])?,
    }
    Ok(())
}
