//! Writing a script.

ghost use Rattle.std.specs.Prelude.{◌≡◌, [], ◌∷◌, ◌++◌, ◌<◌, flat_map, codes, IfOk, OnOk};
ghost use Rattle.tl_limits.specs.Limits.{IsRate};
ghost use Rattle.text_words.specs.Timecode.{timecode_text};
ghost use Rattle.script_lang.specs.Line.{joined};
ghost use Rattle.script_lang.specs.Word.{shape_words};
ghost use Rattle.script_lang.specs.Writing.{digits, call_words, chroma_word, coder_word, format_words, clip_words, ended_line, script_text};

use crate::script::{BodyLine, Call, ChromaWord, ClipLine, CoderWord, FormatLine, Script};
use crate::words::{Shape, Word, put_shape};
use std::alloc::{AllocError, Global};
use text_words::put_timecode;

/// The words of a call.
#[tactic(auto, unfolding(crate::specs::Writing::call_words))]
fn shape_of<'a>(call: &'a Call) -> Shape<'a>
    ensures { shape_words result ≡ call_words call.now }
{
    match call {
        Call::Insert {
            at,
            name,
            first,
            len,
        } => Shape::Four(
            "insert",
            Word::Digits(*at),
            Word::Text(name.as_str()),
            Word::Digits(*first),
            Word::Digits(*len),
        ),
        Call::Overwrite {
            at,
            name,
            first,
            len,
        } => Shape::Four(
            "overwrite",
            Word::Digits(*at),
            Word::Text(name.as_str()),
            Word::Digits(*first),
            Word::Digits(*len),
        ),
        Call::Extract { at, len } => Shape::Two("extract", Word::Digits(*at), Word::Digits(*len)),
        Call::Lift { at, len } => Shape::Two("lift", Word::Digits(*at), Word::Digits(*len)),
        Call::Split { at } => Shape::One("split", Word::Digits(*at)),
        Call::TrimIn { at, by } => Shape::Two("trimin", Word::Digits(*at), Word::Signed(*by)),
        Call::TrimOut { at, by } => Shape::Two("trimout", Word::Digits(*at), Word::Signed(*by)),
        Call::Slip { at, by } => Shape::Two("slip", Word::Digits(*at), Word::Signed(*by)),
        Call::Dissolve { at, len } => Shape::Two("dissolve", Word::Digits(*at), Word::Digits(*len)),
        Call::Relink { at, name, first } => Shape::Three(
            "relink",
            Word::Digits(*at),
            Word::Text(name.as_str()),
            Word::Digits(*first),
        ),
        Call::Edl { file } => Shape::One("edl", Word::Text(file.as_str())),
        Call::Undo => Shape::Plain("undo"),
        Call::Redo => Shape::Plain("redo"),
        Call::Want { first, len } => Shape::Two("want", Word::Digits(*first), Word::Digits(*len)),
        Call::Cancel { first, len } => Shape::Two(
            "cancel",
            Word::Digits(*first),
            Word::Digits(*len),
        ),
        Call::Play { n } => Shape::One("play", Word::Digits(*n)),
        Call::Show { n } => Shape::One("show", Word::Digits(*n)),
        Call::Roll { first, len } => Shape::Two("roll", Word::Digits(*first), Word::Digits(*len)),
        Call::Work { turns } => Shape::One("work", Word::Digits(*turns)),
        Call::Export { file } => Shape::One("export", Word::Text(file.as_str())),
    }
}

/// Puts the line of a call.
#[tactic(auto, unfolding(crate::specs::Writing::ended_line))]
fn put_call(out: &mut Vec<u8>, line: &BodyLine) -> Result<(), AllocError>
    ensures { OnOk result (out.new.items ≡ out.old.items ++ ended_line (call_words line.now.call)) }
{
    put_shape(out, shape_of(&line.call))?;
    Ok(())
}

fn put_body(out: &mut Vec<u8>, lines: &[BodyLine]) -> Result<(), AllocError>
    ensures { OnOk result (out.new.items ≡ out.old.items ++ flat_map (λ line. ended_line (call_words line.call)) lines.now) }
{
    for line in lines {
        put_call(out, line)?;
    }
    Ok(())
}

/// Puts a word after a blank.
fn put_text(out: &mut Vec<u8>, text: &str) -> Result<(), AllocError>
    ensures { OnOk result (out.new.items ≡ out.old.items ++ 32 ∷ text.now) }
{
    out.push(b' ')?;
    out.extend_from_slice(text.as_bytes())?;
    Ok(())
}

/// Puts a timecode after a blank, and ends the line.
#[tactic(auto, using(std::proofs::Common::append_assoc))]
fn put_time(out: &mut Vec<u8>, rate: u32, frame: u32) -> Result<(), AllocError>
    requires { IsRate rate }
    ensures { OnOk result (out.new.items ≡ out.old.items ++ 32 ∷ (timecode_text rate frame ++ 10 ∷ [])) }
{
    out.push(b' ')?;
    put_timecode(out, rate, frame)?;
    out.push(b'\n')?;
    Ok(())
}

#[tactic(auto, using(std::proofs::Common::append_assoc), unfolding(crate::specs::Writing::ended_line, crate::specs::Line::joined))]
fn put_clip(out: &mut Vec<u8>, rate: u32, clip: &ClipLine) -> Result<(), AllocError>
    requires { IsRate rate }
    ensures { OnOk result (out.new.items ≡ out.old.items ++ ended_line (clip_words rate clip.now)) }
{
    out.extend_from_slice(b"clip")?;
    put_text(out, clip.name.as_str())?;
    put_text(out, clip.file.as_str())?;
    put_time(out, rate, clip.start)?;
    Ok(())
}

fn put_clips(out: &mut Vec<u8>, rate: u32, clips: &[ClipLine]) -> Result<(), AllocError>
    requires { IsRate rate }
    ensures { OnOk result (out.new.items ≡ out.old.items ++ flat_map (λ clip. ended_line (clip_words rate clip)) clips.now) }
{
    for clip in clips {
        put_clip(out, rate, clip)?;
    }
    Ok(())
}

fn chroma_word(chroma: ChromaWord) -> &'static str
    ensures { result.now ≡ chroma_word chroma }
{
    match chroma {
        ChromaWord::Grey => "grey",
        ChromaWord::C444 => "444",
        ChromaWord::C440 => "440",
        ChromaWord::C422 => "422",
        ChromaWord::C420 => "420",
        ChromaWord::C411 => "411",
        ChromaWord::C410 => "410",
    }
}

fn coder_word(coder: CoderWord) -> &'static str
    ensures { result.now ≡ coder_word coder }
{
    match coder {
        CoderWord::Range => "range",
        CoderWord::Rice => "rice",
    }
}

/// The words of a format.
#[tactic(auto, unfolding(crate::specs::Writing::format_words, crate::specs::Line::joined))]
fn format_shape<'a>(format: &'a FormatLine) -> Shape<'a>
    ensures { joined (shape_words result) ≡ joined (format_words format.now) }
{
    match format {
        FormatLine::As { name } => Shape::One("format as", Word::Text(name.as_str())),
        FormatLine::Own {
            width,
            height,
            chroma,
            coder,
            columns,
            rows,
        } => {
            Shape::Six(
                "format",
                Word::Digits(*width),
                Word::Digits(*height),
                Word::Text(chroma_word(*chroma)),
                Word::Text(coder_word(*coder)),
                Word::Digits(*columns),
                Word::Digits(*rows),
            )
        }
    }
}

#[tactic(auto, unfolding(crate::specs::Writing::ended_line))]
fn put_format(out: &mut Vec<u8>, format: &FormatLine) -> Result<(), AllocError>
    ensures { OnOk result (out.new.items ≡ out.old.items ++ ended_line (format_words format.now)) }
{
    put_shape(out, format_shape(format))?;
    Ok(())
}

#[tactic(auto, unfolding(crate::specs::Writing::ended_line))]
fn put_rate(out: &mut Vec<u8>, rate: u32) -> Result<(), AllocError>
    ensures { OnOk result (out.new.items ≡ out.old.items ++ ended_line (codes "rate" ∷ digits rate ∷ [])) }
{
    put_shape(out, Shape::One("rate", Word::Digits(rate)))?;
    Ok(())
}

/// The text of a script, of a rate from 1 to 240. Line numbers aside it has all of it: the rate, the clips, each with a timecode, the
/// format, and the calls.
#[tactic(auto, using(std::proofs::Common::append_assoc))]
pub fn write_script(alloc: Global, script: &Script) -> Result<Vec<u8>, AllocError>
    requires { IsRate script.now.rate }
    ensures { IfOk result (λ v. v.items ≡ script_text script.now) }
{
    let mut out = Vec::new(alloc);
    put_rate(&mut out, script.rate)?;
    put_clips(&mut out, script.rate, script.clips.as_slice())?;
    put_format(&mut out, &script.format)?;
    put_body(&mut out, script.body.as_slice())?;
    Ok(out)
}
