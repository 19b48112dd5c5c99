//! Writing an edit list.

ghost use Rattle.std.specs.Prelude.{◌≡◌, ◌-◌, [], ◌∷◌, ◌++◌, length, replicate, flat_map, IfOk, OnOk, codes};
ghost use Rattle.std.specs.Str.{chars};
ghost use Rattle.tl_limits.specs.Limits.{IsRate};
ghost use Rattle.text_words.specs.Timecode.{timecode_text};
ghost use Rattle.edl_text.specs.Writing.{head_text, kind_text, times_text, event_line, name_lines, event_lines, list_lines, joined, list_text};

use crate::event::{Edl, Event};
use crate::label::Text;
use std::alloc::{AllocError, Global};
use text_words::{put_number, put_timecode};

fn count_of(text: &str) -> usize
    ensures { result ≡ length (chars text.now) }
{
    text.chars().count()
}

fn put_spaces(out: &mut Vec<u8>, count: usize) -> Result<(), AllocError>
    ensures { OnOk result (out.new.items ≡ out.old.items ++ replicate count 32) }
{
    for _ in 0..count {
        out.push(b' ')?;
    }
    Ok(())
}

#[tactic(auto, using(std::proofs::Common::append_assoc), unfolding(crate::specs::Writing::head_text))]
fn put_head(out: &mut Vec<u8>, event: &Event) -> Result<(), AllocError>
    ensures { OnOk result (out.new.items ≡ out.old.items ++ head_text event.now) }
{
    put_number(out, 3, event.number)?;
    out.extend_from_slice(b"  ")?;
    out.extend_from_slice(event.reel.as_str().as_bytes())?;
    put_spaces(out, 8_usize.saturating_sub(count_of(event.reel.as_str())))?;
    out.extend_from_slice(b" V     ")?;
    Ok(())
}

#[tactic(auto, using(std::proofs::Common::append_assoc), unfolding(crate::specs::Writing::kind_text))]
fn put_kind(out: &mut Vec<u8>, duration: Option<u32>) -> Result<(), AllocError>
    ensures { OnOk result (out.new.items ≡ out.old.items ++ kind_text duration) }
{
    match duration {
        None => out.extend_from_slice(b"C        ")?,
        Some(frames) => {
            out.extend_from_slice(b"D    ")?;
            put_number(out, 3, frames)?;
            out.push(b' ')?;
        }
    }
    Ok(())
}

fn put_time(out: &mut Vec<u8>, rate: u32, frame: u32) -> Result<(), AllocError>
    requires { IsRate rate }
    ensures { OnOk result (out.new.items ≡ out.old.items ++ (timecode_text rate frame ++ 32 ∷ [])) }
{
    put_timecode(out, rate, frame)?;
    out.push(b' ')?;
    Ok(())
}

#[tactic(auto, using(std::proofs::Common::append_assoc), unfolding(crate::specs::Writing::times_text))]
fn put_times(out: &mut Vec<u8>, rate: u32, event: &Event) -> Result<(), AllocError>
    requires { IsRate rate }
    ensures { OnOk result (out.new.items ≡ out.old.items ++ times_text rate event.now) }
{
    put_time(out, rate, event.source_in)?;
    put_time(out, rate, event.source_out)?;
    put_time(out, rate, event.record_in)?;
    put_timecode(out, rate, event.record_out)?;
    Ok(())
}

/// A line of a keyword and a name, where there is one.
#[tactic(auto, using(std::proofs::Common::append_assoc), unfolding(crate::specs::Writing::joined))]
fn put_name(out: &mut Vec<u8>, keyword: &[u8], name: &Option<Text>) -> Result<(), AllocError>
    ensures { OnOk result (out.new.items ≡ out.old.items ++ joined (name_lines keyword.now name.now)) }
{
    if let Some(name) = name {
        out.extend_from_slice(keyword)?;
        out.extend_from_slice(name.as_str().as_bytes())?;
        out.push(b'\n')?;
    }
    Ok(())
}

#[tactic(auto, using(std::proofs::Common::append_assoc))]
fn put_event_line(out: &mut Vec<u8>, rate: u32, event: &Event) -> Result<(), AllocError>
    requires { IsRate rate }
    ensures { OnOk result (out.new.items ≡ out.old.items ++ (event_line rate event.now ++ 10 ∷ [])) }
{
    put_head(out, event)?;
    put_kind(out, event.duration)?;
    put_times(out, rate, event)?;
    out.push(b'\n')?;
    Ok(())
}

#[tactic(auto, using(crate::proofs::Joining::joined_event))]
fn put_event(out: &mut Vec<u8>, rate: u32, event: &Event) -> Result<(), AllocError>
    requires { IsRate rate }
    ensures { OnOk result (out.new.items ≡ out.old.items ++ joined (event_lines rate event.now)) }
{
    put_event_line(out, rate, event)?;
    put_name(out, b"* FROM CLIP NAME: ", &event.from)?;
    put_name(out, b"* TO CLIP NAME: ", &event.to)?;
    Ok(())
}

fn put_events(out: &mut Vec<u8>, rate: u32, events: &[Event]) -> Result<(), AllocError>
    requires { IsRate rate }
    ensures { OnOk result (out.new.items ≡ out.old.items ++ joined (flat_map (event_lines rate) events.now)) }
{
    for event in events {
        put_event(out, rate, event)?;
    }
    Ok(())
}

/// The text of an edit list at a rate.
#[tactic(auto, using(std::proofs::Common::append_assoc), unfolding(crate::specs::Writing::joined))]
pub fn write_edl(alloc: Global, edl: &Edl, rate: u32) -> Result<Vec<u8>, AllocError>
    requires { IsRate rate }
    ensures { IfOk result (λ v. v.items ≡ list_text rate edl.now) }
{
    let mut out = Vec::new(alloc);
    out.extend_from_slice(b"TITLE: ")?;
    out.extend_from_slice(edl.title.as_str().as_bytes())?;
    out.extend_from_slice(b"\nFCM: NON-DROP FRAME\n")?;
    put_events(&mut out, rate, edl.events.as_slice())?;
    Ok(out)
}
