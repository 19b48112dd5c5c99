//! Events as lines.

ghost use Rattle.std.specs.Prelude.{◌≡◌, [], ◌∷◌, ◌++◌, flat_map, option_map, OnOk};
ghost use Rattle.texts_check.specs.Answer.{field, duration_text, name_text, times_text, event_text};

use edl_text::{Event, Text};
use std::alloc::AllocError;
use text_words::put_number;

/// Puts a number and a blank.
#[tactic(auto, using(std::proofs::Common::append_assoc))]
fn put_field(out: &mut Vec<u8>, n: u32) -> Result<(), AllocError>
    ensures { OnOk result (out.new.items ≡ out.old.items ++ field n) }
{
    put_number(out, 1, n)?;
    out.push(b' ')?;
    Ok(())
}

fn put_duration(out: &mut Vec<u8>, duration: Option<u32>) -> Result<(), AllocError>
    ensures { OnOk result (out.new.items ≡ out.old.items ++ duration_text duration) }
{
    match duration {
        None => out.extend_from_slice(b"- ")?,
        Some(frames) => put_field(out, frames)?,
    }
    Ok(())
}

fn put_name(out: &mut Vec<u8>, name: &Option<Text>) -> Result<(), AllocError>
    ensures { OnOk result (out.new.items ≡ out.old.items ++ name_text name.now) }
{
    match name {
        None => out.push(b'-')?,
        Some(name) => out.extend_from_slice(name.as_str().as_bytes())?,
    }
    Ok(())
}

#[tactic(auto, using(std::proofs::Common::append_assoc))]
fn put_times(out: &mut Vec<u8>, event: &Event) -> Result<(), AllocError>
    ensures { OnOk result (out.new.items ≡ out.old.items ++ times_text event.now) }
{
    put_field(out, event.source_in)?;
    put_field(out, event.source_out)?;
    put_field(out, event.record_in)?;
    put_field(out, event.record_out)?;
    Ok(())
}

/// Puts the number and the reel.
#[tactic(auto, using(std::proofs::Common::append_assoc))]
fn put_head(out: &mut Vec<u8>, event: &Event) -> Result<(), AllocError>
    ensures { OnOk result (out.new.items ≡ out.old.items ++ (field event.now.number ++ (event.now.reel ++ 32 ∷ []))) }
{
    put_field(out, event.number)?;
    out.extend_from_slice(event.reel.as_str().as_bytes())?;
    out.push(b' ')?;
    Ok(())
}

/// Puts both names.
#[tactic(auto, using(std::proofs::Common::append_assoc))]
fn put_names(out: &mut Vec<u8>, event: &Event) -> Result<(), AllocError>
    ensures { OnOk result (out.new.items ≡ out.old.items ++ (name_text event.now.from ++ 32 ∷ (name_text event.now.to ++ 10 ∷ []))) }
{
    put_name(out, &event.from)?;
    out.push(b' ')?;
    put_name(out, &event.to)?;
    out.push(b'\n')?;
    Ok(())
}

#[tactic(auto, using(std::proofs::Common::append_assoc), unfolding(crate::specs::Answer::event_text))]
fn put_event(out: &mut Vec<u8>, event: &Event) -> Result<(), AllocError>
    ensures { OnOk result (out.new.items ≡ out.old.items ++ event_text event.now) }
{
    put_head(out, event)?;
    put_duration(out, event.duration)?;
    put_times(out, event)?;
    put_names(out, event)?;
    Ok(())
}

pub fn put_events(out: &mut Vec<u8>, events: &[Event]) -> Result<(), AllocError>
    ensures { OnOk result (out.new.items ≡ out.old.items ++ flat_map event_text events.now) }
{
    for event in events {
        put_event(out, event)?;
    }
    Ok(())
}
