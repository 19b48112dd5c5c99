//! The video events of an edit list, each with its names.

ghost use Rattle.std.specs.Prelude.{◌≡◌, ◌<◌, ◌^◌, [], ◌∷◌, ◌++◌, map, length, IfOk, OnOk, option_map};
ghost use Rattle.edl_text.specs.Row.{said};
ghost use Rattle.edl_text.specs.List.{event, events_from};
ghost use Rattle.edl_text.specs.Names.{name_at, names_in};

use crate::event::Event;
use crate::label::Text;
use crate::names::{NameMaps, Names};
use crate::row::{Row, Shown};
use std::alloc::{AllocError, Global};

/// The name of a number, where it has one.
fn name_at(alloc: Global, names: &Names<'_>, number: u32) -> Result<Option<Text>, AllocError>
    ensures { IfOk result (λ text. text ≡ name_at names.now number) }
{
    match names.get(&number) {
        Some(name) => Ok(Some(Text::copy_of(alloc, name)?)),
        None => Ok(None),
    }
}

fn event_of(
    alloc: Global,
    names: &NameMaps<'_>,
    line: u32,
    shown: &Shown<'_>,
) -> Result<Event, AllocError>
    ensures { IfOk result (λ e. e ≡ event (names_in names.now) line shown.now.number shown.now.reel.now shown.now.edit) }
{
    let reel = Text::copy_of(alloc, shown.reel)?;
    let from = name_at(alloc, &names.from, shown.number)?;
    let to = name_at(alloc, &names.to, shown.number)?;
    Ok(Event {
        line,
        number: shown.number,
        reel,
        duration: shown.edit.duration,
        source_in: shown.edit.times.source_in,
        source_out: shown.edit.times.source_out,
        record_in: shown.edit.times.record_in,
        record_out: shown.edit.times.record_out,
        from,
        to,
    })
}

/// Puts the event of line `line` at the end, where it is one with video.
#[tactic(auto, unfolding(crate::specs::List::events_from))]
fn put_event(
    alloc: Global,
    events: &mut Vec<Event>,
    names: &NameMaps<'_>,
    line: u32,
    row: &Row<'_>,
) -> Result<(), AllocError>
    ensures { OnOk result (events.new.items ≡ events.old.items ++ events_from (names_in names.now) line (said row.now ∷ [])) }
{
    if let Row::Video(shown) = row {
        events.push(event_of(alloc, names, line, shown)?)?;
    }
    Ok(())
}

/// The video events of the rows.
pub fn events_of(
    alloc: Global,
    names: &NameMaps<'_>,
    rows: &[Row<'_>],
) -> Result<Vec<Event>, AllocError>
    requires { length rows.now < 2 ^ 32 }
    ensures { IfOk result (λ v. v.items ≡ events_from (names_in names.now) 1 (map said rows.now)) }
{
    let mut events = Vec::new(alloc);
    let mut line = 0;
    for row in rows {
        line += 1;
        put_event(alloc, &mut events, names, line, row)?;
    }
    Ok(events)
}
