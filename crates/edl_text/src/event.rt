//! The video events of an edit list.

ghost use Rattle.std.specs.Prelude.{◌≡◌};

use crate::label::Text;
use std::marker::Model;

/// A cut, or where it has a duration a dissolve. `line` counts the list's lines from 1. Times are frame numbers, and an
/// out is the frame after the last.
#[derive(Debug, Drop)]
pub struct Event {
    pub line: u32,
    pub number: u32,
    pub reel: Text,
    pub duration: Option<u32>,
    pub source_in: u32,
    pub source_out: u32,
    pub record_in: u32,
    pub record_out: u32,
    /// The names of the clips that the event comes from and goes to.
    pub from: Option<Text>,
    pub to: Option<Text>,
}

/// The events of a list in the order of its lines.
#[derive(Debug, Drop)]
pub struct Events {
    items: Vec<Event>,
}

impl Model for Events {
    ghost use Rattle.std.specs.Prelude.{List};
    ghost use Rattle.edl_text.specs.declared.event.Event.{Event};

    ghost Value = { List Event };

    ghost view = { λ e. e.items.items };
}

impl Events {
    pub fn from_vec(items: Vec<Event>) -> Events
        ensures { result ≡ items.items }
    {
        Events { items }
    }

    pub fn as_slice(&self) -> &[Event]
        ensures { result.now ≡ self.now }
    {
        self.items.as_slice()
    }
}

/// An edit list: its title, which is empty where it has none, and its video events.
#[derive(Debug, Drop)]
pub struct Edl {
    pub title: Text,
    pub events: Events,
}
