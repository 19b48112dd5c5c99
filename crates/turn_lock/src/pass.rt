//! Passes and notes, and the value while a pass holds the turn.

ghost use Rattle.std.specs.Prelude.{◌≡◌};

use crate::view::View;
use atomic_table::Seat;
use std::marker::Model;
use std::snapshot::Snapshot;

/// What one caller knows of the turn's list. The number and how many passes it made are those of its view; who holds the
/// turn has the slot with it.
#[derive(Drop)]
pub struct Pass<B> {
    pub(crate) number: u32,
    pub(crate) made: u32,
    pub(crate) seat: Seat<Option<B>, View<B>>,
}

impl<B> Model for Pass<B> {
    ghost use Rattle.turn_lock.specs.Passes.{PassOf, pass_of, IsPass};

    ghost Value = { PassOf B };

    ghost view = { λ p. pass_of p.seat.table_id p.seat.me.0 };

    ghost invariant = { λ p. IsPass p.number p.made p.seat.me };
}

impl<B> Pass<B> {
    /// The pass's number: 0 for the first, else the number of the split that made it, from 1.
    pub fn number(&self) -> u32
        ensures { result ≡ self.now.number }
    {
        self.number
    }

    /// How many passes it made. Only pass 0 makes some.
    pub fn made(&self) -> u32
        ensures { result ≡ self.now.made }
    {
        self.made
    }
}

/// What its giver had seen, to be told to another pass. It has no number.
#[derive(Drop)]
pub struct Note<B> {
    pub(crate) seat: Seat<Option<B>, View<B>>,
}

impl<B> Model for Note<B> {
    ghost use Rattle.turn_lock.specs.Passes.{NoteOf, note_as, IsNote};

    ghost Value = { NoteOf B };

    ghost view = { λ n. note_as n.seat.table_id n.seat.me.0 };

    ghost invariant = { λ n. IsNote n.seat.me };
}

/// The value, while the pass that entered holds the turn. It must be spent, by `leave`.
pub struct Held<B> {
    pub value: B,
    pub(crate) by: Snapshot<Pass<B>>,
}

/// What a try to enter is answered.
pub enum Entered<B> {
    /// The pass holds the turn.
    In(Held<B>),
    /// Another pass holds it, and took it when there were `seen` entries.
    Busy { seen: u64 },
}
