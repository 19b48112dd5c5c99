//! What the seats at the table know. No value of these types is made.

use crate::journaled::Journaled;
use atomic_table::TableRule;
use std::collections::LinkedList;
use std::snapshot::Snapshot;
use tl_model::Entry;

/// A pass that was joined into another: its number, and its entries.
pub struct Joined {
    pub number: u32,
    pub own: LinkedList<Entry>,
}

/// What a pass, a note or a spent seat knows.
pub struct View<B> {
    /// Only a pass is named: a note and a spent seat have no number.
    pub named: bool,
    pub number: u32,
    pub holds: bool,
    pub seen: LinkedList<Entry>,
    /// The shorter list of the last join.
    pub behind: LinkedList<Entry>,
    pub mine: LinkedList<Entry>,
    pub made: u32,
    pub joined: LinkedList<Joined>,
    /// The value that the turn started with, whose fixed part stays. A spent seat names none.
    pub start: Option<B>,
    /// The word that the last take read.
    pub word: u64,
}

/// The rule of the turn. The table's key is the value that the turn started with.
pub struct Law;

impl<B: Journaled> TableRule<Option<B>, View<B>, Snapshot<B>> for Law {
    ghost use Rattle.turn_lock.specs.Views.{new_view};
    ghost use Rattle.turn_lock.specs.Rule.{IsTurn};

    ghost holds = { λ key. IsTurn record { Fixed = B.Fixed; entries = B.entries; fixed = B.fixed; meets = B.meets } key.value };

    ghost first = { λ key. new_view 0 key.value };
}
