//! The turn.

ghost use Rattle.std.specs.Prelude.{◌≡◌, ◌≢◌, ℕ, ◌+◌, ◌^◌, ◌<◌, ◌≤◌, true, false, [], ◌∷◌, ◌++◌, length, Some, Contains, IfOk, IfErr};
ghost use Rattle.turn_lock.specs.declared.view.Joined.{Joined};
ghost use Rattle.turn_lock.specs.Entries.{entries_of, IsFront, Adds, longer};
ghost use Rattle.turn_lock.specs.Passes.{IsOf, first_pass, IsTurnedAway, HasTaken, pass_from, note_from, Names, HasLeft, HasJoined};
ghost use Rattle.turn_lock.specs.Entering.{entered_by, IfIn, IfBusy};

use crate::journaled::Journaled;
use crate::pass::{Entered, Held, Note, Pass};
use crate::plays::{Compare, Leave, Look, Pair, Take, Tell};
use crate::view::{Law, View};
use atomic_table::{Refused, Table};
use std::alloc::{AllocError, AllocFailed, Global};
use std::marker::Model;
use std::snapshot::Snapshot;
use std::sync::Wait;
use std::thread;

/// A value behind a turn. Word 0 is twice the number of its entries while the turn is free, and one more while it is
/// taken. The value lies in the one slot.
#[derive(Drop)]
pub struct Turn<B: Journaled> {
    table: Table<Option<B>, View<B>, Snapshot<B>, Law, Global>,
}

impl<B: Journaled> Model for Turn<B> {
    ghost use Rattle.std.specs.Prelude.{◌≡◌};
    ghost use Rattle.turn_lock.specs.Passes.{TurnOf};

    ghost Value = { TurnOf B };

    ghost view = { λ t. record { id = t.table.shared.table_id; start = t.table.shared.key.value } };

    ghost invariant = { λ t. (t.table.shared.table_id.words ≡ 1) × (t.table.shared.table_id.slots ≡ 1) };
}

impl<B: Journaled> Turn<B> {
    /// A free turn over a value without entries, and pass 0. Where there is no memory the value comes back.
    pub fn start(alloc: Global, value: B) -> Result<(Turn<B>, Pass<B>), (B, AllocError)>
        requires { B.entries value ≡ [] }
        ensures turn { IfOk result (λ made. made.0.start ≡ value) }
        ensures pass { IfOk result (λ made. made.1 ≡ first_pass made.0) }
        ensures meets { IfOk result (λ made. B.meets (B.fixed value) made.1.seen) }
        ensures err { IfErr result (λ back. back.0 ≡ value) }
    {
        value.len();
        let key = Snapshot::of(&value);
        let mut slots = Vec::new(alloc);
        if let Err(AllocFailed { value }) = slots.push(Some(value)) {
            slots.destroy_empty();
            return Err((value.unwrap(), AllocError));
        }
        match Table::new(alloc, &[0], slots, &key) {
            Ok((table, seat)) => Ok((
                Turn { table },
                Pass {
                    number: 0,
                    made: 0,
                    seat,
                },
            )),
            Err(Refused { slots }) => Err((only(slots), AllocError)),
        }
    }

    /// Takes the turn if it is free. One `fetch_or` of 1 decides: the turn was taken exactly where the word was odd.
    pub fn try_enter(&self, pass: &mut Pass<B>) -> Entered<B>
        requires turn { IsOf self.now pass.old }
        requires free { pass.old.holds ≡ false }
        ensures busy { IfBusy result (IsTurnedAway pass.old pass.new) }
        ensures taken { IfIn result (λ held. HasTaken pass.old pass.new (B.entries held.value) × (entered_by held ≡ pass.new)) }
        ensures extends { IfIn result (λ held. IsFront pass.old.seen (B.entries held.value)) }
        ensures own { IfIn result (λ held. entries_of pass.old.number (B.entries held.value) ≡ pass.old.own) }
        ensures fixed { IfIn result (λ held. B.fixed held.value ≡ B.fixed self.now.start) }
        ensures meets { B.meets (B.fixed self.now.start) pass.new.seen }
    {
        let shared = &self.table.shared;
        let found = shared.fetch_or::<Take>(&mut pass.seat, 0, 1);
        if found % 2 == 1 {
            return Entered::Busy { seen: found / 2 };
        }
        let value = shared.exchange(&mut pass.seat, 0, None).unwrap();
        let by = Snapshot::of(&*pass);
        Entered::In(Held { value, by })
    }

    /// Takes the turn, and waits for it by trying again.
    pub fn enter<R: Wait>(&self, rt: &R, pass: &mut Pass<B>) -> Held<B>
        requires turn { IsOf self.now pass.old }
        requires free { pass.old.holds ≡ false }
        ensures taken { HasTaken pass.old pass.new (B.entries result.value) × (entered_by result ≡ pass.new) }
        ensures extends { IsFront pass.old.seen (B.entries result.value) }
        ensures own { entries_of pass.old.number (B.entries result.value) ≡ pass.old.own }
        ensures fixed { B.fixed result.value ≡ B.fixed self.now.start }
        ensures meets { B.meets (B.fixed self.now.start) pass.new.seen }
    {
        for _ in rt.forever() {
            match self.try_enter(pass) {
                Entered::In(held) => return held,
                Entered::Busy { seen: _ } => thread::yield_now(),
            }
        }
        unreachable!()
    }

    /// Gives the turn back, with the value that the pass entered with. Its list has gained entries of the pass's number
    /// alone, and the pass has then seen it all.
    pub fn leave(&self, pass: &mut Pass<B>, held: Held<B>)
        requires turn { IsOf self.now pass.old }
        requires entered { (pass.old.holds ≡ true) × (entered_by held ≡ pass.old) }
        requires fixed { B.fixed held.value ≡ B.fixed self.now.start }
        requires added { Adds pass.old.number pass.old.seen (B.entries held.value) }
        ensures left { HasLeft pass.old pass.new (B.entries held.value) }
        ensures meets { B.meets (B.fixed self.now.start) pass.new.seen }
    {
        let Held { value, by: _ } = held;
        let len = value.len();
        let shared = &self.table.shared;
        match shared.exchange(&mut pass.seat, 0, Some(value)) {
            None => {}
            Some(_) => unreachable!(),
        }
        shared.store::<Leave>(&mut pass.seat, 0, 2 * len);
    }

    /// The number of entries that the word tells. The pass has then seen as many.
    pub fn look(&self, pass: &mut Pass<B>) -> u64
        requires turn { IsOf self.now pass.old }
        ensures number { result ≡ length pass.new.seen }
        ensures same { pass.new ≡ record pass.old { seen = pass.new.seen } }
        ensures extends { IsFront pass.old.seen pass.new.seen }
        ensures own { entries_of pass.old.number pass.new.seen ≡ pass.old.own }
        ensures holder { pass.old.holds ≡ true → pass.new ≡ pass.old }
        ensures meets { B.meets (B.fixed self.now.start) pass.new.seen }
    {
        self.table.shared.load::<Look>(&mut pass.seat, 0) / 2
    }

    /// A new pass of pass 0, which has seen the same. New passes are numbered from 1 in the order of the splits.
    pub fn split(&self, pass: &mut Pass<B>) -> Pass<B>
        requires turn { IsOf self.now pass.old }
        requires free { pass.old.holds ≡ false }
        requires main { pass.old.number ≡ 0 }
        requires few { pass.old.made + 1 < 2 ^ 32 }
        ensures made { pass.new ≡ record pass.old { made = pass.old.made + 1 } }
        ensures given { result ≡ pass_from pass.new }
        ensures own { entries_of result.number result.seen ≡ [] }
    {
        let shared = &self.table.shared;
        let mut seat = shared.split_seat::<Pair>(&mut pass.seat);
        shared.load::<Compare>(&mut seat, 0);
        pass.made += 1;
        Pass {
            number: pass.made,
            made: 0,
            seat,
        }
    }

    /// Ends another pass. This one has then seen the longer of their two lists, and names the other's number and those
    /// that the other named, each with that pass's own entries.
    pub fn join(&self, pass: &mut Pass<B>, other: Pass<B>)
        requires turn { IsOf self.now pass.old × IsOf self.now other }
        requires free { (pass.old.holds ≡ false) × (other.holds ≡ false) }
        requires not_main { other.number ≢ 0 }
        ensures joined { HasJoined pass.old other pass.new }
        ensures extends { IsFront pass.old.seen pass.new.seen × IsFront other.seen pass.new.seen }
        ensures own { entries_of pass.old.number pass.new.seen ≡ pass.old.own }
        ensures meets { B.meets (B.fixed self.now.start) pass.new.seen }
    {
        let Pass {
            number: _,
            made: _,
            seat,
        } = other;
        self.table.shared.join_seat::<Pair>(&mut pass.seat, seat);
        self.table.shared.load::<Compare>(&mut pass.seat, 0);
    }

    /// A note of what the pass has seen.
    pub fn note(&self, pass: &mut Pass<B>) -> Note<B>
        requires turn { IsOf self.now pass.old }
        requires free { pass.old.holds ≡ false }
        ensures same { pass.new ≡ pass.old }
        ensures given { result ≡ note_from pass.old }
    {
        let seat = self.table.shared.split_seat::<Tell>(&mut pass.seat);
        Note { seat }
    }

    /// The pass has then seen the longer of its own list and the note's.
    pub fn take_note(&self, pass: &mut Pass<B>, note: Note<B>)
        requires turn { IsOf self.now pass.old × (note.turn ≡ self.now.id) }
        requires free { pass.old.holds ≡ false }
        ensures told { pass.new ≡ record pass.old { seen = longer pass.old.seen note.seen } }
        ensures extends { IsFront pass.old.seen pass.new.seen × IsFront note.seen pass.new.seen }
        ensures own { entries_of pass.old.number pass.new.seen ≡ pass.old.own }
        ensures meets { B.meets (B.fixed self.now.start) pass.new.seen }
    {
        let Note { seat } = note;
        self.table.shared.join_seat::<Tell>(&mut pass.seat, seat);
        self.table.shared.load::<Compare>(&mut pass.seat, 0);
    }

    /// The value, once each pass that pass 0 made was joined into it.
    pub fn close(self, pass: Pass<B>) -> B
        requires turn { IsOf self pass }
        requires free { pass.holds ≡ false }
        requires main { pass.number ≡ 0 }
        requires joined { (number : ℕ) → 1 ≤ number → number ≤ pass.made → Names pass.joined number }
        ensures extends { IsFront pass.seen (B.entries result) }
        ensures main { entries_of 0 (B.entries result) ≡ pass.own }
        ensures joined { (ended : Joined) → Contains pass.joined ended → entries_of ended.number (B.entries result) ≡ ended.own }
        ensures others { (number : ℕ) → pass.made < number → entries_of number (B.entries result) ≡ [] }
        ensures fixed { B.fixed result ≡ B.fixed self.start }
        ensures meets { B.meets (B.fixed self.start) (B.entries result) }
    {
        let Turn { table } = self;
        let Pass {
            number: _,
            made: _,
            seat,
        } = pass;
        let mut closed = table.close_with(seat);
        let value = closed.take(0).unwrap();
        closed.free();
        value
    }
}

// The one value of a row that wasn't taken.
fn only<B>(mut slots: Vec<Option<B>>) -> B
    requires { (value : B) × (slots.items ≡ Some value ∷ []) }
    ensures { slots.items ≡ Some result ∷ [] }
{
    let value = slots.pop().unwrap().unwrap();
    slots.destroy_empty();
    value
}
