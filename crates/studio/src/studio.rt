//! The studio: its passes, and how a call is made with one.

ghost use Rattle.std.specs.Prelude.{◌≡◌, ◌≢◌, ℕ, ◌+◌, ◌^◌, ◌<◌, ◌≤◌, [], Contains, IfOk};
ghost use Rattle.tl_limits.specs.Limits.{IsJournalLimit};
ghost use Rattle.turn_lock.specs.declared.view.Joined.{Joined};
ghost use Rattle.turn_lock.specs.Entries.{entries_of, IsFront, longer};
ghost use Rattle.turn_lock.specs.Passes.{first_pass, pass_from, Names, HasJoined};
ghost use Rattle.edit_desk.specs.Desk.{IsDesk};
ghost use Rattle.studio.specs.Known.{desk_at, Knows, Holds};
ghost use Rattle.studio.specs.Tries.{Tries};

mod edits;
mod exports;
#[cfg(test)]
mod tests;
mod work;

use crate::call::Call;
use crate::shared::Shared;
use crate::tries::Try;
use render_core::Stopper;
use std::alloc::{AllocError, Global};
use std::marker::Model;
use std::sync::Wait;
use time_list::Lane;
use tl_model::{Journal, Media};
use turn_lock::{Entered, Held, Turn};

/// What one caller knows of a studio's journal.
pub type Pass<M, L> = turn_lock::Pass<Shared<M, L>>;

/// An editing core behind a turn, with its library. It is shared by reference; each caller has a pass.
#[derive(Drop)]
pub struct Studio<M: Media + Drop, L: Lane> {
    media: M,
    turn: Turn<Shared<M, L>>,
}

impl<M: Media + Drop, L: Lane> Model for Studio<M, L> {
    ghost use Rattle.std.specs.Prelude.{◌≡◌};
    ghost use Rattle.turn_lock.specs.Passes.{TurnOf};
    ghost use Rattle.render_core.specs.Board.{BoardOf};

    ghost Value = { TurnOf (BoardOf M) };

    ghost view = { λ s. s.turn };

    ghost invariant = { λ s. s.media ≡ s.turn.start.library };
}

impl<M: Media + Drop, L: Lane> Studio<M, L> {
    /// A studio with an empty timeline and an empty journal, with at most `cache` filed results and `limit` entries; pass 0;
    /// and the right to stop, which is pass 0's.
    pub fn start(
        alloc: Global,
        media: M,
        cache: u32,
        limit: u64,
    ) -> Result<(Studio<M, L>, Pass<M, L>, Stopper), AllocError>
        requires cache { 1 ≤ cache }
        requires limit { IsJournalLimit limit }
        ensures library { IfOk result (λ made. made.0.start.library ≡ media) }
        ensures cache { IfOk result (λ made. made.0.start.cache ≡ cache) }
        ensures limit { IfOk result (λ made. made.0.start.limit ≡ limit) }
        ensures pass { IfOk result (λ made. made.1 ≡ first_pass made.0) }
        ensures knows { IfOk result (λ made. Knows M.library made.0 made.1) }
    {
        let (shared, stopper) = Shared::start(alloc, &media, cache, limit)?;
        match Turn::start(alloc, shared) {
            Ok((turn, pass)) => Ok((Studio { media, turn }, pass, stopper)),
            Err((shared, error)) => {
                shared.stop(stopper);
                Err(error)
            }
        }
    }

    /// The library.
    pub fn media(&self) -> &M
        ensures { result.now ≡ self.now.start.library }
    {
        &self.media
    }

    /// A new pass of pass 0, which has seen the same. New passes are numbered from 1 in the order of the splits.
    pub fn split(&self, pass: &mut Pass<M, L>) -> Pass<M, L>
        requires knows { Knows M.library self.now pass.old }
        requires main { pass.old.number ≡ 0 }
        requires few { pass.old.made + 1 < 2 ^ 32 }
        ensures made { pass.new ≡ record pass.old { made = pass.old.made + 1 } }
        ensures given { result ≡ pass_from pass.new }
        ensures knows { Knows M.library self.now pass.new }
        ensures new_knows { Knows M.library self.now result }
    {
        self.turn.split(pass)
    }

    /// Ends another pass. This one has then seen the longer of their two lists, and names the other's number and those
    /// that the other named, each with that pass's own entries.
    pub fn join(&self, pass: &mut Pass<M, L>, other: Pass<M, L>)
        requires knows { Knows M.library self.now pass.old }
        requires other { Knows M.library self.now other }
        requires not_main { other.number ≢ 0 }
        ensures joined { HasJoined pass.old other pass.new }
        ensures extends { IsFront pass.old.seen pass.new.seen × IsFront other.seen pass.new.seen }
        ensures knows { Knows M.library self.now pass.new }
    {
        self.turn.join(pass, other);
    }

    /// Both passes have then seen the longer of their two lists.
    pub fn meet(&self, a: &mut Pass<M, L>, b: &mut Pass<M, L>)
        requires a { Knows M.library self.now a.old }
        requires b { Knows M.library self.now b.old }
        ensures a_told { a.new ≡ record a.old { seen = longer a.old.seen b.old.seen } }
        ensures b_told { b.new ≡ record b.old { seen = longer a.old.seen b.old.seen } }
        ensures extends { IsFront a.old.seen a.new.seen × IsFront b.old.seen a.new.seen }
        ensures a_knows { Knows M.library self.now a.new }
        ensures b_knows { Knows M.library self.now b.new }
    {
        let of_b = self.turn.note(b);
        self.turn.take_note(a, of_b);
        let of_a = self.turn.note(a);
        self.turn.take_note(b, of_a);
    }

    /// The journal, by move, once each pass that pass 0 made was joined into it. It is legal, and within the limit.
    pub fn close(self, pass: Pass<M, L>) -> Journal
        requires knows { Knows M.library self pass }
        requires main { pass.number ≡ 0 }
        requires joined { (number : ℕ) → 1 ≤ number → number ≤ pass.made → Names pass.joined number }
        ensures known { IsDesk M.library (record (desk_at self pass) { seen = result }) }
        ensures extends { IsFront pass.seen result }
        ensures main { entries_of 0 result ≡ pass.own }
        ensures joined { (ended : Joined) → Contains pass.joined ended → entries_of ended.number result ≡ ended.own }
        ensures others { (number : ℕ) → pass.made < number → entries_of number result ≡ [] }
    {
        let Studio { media: _, turn } = self;
        turn.close(pass).into_journal()
    }

    /// Makes a call with the board that the pass entered with, and leaves. Nothing else is done in the turn.
    fn call_in<C: Call<M, L>>(
        &self,
        pass: &mut Pass<M, L>,
        mut held: Held<Shared<M, L>>,
        call: C,
    ) -> C::Answer
        requires holds { Holds M.library self.now pass.old held }
        requires asks { C.asks call (desk_at self.now pass.old) }
        ensures told { C.told call (desk_at self.now pass.old) (desk_at self.now pass.new) result }
        ensures knows { Knows M.library self.now pass.new }
        ensures word { pass.new.word ≡ pass.old.word }
    {
        let by = pass.number();
        let answer = held.value.make(by, &self.media, call);
        self.turn.leave(pass, held);
        answer
    }

    /// Waits for the turn, makes a call, and leaves.
    pub(crate) fn enter<R: Wait, C: Call<M, L>>(
        &self,
        rt: &R,
        pass: &mut Pass<M, L>,
        call: C,
    ) -> C::Answer
        requires knows { Knows M.library self.now pass.old }
        requires asks { C.asks call (desk_at self.now pass.old) }
        ensures told { C.told call (desk_at self.now pass.old) (desk_at self.now pass.new) result }
        ensures knows { Knows M.library self.now pass.new }
    {
        let held = self.turn.enter(rt, pass);
        self.call_in(pass, held, call)
    }

    /// Makes a call and leaves, if the turn is free.
    pub(crate) fn try_enter<C: Call<M, L>>(
        &self,
        pass: &mut Pass<M, L>,
        call: C,
    ) -> Try<C::Answer, C::Spent>
        requires knows { Knows M.library self.now pass.old }
        requires asks { C.asks call (desk_at self.now pass.old) }
        ensures told { Tries pass.old pass.new (C.spent call) result (λ answer.
            C.told call (desk_at self.now pass.old) (desk_at self.now pass.new) answer) }
        ensures knows { Knows M.library self.now pass.new }
    {
        match self.turn.try_enter(pass) {
            Entered::In(held) => Try::Done(self.call_in(pass, held, call)),
            Entered::Busy { seen } => Try::Busy {
                seen,
                back: call.back(),
            },
        }
    }
}
