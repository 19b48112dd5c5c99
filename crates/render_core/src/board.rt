//! The board: the machine with its journal.

ghost use Rattle.std.specs.Prelude.{◌≡◌, ℕ, ◌+◌, ◌-◌, ◌<◌, ◌≤◌, List, [], ◌++◌, length, Option, IfOk, OnOk, OnErr, vec_capacity, false, IsTrue};
ghost use Rattle.tl_limits.specs.Limits.{IsJournalLimit};
ghost use Rattle.tl_model.specs.declared.journal.Entry.{Entry};
ghost use Rattle.tl_model.specs.declared.recipe.Recipe.{Recipe};
ghost use Rattle.tl_model.specs.Cells.{Cell};
ghost use Rattle.render_core.specs.State.{owed, Holds, HoldsExport, IsOrderly};
ghost use Rattle.render_core.specs.Step.{IsJournal, state_after};
ghost use Rattle.render_core.specs.Claim.{EndsNone, EndsJob, EndsExport};
ghost use Rattle.render_core.specs.Calls.{CallOf, own};
ghost use Rattle.render_core.specs.Runs.{entered_calls, Runs, Journals};
ghost use Rattle.render_core.specs.Board.{BoardOf, setup_of, state_of, IsSame, MakesRoom, RoomFor};

mod edits;
mod exports;
mod work;

use crate::claim::{Claim, Stopper};
use crate::machine::Machine;
use crate::reply::Full;
use std::alloc::{AllocError, Global};
use std::marker::Model;
use time_list::Lane;
use tl_model::{Entry, Journal, Media};

/// The editing core: a timeline, jobs, filed results, exports and the journal of all calls. It stands for the state
/// after its journal; the entries and those that are owed are within the limit, and have memory.
#[derive(Drop)]
pub struct Board<M: Media, L: Lane> {
    machine: Machine<M, L>,
    journal: Vec<Entry>,
    /// How many entries are still to come.
    owed: u64,
    limit: u64,
}

impl<M: Media, L: Lane> Model for Board<M, L> {
    ghost use Rattle.std.specs.Prelude.{◌+◌, ◌-◌, vec_len, vec_capacity};
    ghost use Rattle.render_core.specs.Board.{BoardOf, IsBoard};
    ghost use Rattle.render_core.specs.Parts.{setup_at};

    ghost Value = { BoardOf M };

    ghost view = { λ b. record {
      library = b.machine.library;
      cache = b.machine.cache;
      limit = b.limit;
      journal = b.journal.items;
      spare = vec_capacity b.journal - (vec_len b.journal + b.owed);
    } };

    ghost invariant = { λ b. IsBoard (setup_at M.library b.machine)
        (record { state = b.machine.state; journal = b.journal.items; limit = b.limit; owing = b.owed; room = vec_capacity b.journal }) };
}

impl<M: Media, L: Lane> Board<M, L> {
    /// An empty timeline and an empty journal. The board notes the library, keeps at most `cache` filed results, and
    /// takes at most `limit` entries. The stop's entry is owed from the start.
    pub fn start(
        alloc: Global,
        media: &M,
        cache: u32,
        limit: u64,
    ) -> Result<(Board<M, L>, Stopper), AllocError>
        requires cache { 1 ≤ cache }
        requires limit { IsJournalLimit limit }
        ensures library { IfOk result (λ made. made.0.library ≡ media.now) }
        ensures cache { IfOk result (λ made. made.0.cache ≡ cache) }
        ensures limit { IfOk result (λ made. made.0.limit ≡ limit) }
        ensures journal { IfOk result (λ made. made.0.journal ≡ []) }
    {
        let journal = Vec::with_capacity(alloc, 1)?;
        let board = Board {
            machine: Machine::start(alloc, media, cache),
            journal,
            owed: 1,
            limit,
        };
        Ok((board, Stopper { of: () }))
    }

    /// The journal, which is legal. After it a recipe has an open job or a filed result at most once.
    pub fn entries(&self) -> &[Entry]
        ensures entries { result.now ≡ self.now.journal }
        ensures legal { IsJournal (setup_of M.library self.now) self.now.journal }
        ensures within { length self.now.journal + owed (state_of M.library self.now) ≤ self.now.limit }
        ensures few { IsJournalLimit self.now.limit }
        ensures orderly { IsOrderly self.now.cache (state_of M.library self.now) }
    {
        self.journal.as_slice()
    }

    /// The journal, by move.
    pub fn into_journal(self) -> Journal
        ensures journal { result ≡ self.journal }
        ensures legal { IsJournal (setup_of M.library self) result }
        ensures within { length result + owed (state_of M.library self) ≤ self.limit }
    {
        let Board {
            machine: _,
            journal,
            owed: _,
            limit: _,
        } = self;
        Journal::from_vec(journal)
    }

    /// Tells, in a proof, that a pass holds its job until it enters the job's end itself, and its export until it enters
    /// the export's end, whatever entries of others come between. It does nothing.
    pub fn claims_last(&self)
        ensures jobs { (journal more : List Entry) (pass n : ℕ) (recipe : Recipe)
            → IsJournal (setup_of M.library self.now) (journal ++ more)
            → Holds (state_after (setup_of M.library self.now) journal) pass n recipe → EndsNone (EndsJob n) pass more
            → Holds (state_after (setup_of M.library self.now) (journal ++ more)) pass n recipe }
        ensures exports { (journal more : List Entry) (pass n : ℕ) (name : List ℕ) (line : List Cell)
            → IsJournal (setup_of M.library self.now) (journal ++ more)
            → HoldsExport (state_after (setup_of M.library self.now) journal) pass n name line → EndsNone (EndsExport n) pass more
            → HoldsExport (state_after (setup_of M.library self.now) (journal ++ more)) pass n name line }
    {}

    /// Tells, in a proof, that the entries of others end no job and no export of a pass, and that where caller 0 entered
    /// nothing since the session wasn't stopped, it isn't stopped. It does nothing.
    pub fn others_end_nothing(&self)
        ensures jobs { (more : List Entry) (pass n : ℕ) → own pass more ≡ [] → EndsNone (EndsJob n) pass more }
        ensures exports { (more : List Entry) (pass n : ℕ) → own pass more ≡ [] → EndsNone (EndsExport n) pass more }
        ensures stop { (journal more : List Entry) → IsJournal (setup_of M.library self.now) (journal ++ more) → own 0 more ≡ []
            → (state_after (setup_of M.library self.now) journal).is_stopped ≡ false
            → (state_after (setup_of M.library self.now) (journal ++ more)).is_stopped ≡ false }
    {}

    /// Tells, in a proof, that a list of calls enters its entries in order, where each may come, and that each was told
    /// the machine's reply to its entry. It does nothing.
    pub fn calls_are_entered(&self)
        ensures { (old new : BoardOf M) (calls : List (Option (CallOf M.Frame))) → Runs M.library old new calls
            → Journals (setup_of M.library old) old.journal new.journal (entered_calls calls) }
    {}

    /// Whether a caller holds the job of a claim.
    pub fn holds(&self, by: u32, claim: &Claim) -> bool
        ensures held { IsTrue result → Holds (state_of M.library self.now) by claim.now.job claim.now.recipe }
        ensures free { Holds (state_of M.library self.now) by claim.now.job claim.now.recipe → IsTrue result }
    {
        self.machine.holds(by, claim)
    }

    /// Whether the session was stopped.
    pub fn is_stopped(&self) -> bool
        ensures { result ≡ (state_of M.library self.now).is_stopped }
    {
        self.machine.is_stopped()
    }

    /// How many more entries, beside those owed, take no memory.
    pub fn spare(&self) -> u64
        ensures { result ≡ self.now.spare }
    {
        self.journal.capacity() as u64 - (self.journal.len() as u64 + self.owed)
    }

    /// Makes room for `n` more entries beside those owed. Room that is there is left as it is.
    pub fn reserve(&mut self, n: u32) -> Result<(), AllocError>
        ensures room { OnOk result (n ≤ self.new.spare) }
        ensures same { IsSame self.old self.new }
        ensures err { OnErr result (self.new.spare ≡ self.old.spare) }
        ensures wanting { OnErr result (self.old.spare < n) }
        ensures enough { n ≤ self.old.spare → self.new.spare ≡ self.old.spare }
    {
        if (n as u64) <= self.spare() {
            return Ok(());
        }
        let more = self.owed + n as u64;
        self.journal.reserve(more as usize)
    }

    /// Room for `need` more entries beside those owed. The limit is tested before any want of memory.
    fn make_room(&mut self, need: u64) -> Result<(), Full>
        requires { need ≤ 3 }
        ensures { MakesRoom M.library self.old self.new need result }
    {
        room_for(&mut self.journal, self.owed, self.limit, need)
    }
}

/// Room in a journal for `need` more entries beside those owed. The limit is tested before any want of memory.
fn room_for(journal: &mut Vec<Entry>, owed: u64, limit: u64, need: u64) -> Result<(), Full>
    requires within { length journal.old.items + owed ≤ limit }
    requires few { IsJournalLimit limit }
    requires need { need ≤ 3 }
    requires kept { length journal.old.items + owed ≤ vec_capacity journal.old }
    ensures items { journal.new.items ≡ journal.old.items }
    ensures room { RoomFor
        (record { len = length journal.old.items; owing = owed; limit = limit; count = need }) (vec_capacity journal.old)
        (vec_capacity journal.new) result }
{
    let len = journal.len() as u64;
    if len + owed + need > limit {
        return Err(Full::JournalFull { len, owed });
    }
    if len + owed + need <= journal.capacity() as u64 {
        return Ok(());
    }
    match journal.reserve((owed + need) as usize) {
        Ok(()) => Ok(()),
        Err(_) => Err(Full::NoMemory),
    }
}
