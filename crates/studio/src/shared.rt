//! The board behind the turn.

ghost use Rattle.std.specs.Prelude.{◌≡◌, ◌≤◌, [], IfOk};
ghost use Rattle.tl_limits.specs.Limits.{IsJournalLimit};
ghost use Rattle.edit_desk.specs.Alone.{at_board};
ghost use Rattle.studio.specs.Known.{KeptOf};
ghost use Rattle.studio.specs.Grows.{Grows};

use crate::call::Call;
use render_core::{Board, Stopper};
use std::alloc::{AllocError, Global};
use std::marker::Model;
use time_list::Lane;
use tl_model::{Journal, Media};
use turn_lock::Journaled;

/// A board whose journal the passes of a turn see.
#[derive(Drop)]
pub struct Shared<M: Media, L: Lane> {
    board: Board<M, L>,
}

impl<M: Media, L: Lane> Model for Shared<M, L> {
    ghost use Rattle.render_core.specs.Board.{BoardOf};

    ghost Value = { BoardOf M };

    ghost view = { λ s. s.board };
}

impl<M: Media, L: Lane> Journaled for Shared<M, L> {
    ghost use Rattle.edit_desk.specs.Desk.{FixedOf, IsDesk};
    ghost use Rattle.edit_desk.specs.Alone.{desk_of};
    ghost use Rattle.edit_desk.proofs.DeskFronts.{known_front};

    ghost Fixed = { FixedOf M (Unit {0}) };

    ghost entries = { λ b. b.journal };

    ghost fixed = { λ b. (desk_of b).fixed };

    ghost meets = { λ fixed journal. IsDesk M.library (record { fixed = fixed; seen = journal }) };

    fn len(&self) -> u64 {
        self.board.entries().len() as u64
    }

    ghost fronts_meet = { λ fixed front rest known. known_front M.library (record { fixed = fixed; seen = front }) rest known };
}

impl<M: Media, L: Lane> Shared<M, L> {
    /// An empty board over a library.
    pub(crate) fn start(
        alloc: Global,
        media: &M,
        cache: u32,
        limit: u64,
    ) -> Result<(Shared<M, L>, Stopper), AllocError>
        requires cache { 1 ≤ cache }
        requires limit { IsJournalLimit limit }
        ensures library { IfOk result (λ made. made.0.library ≡ media.now) }
        ensures cache { IfOk result (λ made. made.0.cache ≡ cache) }
        ensures limit { IfOk result (λ made. made.0.limit ≡ limit) }
        ensures journal { IfOk result (λ made. made.0.journal ≡ []) }
    {
        let (board, stopper) = Board::start(alloc, media, cache, limit)?;
        Ok((Shared { board }, stopper))
    }

    /// Makes a call for the caller with this number.
    pub(crate) fn make<C: Call<M, L>>(&mut self, by: u32, media: &M, call: C) -> C::Answer
        requires library { media.now ≡ self.old.library }
        requires asks { (kept : KeptOf M) × C.asks call (at_board by kept self.old) }
        ensures told { (kept : KeptOf M) → C.told call (at_board by kept self.old) (at_board by kept self.new) result }
        ensures grows { Grows by self.old self.new }
    {
        call.make(by, media, &mut self.board)
    }

    /// Ends a board without entries, of which no studio was made.
    pub(crate) fn stop(self, stopper: Stopper)
        requires { self.journal ≡ [] }
    {
        let Shared { mut board } = self;
        board.stop(0, stopper);
    }

    /// The journal, by move.
    pub(crate) fn into_journal(self) -> Journal
        ensures { result ≡ self.journal }
    {
        let Shared { board } = self;
        board.into_journal()
    }
}
