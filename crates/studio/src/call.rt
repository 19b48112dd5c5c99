//! A call of a board, as one value.

ghost use Rattle.std.specs.Prelude.{◌≡◌};
ghost use Rattle.edit_desk.specs.Desk.{DeskOf, Learns, IsDesk};
ghost use Rattle.edit_desk.specs.Alone.{at_board};
ghost use Rattle.studio.specs.Known.{KeptOf};
ghost use Rattle.studio.specs.Grows.{Grows};

use render_core::Board;
use time_list::Lane;
use tl_model::Media;

/// A call that its caller makes while it holds the turn.
pub(crate) trait Call<M: Media, L: Lane> {
    /// What the call answers.
    type Answer;

    /// What it spends, which comes back where it isn't made.
    type Spent;

    ghost spent: { Self → Self.Spent };

    /// What it asks of what its caller has seen.
    ghost asks: { Self → DeskOf M (KeptOf M) → Type 0 };

    /// What its caller is told, of what was seen before and of what was seen after.
    ghost told: { Self → DeskOf M (KeptOf M) → DeskOf M (KeptOf M) → Self.Answer → Type 0 };

    /// Makes the call.
    fn make(self, by: u32, media: &M, board: &mut Board<M, L>) -> Self::Answer
        requires library { media.now ≡ board.old.library }
        requires asks { (kept : KeptOf M) × asks self (at_board by kept board.old) }
        ensures told { (kept : KeptOf M) → told self (at_board by kept board.old) (at_board by kept board.new) result }
        ensures grows { Grows by board.old board.new };

    /// What it would have spent.
    fn back(self) -> Self::Spent
        ensures { result ≡ spent self };

    /// Entries of others take nothing from what it asks.
    ghost lasts: { (call : Self) (old new : DeskOf M (KeptOf M)) → Learns old new → IsDesk M.library new
        → asks call old → asks call new };

    /// What is told after entries of others is told of what was seen before them.
    ghost later: { (call : Self) (old mid new : DeskOf M (KeptOf M)) (answer : Self.Answer) → Learns old mid
        → told call mid new answer → told call old new answer };
}
