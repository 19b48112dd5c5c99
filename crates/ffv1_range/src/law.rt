//! The laws of the range coder, about its definitions alone, and what `clone` and `==` answer.
ghost use Rattle.std.specs.Prelude.{◌≡◌, ℕ, List, true};
ghost use Rattle.ffv1_range.specs.declared.reader.TooLong.{TooLong};
ghost use Rattle.ffv1_range.specs.DefaultTransition.{default_state_transition};
ghost use Rattle.ffv1_range.specs.Law.{ReadsClosedMode, ReadsSentinelMode, ReadsSymbols, CodesInTurn, NoPrefix};

use crate::reader::TooLong;
use crate::states::States;
use crate::transition::DEFAULT_TRANSITION;

/// The default table is the one of the standard.
pub fn default_is_standard()
    ensures { DEFAULT_TRANSITION ≡ default_state_transition }
{}

/// In Closed mode reading what was written gives the bits back.
pub fn reads_closed_mode()
    ensures { ReadsClosedMode }
{}

/// In Sentinel mode, whatever bytes follow, reading gives the bits before the sentinel back, and takes one byte more than the part
/// has up to and with it.
pub fn reads_sentinel_mode()
    ensures { ReadsSentinelMode }
{}

/// A symbol is read as a value exactly where the value's spelling is read.
pub fn reads_symbols()
    ensures { ReadsSymbols }
{}

/// Where the bits of places are coded with the states of a set, they are read at these places.
pub fn codes_in_turn()
    ensures { CodesInTurn }
{}

/// No spelling begins another, nor does one begin as a symbol that is too long.
pub fn no_prefix()
    ensures { NoPrefix }
{}

/// The clone of a set of states is that set, and making it never fails. Each `TooLong` is equal to each.
pub fn clone_and_eq_are_exact()
    ensures clone { (set cloned : List ℕ) → ⟦<States as Clone>⟧.is_clone set cloned → cloned ≡ set }
    ensures succeeds { (set : List ℕ) → ⟦<States as Clone>⟧.is_infallible set }
    ensures too_long { (a b : TooLong) → ⟦<TooLong as PartialEq>⟧.eq a b ≡ true }
{}
