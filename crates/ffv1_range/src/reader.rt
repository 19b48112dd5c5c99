//! Reading bits and symbols. RFC 9043 sections 3.8.1.1 and 3.8.1.2.
ghost use Rattle.std.specs.Prelude.{◌≡◌, ◌+◌, ◌-◌, ◌<◌, IfOk, OnErr, true, false, replicate};
ghost use Rattle.std.specs.Result.{result_ok};
ghost use Rattle.ffv1_range.specs.Transition.{IsTransition, IsKept, AllKept, next_state};
ghost use Rattle.ffv1_range.specs.Reading.{opened, bit_of, after_bit};
ghost use Rattle.ffv1_range.specs.Symbol.{Reads, spelling, too_long, bit_at_place, after_place, symbol_at, source};
ghost use Rattle.ffv1_range.specs.Law.{IsSpelled};
ghost use Rattle.ffv1_range.specs.Position.{reading_at, IsSound};

use crate::read_bit::{BitWay, Branching, bit_at, byte_at};
use crate::read_symbol::symbol_from;
use crate::states::States;
use crate::transition::Transition;
use std::marker::Model;

/// A symbol whose exponent is over 31.
#[derive(Clone, Copy, Debug, PartialEq, Eq)]
pub struct TooLong;

/// Where a reader stands: the range, low within it, and how many bytes were taken.
#[derive(Clone, Copy)]
pub(crate) struct Position {
    pub(crate) range: u32,
    pub(crate) low: u32,
    pub(crate) taken: usize,
}

/// A reader of range-coded bits. Bytes after the end of its piece count as 0.
#[derive(Drop)]
pub struct RangeReader<'a> {
    table: &'a Transition,
    bytes: &'a [u8],
    pub(crate) at: Position,
}

// Clauses see the table, the range and low, the count of bytes taken, and the bytes that are left.
impl<'a> Model for RangeReader<'a> {
    ghost use Rattle.ffv1_range.specs.Reading.{Reading};
    ghost use Rattle.ffv1_range.specs.Position.{reading_at, IsSound};

    ghost Value = { Reading };

    ghost view = { λ a. reading_at a.table.now a.bytes.now a.at };

    ghost invariant = { λ a. IsSound a.bytes.now a.at };
}

impl<'a> RangeReader<'a> {
    /// A reader at the start of a piece. Where its first two bytes are FF 00 or more, all later bytes count as 0.
    #[tactic(auto, unfolding(crate::specs::Reading::opened))]
    pub fn over(bytes: &'a [u8], table: &'a Transition) -> RangeReader<'a>
        ensures reading { result ≡ opened table.now bytes.now }
        ensures table { result.table ≡ table.now }
        ensures sound { IsTransition result.table }
        ensures fresh { AllKept result.table (replicate 32 128) }
    {
        let keeps_first = table.keeps(128);
        prove!(keeps_first);
        let first = 256 * byte_at(bytes, 0) + byte_at(bytes, 1);
        let goes_on = first < 0xFF00;
        RangeReader {
            table,
            bytes: if goes_on { bytes } else { &bytes[..0] },
            at: Position {
                range: 0xFF00,
                low: first.min(0xFF00),
                taken: 2,
            },
        }
    }

    /// The bytes that were taken, those after the end too.
    pub fn taken(&self) -> u64
        ensures { result ≡ self.now.taken }
    {
        self.at.taken as u64
    }

    /// Reads one bit with a state, which moves by the table. Takes at most one byte.
    #[inline]
    pub fn bit(&mut self, state: &mut u8) -> bool
        requires { IsKept self.old.table state.old }
        ensures bit { result ≡ bit_of self.old state.old }
        ensures state { state.new ≡ next_state self.old.table state.old result }
        ensures table { self.new.table ≡ self.old.table }
        ensures kept { IsKept self.new.table state.new }
        ensures reader { self.new ≡ after_bit self.old state.old }
    {
        let read = Branching::read(self.table, self.bytes, self.at, *state);
        *state = read.state;
        self.at = read.at;
        read.bit
    }

    /// Reads a one-bit field: a bit with the first state of a set.
    #[tactic(auto, unfolding(crate::specs::Symbol::bit_at_place, crate::specs::Symbol::after_place))]
    pub fn flag(&mut self, set: &mut States) -> bool
        requires { AllKept self.old.table set.old }
        ensures bit { result ≡ bit_at_place (source self.old set.old) 0 }
        ensures after { source self.new set.new ≡ after_place (source self.old set.old) 0 }
        ensures table { self.new.table ≡ self.old.table }
        ensures kept { AllKept self.new.table set.new }
    {
        let mut at = self.at;
        let bit = bit_at::<Branching>(self.table, self.bytes, &mut at, &mut set.states, 0);
        self.at = at;
        bit
    }

    /// Reads a symbol with a set of states, a signed one with its sign. `TooLong` comes exactly at an exponent over 31; the
    /// reader then stands after the exponent's 32nd bit 1.
    #[inline(always)]
    pub fn symbol(&mut self, set: &mut States, signed: bool) -> Result<i64, TooLong>
        requires { AllKept self.old.table set.old }
        ensures symbol { symbol_at (source self.old set.old) signed ≡ (result_ok result, source self.new set.new) }
        ensures ok { IfOk result (λ value. IsSpelled value signed
            × Reads (source self.old set.old) (spelling value signed) (source self.new set.new)) }
        ensures err { OnErr result (Reads (source self.old set.old) too_long (source self.new set.new)) }
        ensures table { self.new.table ≡ self.old.table }
        ensures kept { AllKept self.new.table set.new }
    {
        self.symbol_or_none(set, signed).ok_or(TooLong)
    }

    #[inline(always)]
    fn symbol_or_none(&mut self, set: &mut States, signed: bool) -> Option<i64>
        requires { AllKept self.old.table set.old }
        ensures symbol { symbol_at (source self.old set.old) signed ≡ (result, source self.new set.new) }
        ensures table { self.new.table ≡ self.old.table }
        ensures kept { AllKept self.new.table set.new }
    {
        if signed {
            self.signed_or_none(set)
        } else {
            self.unsigned_or_none(set)
        }
    }

    #[inline(always)]
    fn signed_or_none(&mut self, set: &mut States) -> Option<i64>
        requires { AllKept self.old.table set.old }
        ensures symbol { symbol_at (source self.old set.old) true ≡ (result, source self.new set.new) }
        ensures table { self.new.table ≡ self.old.table }
        ensures kept { AllKept self.new.table set.new }
    {
        let mut at = self.at;
        let value = symbol_from(self.table, self.bytes, &mut at, &mut set.states, true);
        self.at = at;
        value
    }

    #[inline(never)]
    fn unsigned_or_none(&mut self, set: &mut States) -> Option<i64>
        requires { AllKept self.old.table set.old }
        ensures symbol { symbol_at (source self.old set.old) false ≡ (result, source self.new set.new) }
        ensures table { self.new.table ≡ self.old.table }
        ensures kept { AllKept self.new.table set.new }
    {
        let mut at = self.at;
        let value = symbol_from(self.table, self.bytes, &mut at, &mut set.states, false);
        self.at = at;
        value
    }
}
