//! Writing bits and symbols. RFC 9043 sections 3.8.1.1 and 3.8.1.2.
ghost use Rattle.std.specs.Prelude.{◌≡◌, ℕ, ◌+◌, ◌*◌, ◌/◌, ◌^◌, ◌<◌, ◌≤◌, if◌then◌else◌, IfOk, OnOk, OnErr, List, [], ◌∷◌, ◌++◌, true, false, length, replicate, slice_index, take, min, nat_abs, vec_len};
ghost use Rattle.ffv1_range.specs.Transition.{IsTransition, IsKept, AllKept, next_state, moved};
ghost use Rattle.ffv1_range.specs.Writing.{started, put, put_all, part, with_sentinel};
ghost use Rattle.ffv1_range.specs.Symbol.{spelling, magnitude_bits, exponent_of, is_negative, with_states, set_after, ones, low_bits};
ghost use Rattle.ffv1_range.specs.Law.{IsSpelled, IsReadBack};
ghost use Rattle.ffv1_range.specs.Cursor.{writing_at, IsSound};

use crate::cursor::{Cursor, end, put_sentinel, write_bit};
use crate::states::States;
use crate::transition::Transition;
use std::alloc::{AllocError, Global};
use std::marker::Model;

// The most bits that a symbol has: one for 0, 32 of an exponent, 31 of a magnitude and a sign.
const SYMBOL_BITS: usize = 65;

/// A writer of range-coded bits.
#[derive(Drop)]
pub struct RangeWriter<'a> {
    table: &'a Transition,
    bytes: Vec<u8>,
    at: Cursor,
}

// Clauses see the table, the range, the one number that the bits narrow, and the count of its bytes.
impl<'a> Model for RangeWriter<'a> {
    ghost use Rattle.ffv1_range.specs.Writing.{Writing};
    ghost use Rattle.ffv1_range.specs.Cursor.{writing_at, IsSound};

    ghost Value = { Writing };

    ghost view = { λ a. writing_at a.table.now a.bytes.items a.at };

    ghost invariant = { λ a. IsSound a.bytes.items a.at };
}

impl<'a> RangeWriter<'a> {
    /// A writer of no bits.
    #[tactic(auto, unfolding(crate::specs::Writing::started))]
    pub fn start(alloc: Global, table: &'a Transition) -> RangeWriter<'a>
        ensures writing { result ≡ started table.now }
        ensures table { result.table ≡ table.now }
        ensures sound { IsTransition result.table }
        ensures fresh { AllKept result.table (replicate 32 128) }
    {
        let keeps_first = table.keeps(128);
        prove!(keeps_first);
        RangeWriter {
            table,
            bytes: Vec::new(alloc),
            at: Cursor {
                range: 0xFF00,
                low: 0,
                used: 0,
            },
        }
    }

    /// Writes one bit with a state, which moves by the table. It puts at most one byte. Want of memory leaves the writer and the
    /// state as they were.
    #[inline]
    pub fn bit(&mut self, state: &mut u8, bit: bool) -> Result<(), AllocError>
        requires { IsKept self.old.table state.old }
        ensures ok { OnOk result (self.new ≡ put self.old state.old bit) }
        ensures state { OnOk result (state.new ≡ next_state self.old.table state.old bit) }
        ensures table { self.new.table ≡ self.old.table }
        ensures kept { IsKept self.new.table state.new }
        ensures err { OnErr result ((self.new ≡ self.old) × (state.new ≡ state.old)) }
    {
        make_room(&mut self.bytes, self.at.used, 1)?;
        let next = self.table.next(*state, bit);
        self.at = write_bit(self.bytes.as_mut_slice(), self.at, *state, bit);
        *state = next;
        Ok(())
    }

    /// Writes a one-bit field: a bit with the first state of a set. Want of memory leaves the writer and the set as they were.
    pub fn flag(&mut self, set: &mut States, bit: bool) -> Result<(), AllocError>
        requires { AllKept self.old.table set.old }
        ensures ok { OnOk result (self.new ≡ put_all self.old (with_states self.old.table set.old ((0, bit) ∷ []))) }
        ensures set { OnOk result (set.new ≡ set_after self.old.table set.old ((0, bit) ∷ [])) }
        ensures table { self.new.table ≡ self.old.table }
        ensures kept { AllKept self.new.table set.new }
        ensures err { OnErr result ((self.new ≡ self.old) × (set.new ≡ set.old)) }
    {
        make_room(&mut self.bytes, self.at.used, 1)?;
        let mut at = self.at;
        bit_at(
            self.table,
            self.bytes.as_mut_slice(),
            &mut at,
            &mut set.states,
            0,
            bit,
        );
        self.at = at;
        Ok(())
    }

    /// Writes a value's symbol with a set of states, a signed one with its sign. Want of memory leaves the writer and the set as
    /// they were.
    pub fn symbol(&mut self, set: &mut States, value: i64, signed: bool) -> Result<(), AllocError>
        requires kept { AllKept self.old.table set.old }
        requires spelled { IsSpelled value signed }
        ensures ok { OnOk result (self.new ≡ put_all self.old (with_states self.old.table set.old (spelling value signed))) }
        ensures set { OnOk result (set.new ≡ set_after self.old.table set.old (spelling value signed)) }
        ensures table { self.new.table ≡ self.old.table }
        ensures kept { AllKept self.new.table set.new }
        ensures err { OnErr result ((self.new ≡ self.old) × (set.new ≡ set.old)) }
    {
        make_room(&mut self.bytes, self.at.used, SYMBOL_BITS)?;
        let mut at = self.at;
        symbol_into(
            self.table,
            self.bytes.as_mut_slice(),
            &mut at,
            &mut set.states,
            value,
            signed,
        );
        self.at = at;
        Ok(())
    }

    /// The bytes of what was written, in Sentinel mode after a bit 0 with state 129. In Closed mode its bytes alone are read again
    /// as the bits, and zeros after them; in Sentinel mode whatever bytes may follow. RFC 9043 section 3.8.1.1.1.
    pub fn finish(self, sentinel: bool) -> Result<Vec<u8>, AllocError>
        ensures bytes { IfOk result (λ bytes. bytes.items ≡ part (if sentinel then with_sentinel self.entry else self.entry)) }
        ensures read_back { IfOk result (λ bytes. IsReadBack sentinel self.entry bytes.items) }
    {
        let bytes = self.ended(sentinel)?;
        Ok(bytes)
    }

    fn ended(self, sentinel: bool) -> Result<Vec<u8>, AllocError>
        ensures { IfOk result (λ bytes. bytes.items ≡ part (if sentinel then with_sentinel self.entry else self.entry)) }
    {
        let RangeWriter {
            table: _,
            mut bytes,
            at,
        } = self;
        make_room(&mut bytes, at.used, 2)?;
        let at = put_sentinel(bytes.as_mut_slice(), at, sentinel);
        end(bytes.as_mut_slice(), at);
        bytes.truncate(at.used + 1);
        Ok(bytes)
    }
}

// Sees to it that more bytes can be put behind those that are used. The buffer grows by half of its length.
#[inline]
fn make_room(bytes: &mut Vec<u8>, used: usize, more: usize) -> Result<(), AllocError>
    requires used { used ≤ vec_len bytes.old }
    requires more { more ≤ SYMBOL_BITS }
    ensures room { OnOk result (used + more ≤ vec_len bytes.new) }
    ensures longer { vec_len bytes.old ≤ vec_len bytes.new }
    ensures same { take used bytes.new.items ≡ take used bytes.old.items }
{
    let len = bytes.len();
    if len - used < more {
        bytes.resize(len + len / 2 + SYMBOL_BITS, 0)?;
    }
    Ok(())
}

// Writes the bit of a place in a set.
#[inline(always)]
fn bit_at(
    table: &Transition,
    bytes: &mut [u8],
    at: &mut Cursor,
    states: &mut [u8; 32],
    place: usize,
    bit: bool,
)
    requires place { place < 32 }
    requires sound { IsSound bytes.old at.old }
    requires room { at.old.used < length bytes.old }
    requires kept { AllKept table.now states.old }
    ensures at { writing_at table.now bytes.new at.new ≡ put (writing_at table.now bytes.old at.old) (slice_index states.old place) bit }
    ensures states { states.new ≡ moved table.now states.old place bit }
    ensures sound { IsSound bytes.new at.new }
    ensures used { at.new.used ≤ at.old.used + 1 }
    ensures kept { AllKept table.now states.new }
{
    let state = states[place];
    states[place] = table.next(state, bit);
    *at = write_bit(bytes, *at, state, bit);
}

// Writes a value's symbol.
#[inline(always)]
fn symbol_into(
    table: &Transition,
    bytes: &mut [u8],
    at: &mut Cursor,
    states: &mut [u8; 32],
    value: i64,
    signed: bool,
)
    requires spelled { IsSpelled value signed }
    requires sound { IsSound bytes.old at.old }
    requires room { at.old.used + SYMBOL_BITS ≤ length bytes.old }
    requires kept { AllKept table.now states.old }
    ensures at { writing_at table.now bytes.new at.new ≡ put_all (writing_at table.now bytes.old at.old)
        (with_states table.now states.old (spelling value signed)) }
    ensures states { states.new ≡ set_after table.now states.old (spelling value signed) }
    ensures sound { IsSound bytes.new at.new }
    ensures kept { AllKept table.now states.new }
{
    let magnitude = magnitude_of(value);
    bit_at(table, bytes, at, states, 0, magnitude == 0);
    if magnitude > 0 {
        let exponent = exponent(magnitude);
        magnitude_into(table, bytes, at, states, exponent, magnitude);
        if signed {
            let place = 11 + exponent.min(10) as usize;
            bit_at(table, bytes, at, states, place, is_negative(value));
        }
    }
}

fn magnitude_of(value: i64) -> u32
    requires { nat_abs value < 2 ^ 32 }
    ensures { result ≡ nat_abs value }
{
    value.unsigned_abs() as u32
}

fn is_negative(value: i64) -> bool
    ensures { result ≡ is_negative value }
{
    value < 0
}

// The place of the highest 1.
fn exponent(magnitude: u32) -> u32
    requires { 0 < magnitude }
    ensures exponent { result ≡ exponent_of magnitude }
    ensures small { result < 32 }
{
    magnitude.ilog2()
}

// Writes a magnitude above 0.
#[inline(always)]
fn magnitude_into(
    table: &Transition,
    bytes: &mut [u8],
    at: &mut Cursor,
    states: &mut [u8; 32],
    exponent: u32,
    magnitude: u32,
)
    requires exponent { exponent ≡ exponent_of magnitude }
    requires small { exponent < 32 }
    requires sound { IsSound bytes.old at.old }
    requires room { at.old.used + 2 * exponent < length bytes.old }
    requires kept { AllKept table.now states.old }
    ensures at { writing_at table.now bytes.new at.new ≡ put_all (writing_at table.now bytes.old at.old)
        (with_states table.now states.old (magnitude_bits magnitude)) }
    ensures states { states.new ≡ set_after table.now states.old (magnitude_bits magnitude) }
    ensures sound { IsSound bytes.new at.new }
    ensures used { at.new.used ≤ at.old.used + 2 * exponent + 1 }
    ensures kept { AllKept table.now states.new }
{
    exponent_into(table, bytes, at, states, exponent);
    low_bits_into(table, bytes, at, states, exponent, magnitude);
}

// Writes an exponent: so many ones, and a zero.
#[inline(always)]
fn exponent_into(
    table: &Transition,
    bytes: &mut [u8],
    at: &mut Cursor,
    states: &mut [u8; 32],
    exponent: u32,
)
    requires exponent { exponent < 32 }
    requires sound { IsSound bytes.old at.old }
    requires room { at.old.used + exponent < length bytes.old }
    requires kept { AllKept table.now states.old }
    ensures at { writing_at table.now bytes.new at.new ≡ put_all (writing_at table.now bytes.old at.old)
        (with_states table.now states.old (ones 0 exponent ++ (1 + min exponent 9, false) ∷ [])) }
    ensures states { states.new ≡ set_after table.now states.old (ones 0 exponent ++ (1 + min exponent 9, false) ∷ []) }
    ensures sound { IsSound bytes.new at.new }
    ensures used { at.new.used ≤ at.old.used + exponent + 1 }
    ensures kept { AllKept table.now states.new }
{
    for i in 0..exponent as usize {
        bit_at(table, bytes, at, states, 1 + i.min(9), true);
    }
    bit_at(
        table,
        bytes,
        at,
        states,
        1 + exponent.min(9) as usize,
        false,
    );
}

// Writes the bits below the highest 1 of a magnitude.
#[inline(always)]
fn low_bits_into(
    table: &Transition,
    bytes: &mut [u8],
    at: &mut Cursor,
    states: &mut [u8; 32],
    exponent: u32,
    magnitude: u32,
)
    requires exponent { exponent < 32 }
    requires sound { IsSound bytes.old at.old }
    requires room { at.old.used + exponent ≤ length bytes.old }
    requires kept { AllKept table.now states.old }
    ensures at { writing_at table.now bytes.new at.new ≡ put_all (writing_at table.now bytes.old at.old)
        (with_states table.now states.old (low_bits exponent magnitude)) }
    ensures states { states.new ≡ set_after table.now states.old (low_bits exponent magnitude) }
    ensures sound { IsSound bytes.new at.new }
    ensures used { at.new.used ≤ at.old.used + exponent }
    ensures kept { AllKept table.now states.new }
{
    for i in (0..exponent).rev() {
        bit_at(
            table,
            bytes,
            at,
            states,
            22 + i.min(9) as usize,
            magnitude >> i & 1 == 1,
        );
    }
}
