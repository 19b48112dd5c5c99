//! Reading bits. RFC 9043 section 3.8.1.1.
ghost use Rattle.std.specs.Prelude.{◌≡◌, ℕ, ◌+◌, ◌-◌, ◌<◌, ◌≤◌, true, false, List, length, slice_index};
ghost use Rattle.ffv1_range.specs.Transition.{IsKept, AllKept, next_state};
ghost use Rattle.ffv1_range.specs.Reading.{bit_of, narrowed, renewed, after_bit};
ghost use Rattle.ffv1_range.specs.Symbol.{Reads, bit_at_place, after_place};
ghost use Rattle.ffv1_range.specs.Position.{reading_at, source_at, IsSound};

use crate::reader::Position;
use crate::transition::Transition;

/// A bit that was read, the state after it, and where the reader then stands.
#[derive(Clone, Copy)]
pub(crate) struct BitRead {
    pub(crate) bit: bool,
    pub(crate) state: u8,
    pub(crate) at: Position,
}

// The byte at a place, and 0 after the end.
#[inline(always)]
pub(crate) fn byte_at(bytes: &[u8], place: usize) -> u32
    ensures byte { result ≡ slice_index bytes.now place }
    ensures small { result < 256 }
{
    if place < bytes.len() {
        u32::from(bytes[place])
    } else {
        0
    }
}

// One more byte where the range has fallen below 256.
#[inline(always)]
#[tactic(auto, unfolding(crate::specs::Reading::renewed))]
fn renew(bytes: &[u8], at: Position) -> Position
    requires range { 0 < at.range }
    requires narrow { at.range ≤ 0xFF00 }
    requires within { at.low ≤ at.range }
    requires ended { at.low ≡ at.range → length bytes.now ≤ at.taken }
    ensures at { (table : List ℕ) → reading_at table bytes.now result ≡ renewed (reading_at table bytes.now at) }
    ensures sound { IsSound bytes.now result }
{
    if at.range < 256 {
        Position {
            range: 256 * at.range,
            low: 256 * at.low + byte_at(bytes, at.taken),
            taken: at.taken.saturating_add(1),
        }
    } else {
        at
    }
}

/// A bit, and the range and low of the part that it chooses.
#[derive(Clone, Copy)]
struct Part {
    bit: bool,
    range: u32,
    low: u32,
}

// The part that a state's bit chooses.
#[inline(always)]
#[tactic(auto, unfolding(crate::specs::Reading::bit_of, crate::specs::Reading::narrowed), using(crate::proofs::Stream::one_part_lt))]
fn part_of(at: Position, state: u8) -> Part
    requires some { 0 < state }
    requires wide { 256 ≤ at.range }
    requires narrow { at.range ≤ 0xFF00 }
    requires within { at.low ≤ at.range }
    ensures bit { (table bytes : List ℕ) → result.bit ≡ bit_of (reading_at table bytes at) state }
    ensures part { (table bytes : List ℕ) → reading_at table bytes (record at { range = result.range; low = result.low })
        ≡ narrowed (reading_at table bytes at) state }
    ensures range { 0 < result.range }
    ensures narrow { result.range ≤ 0xFF00 }
    ensures within { result.low ≤ result.range }
    ensures ended { result.low ≡ result.range → at.low ≡ at.range }
{
    let one = at.range * u32::from(state) / 256;
    let zero = at.range - one;
    if at.low < zero {
        Part {
            bit: false,
            range: zero,
            low: at.low,
        }
    } else {
        Part {
            bit: true,
            range: one,
            low: at.low - zero,
        }
    }
}

/// How a bit is read: with a branch on it or without one. The way is a type, so that each compiles to code of its own: told by a
/// `bool`, one function took a fifth more instructions for a sample.
pub(crate) trait BitWay {
    /// Reads one bit with a state.
    fn read(table: &Transition, bytes: &[u8], at: Position, state: u8) -> BitRead
        requires sound { IsSound bytes.now at }
        requires kept { IsKept table.now state }
        ensures bit { result.bit ≡ bit_of (reading_at table.now bytes.now at) state }
        ensures state { result.state ≡ next_state table.now state result.bit }
        ensures kept { IsKept table.now result.state }
        ensures at { reading_at table.now bytes.now result.at ≡ after_bit (reading_at table.now bytes.now at) state }
        ensures sound { IsSound bytes.now result.at };
}

/// With a branch on the bit.
pub(crate) struct Branching;

impl BitWay for Branching {
    #[inline(always)]
    #[tactic(auto, using(crate::proofs::Stream::one_part_lt), unfolding(crate::specs::Reading::bit_of, crate::specs::Reading::narrowed, crate::specs::Reading::after_bit))]
    fn read(table: &Transition, bytes: &[u8], at: Position, state: u8) -> BitRead {
        let one = at.range * u32::from(state) / 256;
        let zero = at.range - one;
        if at.low < zero {
            let narrow = Position {
                range: zero,
                low: at.low,
                taken: at.taken,
            };
            BitRead {
                bit: false,
                state: table.next(state, false),
                at: renew(bytes, narrow),
            }
        } else {
            let narrow = Position {
                range: one,
                low: at.low - zero,
                taken: at.taken,
            };
            BitRead {
                bit: true,
                state: table.next(state, true),
                at: renew(bytes, narrow),
            }
        }
    }
}

/// Without a branch on the bit, for one that is as likely 0 as 1.
pub(crate) struct Even;

impl BitWay for Even {
    #[inline(always)]
    #[tactic(auto, unfolding(crate::specs::Reading::after_bit))]
    fn read(table: &Transition, bytes: &[u8], at: Position, state: u8) -> BitRead {
        let part = part_of(at, table.kept(state));
        let narrow = Position {
            range: part.range,
            low: part.low,
            taken: at.taken,
        };
        BitRead {
            bit: part.bit,
            state: table.next(state, part.bit),
            at: renew(bytes, narrow),
        }
    }
}

// Reads the bit of a place in a set, by a way.
#[inline(always)]
#[tactic(auto, unfolding(crate::specs::Symbol::bit_at_place, crate::specs::Symbol::after_place))]
pub(crate) fn bit_at<W: BitWay>(
    table: &Transition,
    bytes: &[u8],
    at: &mut Position,
    states: &mut [u8; 32],
    place: usize,
) -> bool
    requires place { place < 32 }
    requires sound { IsSound bytes.now at.old }
    requires kept { AllKept table.now states.old }
    ensures bit { result ≡ bit_at_place (source_at table.now bytes.now at.old states.old) place }
    ensures after { source_at table.now bytes.now at.new states.new
        ≡ after_place (source_at table.now bytes.now at.old states.old) place }
    ensures sound { IsSound bytes.now at.new }
    ensures kept { AllKept table.now states.new }
{
    let read = W::read(table, bytes, *at, states[place]);
    states[place] = read.state;
    *at = read.at;
    read.bit
}
