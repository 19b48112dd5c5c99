//! Reading symbols. RFC 9043 section 3.8.1.2.
ghost use Rattle.std.specs.Prelude.{◌≡◌, ◌+◌, ◌-◌, ◌*◌, ◌<◌, ◌≤◌, ◌^◌, min, IfSome, IsTrue, None, Some, false, if◌then◌else◌, nat_abs, neg_ℤ};
ghost use Rattle.ffv1_range.specs.Transition.{AllKept};
ghost use Rattle.ffv1_range.specs.Symbol.{Reads, exponent_at, magnitude_at, signed_at, value_at, symbol_at};
ghost use Rattle.ffv1_range.specs.Position.{source_at, IsSound};

use crate::read_bit::{Branching, Even, bit_at};
use crate::reader::Position;
use crate::transition::Transition;

// Reads bit i of an exponent: whether it is a 1, so that the exponent is larger.
#[inline(always)]
#[tactic(auto, using(crate::proofs::Steps::exponent_at_one, crate::proofs::Steps::exponent_at_zero))]
fn goes_on(
    table: &Transition,
    bytes: &[u8],
    at: &mut Position,
    states: &mut [u8; 32],
    i: usize,
) -> bool
    requires few { i < 9 }
    requires sound { IsSound bytes.now at.old }
    requires kept { AllKept table.now states.old }
    ensures one { IsTrue result → exponent_at (32 - i) i (source_at table.now bytes.now at.old states.old)
        ≡ exponent_at (32 - (i + 1)) (i + 1) (source_at table.now bytes.now at.new states.new) }
    ensures zero { result ≡ false → exponent_at (32 - i) i (source_at table.now bytes.now at.old states.old)
        ≡ (Some i, source_at table.now bytes.now at.new states.new) }
    ensures sound { IsSound bytes.now at.new }
    ensures kept { AllKept table.now states.new }
{
    bit_at::<Branching>(table, bytes, at, states, 1 + i)
}

// Reads an exponent of 5 to 31, or none, after its first 5 bits.
fn long_exponent(
    table: &Transition,
    bytes: &[u8],
    at: &mut Position,
    states: &mut [u8; 32],
) -> Option<u32>
    requires sound { IsSound bytes.now at.old }
    requires kept { AllKept table.now states.old }
    ensures exponent { exponent_at 27 5 (source_at table.now bytes.now at.old states.old)
        ≡ (result, source_at table.now bytes.now at.new states.new) }
    ensures small { IfSome result (λ exponent. exponent < 32) }
    ensures sound { IsSound bytes.now at.new }
    ensures kept { AllKept table.now states.new }
{
    for i in 5..32usize {
        if !bit_at::<Branching>(table, bytes, at, states, 1 + i.min(9)) {
            return Some(i as u32);
        }
    }
    None
}

// Reads the bits below the highest 1 of a magnitude.
#[inline(always)]
fn magnitude_from(
    table: &Transition,
    bytes: &[u8],
    at: &mut Position,
    states: &mut [u8; 32],
    exponent: u32,
) -> u32
    requires exponent { exponent < 32 }
    requires sound { IsSound bytes.now at.old }
    requires kept { AllKept table.now states.old }
    ensures magnitude { magnitude_at exponent 1 (source_at table.now bytes.now at.old states.old)
        ≡ (result, source_at table.now bytes.now at.new states.new) }
    ensures sound { IsSound bytes.now at.new }
    ensures kept { AllKept table.now states.new }
{
    let mut magnitude = 1;
    for i in (0..exponent as usize).rev() {
        let bit = bit_at::<Even>(table, bytes, at, states, 22 + i.min(9));
        magnitude = 2 * magnitude + u32::from(bit);
    }
    magnitude
}

// Reads bit i of a magnitude behind those above it, where it has one: where its exponent is above i.
#[inline(always)]
fn bit_below(
    table: &Transition,
    bytes: &[u8],
    at: &mut Position,
    states: &mut [u8; 32],
    exponent: u32,
    i: u32,
    above: u32,
) -> u32
    requires few { i < 10 }
    requires small { above < 2 ^ 16 }
    requires sound { IsSound bytes.now at.old }
    requires kept { AllKept table.now states.old }
    ensures magnitude { magnitude_at (min exponent (i + 1)) above (source_at table.now bytes.now at.old states.old)
        ≡ magnitude_at (min exponent i) result (source_at table.now bytes.now at.new states.new) }
    ensures small { result ≤ 2 * above + 1 }
    ensures sound { IsSound bytes.now at.new }
    ensures kept { AllKept table.now states.new }
{
    if exponent <= i {
        return above;
    }
    let bit = bit_at::<Even>(table, bytes, at, states, 22 + i as usize);
    2 * above + 1 - u32::from(!bit)
}

// Reads the bits below the highest 1 of a magnitude with an exponent of at most 4.
#[inline(always)]
fn short_magnitude(
    table: &Transition,
    bytes: &[u8],
    at: &mut Position,
    states: &mut [u8; 32],
    exponent: u32,
) -> u32
    requires exponent { exponent < 5 }
    requires sound { IsSound bytes.now at.old }
    requires kept { AllKept table.now states.old }
    ensures magnitude { magnitude_at exponent 1 (source_at table.now bytes.now at.old states.old)
        ≡ (result, source_at table.now bytes.now at.new states.new) }
    ensures sound { IsSound bytes.now at.new }
    ensures kept { AllKept table.now states.new }
{
    let three = bit_below(table, bytes, at, states, exponent, 3, 1);
    let two = bit_below(table, bytes, at, states, exponent, 2, three);
    let one = bit_below(table, bytes, at, states, exponent, 1, two);
    bit_below(table, bytes, at, states, exponent, 0, one)
}

// Gives a magnitude its sign: that which is read behind it, for a signed value.
#[inline(always)]
fn signed_from(
    table: &Transition,
    bytes: &[u8],
    at: &mut Position,
    states: &mut [u8; 32],
    magnitude: u32,
    exponent: u32,
    signed: bool,
) -> i64
    requires sound { IsSound bytes.now at.old }
    requires kept { AllKept table.now states.old }
    ensures value { signed_at signed exponent (magnitude, source_at table.now bytes.now at.old states.old)
        ≡ (Some result, source_at table.now bytes.now at.new states.new) }
    ensures sound { IsSound bytes.now at.new }
    ensures kept { AllKept table.now states.new }
{
    if !signed {
        return i64::from(magnitude);
    }
    let place = 11 + exponent.min(10) as usize;
    let negative = bit_at::<Even>(table, bytes, at, states, place);
    with_sign(i64::from(magnitude), negative)
}

// Reads the rest of a value whose exponent begins with 5 bits 1, after these, or none where it is too long.
#[cold]
#[inline(never)]
fn long_value(
    table: &Transition,
    bytes: &[u8],
    at: &mut Position,
    states: &mut [u8; 32],
    signed: bool,
) -> Option<i64>
    requires sound { IsSound bytes.now at.old }
    requires kept { AllKept table.now states.old }
    ensures value { value_at signed (exponent_at 27 5 (source_at table.now bytes.now at.old states.old))
        ≡ (result, source_at table.now bytes.now at.new states.new) }
    ensures sound { IsSound bytes.now at.new }
    ensures kept { AllKept table.now states.new }
{
    let exponent = long_exponent(table, bytes, at, states)?;
    let magnitude = magnitude_from(table, bytes, at, states, exponent);
    Some(signed_from(table, bytes, at, states, magnitude, exponent, signed))
}

/// A value that was read, or none where it is too long, and where the reader then stands.
#[derive(Clone, Copy)]
struct ValueRead {
    value: Option<i64>,
    at: Position,
}

// Reads it from a place by value, so that the caller's own place need not lie in memory.
#[inline(always)]
fn long_value_from(
    table: &Transition,
    bytes: &[u8],
    at: Position,
    states: &mut [u8; 32],
    signed: bool,
) -> ValueRead
    requires sound { IsSound bytes.now at }
    requires kept { AllKept table.now states.old }
    ensures value { value_at signed (exponent_at 27 5 (source_at table.now bytes.now at states.old))
        ≡ (result.value, source_at table.now bytes.now result.at states.new) }
    ensures sound { IsSound bytes.now result.at }
    ensures kept { AllKept table.now states.new }
{
    let mut after = at;
    let value = long_value(table, bytes, &mut after, states, signed);
    ValueRead { value, at: after }
}

// Reads an exponent of at most 4, whose places are known here, or none where its first 5 bits are 1.
#[inline(always)]
fn short_exponent(
    table: &Transition,
    bytes: &[u8],
    at: &mut Position,
    states: &mut [u8; 32],
) -> Option<u32>
    requires sound { IsSound bytes.now at.old }
    requires kept { AllKept table.now states.old }
    ensures exponent { IfSome result (λ exponent. (exponent < 5)
        × (exponent_at 32 0 (source_at table.now bytes.now at.old states.old)
        ≡ (Some exponent, source_at table.now bytes.now at.new states.new))) }
    ensures long { result ≡ None → exponent_at 32 0 (source_at table.now bytes.now at.old states.old)
        ≡ exponent_at 27 5 (source_at table.now bytes.now at.new states.new) }
    ensures sound { IsSound bytes.now at.new }
    ensures kept { AllKept table.now states.new }
{
    if !goes_on(table, bytes, at, states, 0) {
        return Some(0);
    }
    if !goes_on(table, bytes, at, states, 1) {
        return Some(1);
    }
    if !goes_on(table, bytes, at, states, 2) {
        return Some(2);
    }
    if !goes_on(table, bytes, at, states, 3) {
        return Some(3);
    }
    if !goes_on(table, bytes, at, states, 4) {
        return Some(4);
    }
    None
}

// Reads a value that isn't 0, or none where it is too long. Most exponents are small.
#[inline(always)]
fn value_from(
    table: &Transition,
    bytes: &[u8],
    at: &mut Position,
    states: &mut [u8; 32],
    signed: bool,
) -> Option<i64>
    requires sound { IsSound bytes.now at.old }
    requires kept { AllKept table.now states.old }
    ensures value { value_at signed (exponent_at 32 0 (source_at table.now bytes.now at.old states.old))
        ≡ (result, source_at table.now bytes.now at.new states.new) }
    ensures sound { IsSound bytes.now at.new }
    ensures kept { AllKept table.now states.new }
{
    if let Some(exponent) = short_exponent(table, bytes, at, states) {
        let magnitude = short_magnitude(table, bytes, at, states, exponent);
        return Some(signed_from(table, bytes, at, states, magnitude, exponent, signed));
    }
    let read = long_value_from(table, bytes, *at, states, signed);
    *at = read.at;
    read.value
}

// Reads a symbol, or none where it is too long.
#[inline(always)]
#[tactic(auto, unfolding(crate::specs::Symbol::symbol_at))]
pub(crate) fn symbol_from(
    table: &Transition,
    bytes: &[u8],
    at: &mut Position,
    states: &mut [u8; 32],
    signed: bool,
) -> Option<i64>
    requires sound { IsSound bytes.now at.old }
    requires kept { AllKept table.now states.old }
    ensures symbol { symbol_at (source_at table.now bytes.now at.old states.old) signed
        ≡ (result, source_at table.now bytes.now at.new states.new) }
    ensures sound { IsSound bytes.now at.new }
    ensures kept { AllKept table.now states.new }
{
    if bit_at::<Branching>(table, bytes, at, states, 0) {
        return Some(0);
    }
    value_from(table, bytes, at, states, signed)
}

// A number or its negative.
#[inline(always)]
fn with_sign(magnitude: i64, negative: bool) -> i64
    requires { nat_abs magnitude < 2 ^ 32 }
    ensures { result ≡ (if negative then neg_ℤ magnitude else magnitude) }
{
    if negative { -magnitude } else { magnitude }
}
