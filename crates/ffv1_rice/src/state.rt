//! The state of a context, and the differences that it codes. RFC 9043 sections 3.8.2.2 and 3.8.2.3.
ghost use Rattle.std.specs.Prelude.{◌≡◌, ℕ, ◌+◌, ◌*◌, ◌^◌, ◌<◌, ◌≤◌, ◌<ℤ◌, ◌≤ℤ◌, ◌+ℤ◌, ◌-ℤ◌, ◌*ℤ◌, pos, negsuc, neg_ℤ, ◌++◌, IfOk, OnOk, OnErr, Some, None, int_lt};
ghost use Rattle.std.specs.Int.{int_min, int_max};
ghost use Rattle.ffv1_rice.specs.Code.{signed_of, unsigned_of};
ghost use Rattle.ffv1_rice.specs.State.{IsState, fresh, parameter, turned, summed, halved, counted, corrected, updated, difference_at, difference_bits, state_after};
ghost use Rattle.ffv1_rice.specs.Tally.{state_of};

use crate::code::{power, put_code};
use crate::reader::BitReader;
use crate::writer::BitWriter;
use std::alloc::AllocError;
use std::marker::Model;
use tl_base::fold8;

/// A residual outside of -128 to 127.
#[derive(Clone, Copy, Debug, PartialEq, Eq)]
pub struct OutOfRange;

/// What a state keeps of the residuals before.
#[derive(Clone, Copy)]
pub(crate) struct Tally {
    pub(crate) drift: i32,
    pub(crate) error_sum: u32,
    pub(crate) bias: i32,
    pub(crate) count: u32,
}

// The count at which a state is halved.
const FULL_COUNT: u32 = 128;

/// The state of a context.
#[derive(Clone, Copy, Drop)]
pub struct VlcState {
    pub(crate) tally: Tally,
}

// Clauses see the four numbers.
impl Model for VlcState {
    ghost use Rattle.ffv1_rice.specs.State.{State, IsState};
    ghost use Rattle.ffv1_rice.specs.Tally.{state_of};

    ghost Value = { State };

    ghost view = { λ a. state_of a.tally };

    ghost invariant = { λ a. IsState (state_of a.tally) };

    ghost inverse = { λ s. record { tally = record { drift = s.drift; error_sum = s.error_sum; bias = s.bias; count = s.count } } };
}

impl VlcState {
    /// The state that each context starts with.
    #[tactic(auto, unfolding(crate::specs::State::fresh))]
    pub fn fresh() -> VlcState
        ensures { result ≡ fresh }
    {
        VlcState {
            tally: Tally {
                drift: 0,
                error_sum: 4,
                bias: 0,
                count: 1,
            },
        }
    }

    /// Reads the difference of a sample, from -128 to 127. `OutOfRange` comes exactly where the residual lies outside of -128 to
    /// 127; the state and the reader then stay as they were.
    #[inline(always)]
    pub fn read(&mut self, bits: &mut BitReader) -> Result<i32, OutOfRange>
        ensures ok { IfOk result (λ d. difference_at self.old bits.old
            ≡ Some (record { value = d; state = self.new; reading = bits.new })) }
        ensures err { OnErr result (difference_at self.old bits.old ≡ None) }
        ensures state { OnErr result (self.new ≡ self.old) }
        ensures reader { OnErr result (bits.new ≡ bits.old) }
        ensures least { IfOk result (λ d. negsuc 127 ≤ℤ d) }
        ensures most { IfOk result (λ d. d ≤ℤ pos 127) }
    {
        let code = bits.next_code(parameter_of(self.tally));
        if code.number > 255 {
            return Err(OutOfRange);
        }
        bits.skip(code.length);
        let residual = turn(self.tally, signed(code.number));
        let difference = fold8(residual + self.tally.bias);
        self.tally = update(self.tally, residual);
        Ok(difference)
    }

    /// Writes the difference of a sample, from -128 to 127. Want of memory leaves the state and the writer as they were.
    #[inline]
    pub fn write(&mut self, bits: &mut BitWriter, difference: i32) -> Result<(), AllocError>
        requires least { negsuc 127 ≤ℤ difference }
        requires most { difference ≤ℤ pos 127 }
        ensures bits { OnOk result (bits.new ≡ bits.old ++ difference_bits self.old difference) }
        ensures state { OnOk result (self.new ≡ state_after self.old difference) }
        ensures bits_stay { OnErr result (bits.new ≡ bits.old) }
        ensures state_stays { OnErr result (self.new ≡ self.old) }
    {
        let residual = fold8(difference - self.tally.bias);
        let number = unsigned(turn(self.tally, residual));
        put_code(bits, parameter_of(self.tally), number)?;
        self.tally = update(self.tally, residual);
        Ok(())
    }
}

// The parameter of the next code.
#[inline(always)]
fn parameter_of(tally: Tally) -> u32
    requires { IsState (state_of tally) }
    ensures parameter { result ≡ parameter (state_of tally) }
    ensures small { result ≤ 8 }
{
    let sum = tally.error_sum;
    let k = tally
        .count
        .leading_zeros()
        .saturating_sub(sum.leading_zeros());
    if tally.count * power(k) < sum {
        k + 1
    } else {
        k
    }
}

// The signed number of a number.
#[inline(always)]
fn signed(u: u32) -> i32
    requires { u ≤ 255 }
    ensures { result ≡ signed_of u }
{
    if u % 2 == 1 {
        -1 - (u / 2) as i32
    } else {
        (u / 2) as i32
    }
}

// The number of a signed number.
#[inline(always)]
fn unsigned(v: i32) -> u32
    requires least { negsuc 127 ≤ℤ v }
    requires most { v ≤ℤ pos 127 }
    ensures number { result ≡ unsigned_of v }
    ensures small { result < 256 }
{
    if v < 0 {
        2 * (-1 - v) as u32 + 1
    } else {
        2 * v as u32
    }
}

// A residual, or what is coded for it.
#[inline(always)]
#[tactic(auto, unfolding(crate::specs::State::turned))]
fn turn(tally: Tally, v: i32) -> i32
    requires state { IsState (state_of tally) }
    requires least { negsuc 127 ≤ℤ v }
    requires most { v ≤ℤ pos 127 }
    ensures turned { result ≡ turned (state_of tally) v }
    ensures least { negsuc 127 ≤ℤ result }
    ensures most { result ≤ℤ pos 127 }
{
    if leans_low(tally.drift, tally.count) {
        -1 - v
    } else {
        v
    }
}

// A drift below half the negative count.
#[inline(always)]
fn leans_low(drift: i32, count: u32) -> bool
    requires few { count ≤ 128 }
    requires least { negsuc 127 ≤ℤ drift }
    requires most { drift ≤ℤ pos 127 }
    ensures { result ≡ int_lt (pos 2 *ℤ drift) (neg_ℤ (pos count)) }
{
    2 * drift + (count as i32) < 0
}

// Brings a state up to date with a residual.
#[inline(always)]
#[tactic(auto, unfolding(crate::specs::State::updated, crate::specs::State::halved, crate::specs::State::summed))]
fn update(tally: Tally, v: i32) -> Tally
    requires state { IsState (state_of tally) }
    requires least { negsuc 127 ≤ℤ v }
    requires most { v ≤ℤ pos 127 }
    ensures updated { state_of result ≡ updated (state_of tally) v }
    ensures state { IsState (state_of result) }
{
    let added = sum_up(tally, v);
    if added.count == FULL_COUNT {
        correct(count_one(half(added)))
    } else {
        correct(count_one(added))
    }
}

#[inline(always)]
#[tactic(auto, unfolding(crate::specs::State::summed))]
fn sum_up(tally: Tally, v: i32) -> Tally
    requires state { IsState (state_of tally) }
    requires least { negsuc 127 ≤ℤ v }
    requires most { v ≤ℤ pos 127 }
    ensures summed { state_of result ≡ summed (state_of tally) v }
    ensures count { result.count ≡ tally.count }
    ensures error_sum { result.error_sum ≤ 132 + 128 * tally.count }
    ensures drift_above { negsuc 255 ≤ℤ result.drift }
    ensures drift_most { result.drift ≤ℤ pos 127 }
    ensures bias { result.bias ≡ tally.bias }
{
    Tally {
        drift: tally.drift + v,
        error_sum: tally.error_sum + v.unsigned_abs(),
        ..tally
    }
}

// Half of each sum, rounded down.
#[inline(always)]
#[tactic(auto, unfolding(crate::specs::State::halved))]
fn half(tally: Tally) -> Tally
    requires full { tally.count ≡ 128 }
    requires error_sum { tally.error_sum ≤ 132 + 128 * 128 }
    requires drift_above { negsuc 255 ≤ℤ tally.drift }
    requires drift_most { tally.drift ≤ℤ pos 127 }
    ensures halved { state_of result ≡ halved (state_of tally) }
    ensures count { result.count ≡ 64 }
    ensures error_sum { result.error_sum ≤ 132 + 128 * 64 }
    ensures drift_above { negsuc 255 ≤ℤ result.drift }
    ensures drift_most { result.drift ≤ℤ pos 127 }
    ensures bias { result.bias ≡ tally.bias }
{
    Tally {
        drift: tally.drift >> 1,
        error_sum: tally.error_sum / 2,
        bias: tally.bias,
        count: tally.count / 2,
    }
}

#[inline(always)]
#[tactic(auto, unfolding(crate::specs::State::counted))]
fn count_one(tally: Tally) -> Tally
    requires { tally.count < 128 }
    ensures counted { state_of result ≡ counted (state_of tally) }
    ensures count { result.count ≡ tally.count + 1 }
    ensures drift { result.drift ≡ tally.drift }
    ensures error_sum { result.error_sum ≡ tally.error_sum }
    ensures bias { result.bias ≡ tally.bias }
{
    Tally {
        count: tally.count + 1,
        ..tally
    }
}

// The bias follows the drift, which is brought back.
#[inline(always)]
#[tactic(auto, unfolding(crate::specs::State::corrected))]
fn correct(tally: Tally) -> Tally
    requires some { 1 < tally.count }
    requires few { tally.count ≤ 128 }
    requires error_sum { tally.error_sum ≤ 4 + 128 * tally.count }
    requires drift_above { negsuc 255 ≤ℤ tally.drift }
    requires drift_most { tally.drift ≤ℤ pos 127 }
    requires bias_least { negsuc 127 ≤ℤ tally.bias }
    requires bias_most { tally.bias ≤ℤ pos 127 }
    ensures corrected { state_of result ≡ corrected (state_of tally) }
    ensures state { IsState (state_of result) }
{
    let count = tally.count as i32;
    if tally.drift <= -count {
        Tally {
            bias: lowered_bias(tally.bias),
            drift: raised_drift(tally.drift, count),
            ..tally
        }
    } else if tally.drift > 0 {
        Tally {
            bias: raised_bias(tally.bias),
            drift: lowered_drift(tally.drift, count),
            ..tally
        }
    } else {
        tally
    }
}

#[inline(always)]
fn lowered_bias(bias: i32) -> i32
    requires least { negsuc 127 ≤ℤ bias }
    requires most { bias ≤ℤ pos 127 }
    ensures bias { result ≡ int_max (bias -ℤ pos 1) (negsuc 127) }
    ensures least { negsuc 127 ≤ℤ result }
    ensures most { result ≤ℤ pos 127 }
{
    (bias - 1).max(-128)
}

#[inline(always)]
fn raised_bias(bias: i32) -> i32
    requires least { negsuc 127 ≤ℤ bias }
    requires most { bias ≤ℤ pos 127 }
    ensures bias { result ≡ int_min (bias +ℤ pos 1) (pos 127) }
    ensures least { negsuc 127 ≤ℤ result }
    ensures most { result ≤ℤ pos 127 }
{
    (bias + 1).min(127)
}

#[inline(always)]
fn raised_drift(drift: i32, count: i32) -> i32
    requires few { count ≤ℤ pos 128 }
    requires some { pos 1 ≤ℤ count }
    requires least { negsuc 255 ≤ℤ drift }
    requires low { drift ≤ℤ neg_ℤ count }
    ensures drift { result ≡ int_max (drift +ℤ count) (pos 1 -ℤ count) }
    ensures above { neg_ℤ count <ℤ result }
    ensures most { result ≤ℤ pos 0 }
{
    (drift + count).max(1 - count)
}

#[inline(always)]
fn lowered_drift(drift: i32, count: i32) -> i32
    requires few { count ≤ℤ pos 128 }
    requires some { pos 1 ≤ℤ count }
    requires high { pos 0 <ℤ drift }
    requires most { drift ≤ℤ pos 127 }
    ensures drift { result ≡ int_min (drift -ℤ count) (pos 0) }
    ensures above { neg_ℤ count <ℤ result }
    ensures most { result ≤ℤ pos 0 }
{
    (drift - count).min(0)
}
