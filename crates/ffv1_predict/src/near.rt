//! The neighbours of a sample. RFC 9043 sections 3.2 to 3.5.
ghost use Rattle.std.specs.Prelude.{◌≡◌, ◌^◌, ◌<◌, pos, negsuc, ◌+ℤ◌, ◌-ℤ◌, ◌≤ℤ◌, nat_abs, false};
ghost use Rattle.std.specs.Int.{int_rem_euclid};
ghost use Rattle.tl_base.specs.Arithmetic.{folded};
ghost use Rattle.ffv1_predict.specs.Near.{predicted, context, quantized, turned, coded, IsFlat, AreNear, IsRestored};

use tl_base::{fold8, median3};

/// The six neighbours of a sample, by the letters of RFC 9043 section 3.2: `tt` is its T, `ll` its L.
#[derive(Clone, Copy, Debug, PartialEq, Eq)]
pub struct Near {
    pub tt: u8,
    pub tl: u8,
    pub t: u8,
    pub tr: u8,
    pub ll: u8,
    pub l: u8,
}

impl Near {
    /// What is predicted: the median of `l`, `t` and `l + t - tl`. RFC 9043 section 3.3.
    #[inline]
    pub fn predicted(self) -> u8
        ensures { pos result ≡ predicted self }
    {
        let (l, t, tl) = (i32::from(self.l), i32::from(self.t), i32::from(self.tl));
        median3(l, t, l + t - tl) as u8
    }

    /// The context, by five quantization tables: the sum of their entries for five differences. RFC 9043 sections 3.4 and 3.5.
    #[inline]
    pub fn context(self, tables: &[[i16; 256]; 5]) -> i32
        ensures { result ≡ context tables.now self }
    {
        self.context_by(tables, true)
    }

    /// The same, where it is told whether the two far neighbours count: they don't where their tables are flat.
    #[inline(always)]
    pub fn context_by(self, tables: &[[i16; 256]; 5], far: bool) -> i32
        requires { far ≡ false → AreNear tables.now }
        ensures { result ≡ context tables.now self }
    {
        let [first, second, third, fourth, fifth] = tables;
        let above = sum(
            quantized(first, self.l, self.tl),
            quantized(second, self.tl, self.t),
            quantized(third, self.t, self.tr),
        );
        sum(
            above,
            quantized_by(fourth, self.ll, self.l, far),
            quantized_by(fifth, self.tt, self.t, far),
        )
    }

    /// The sample, from its context and the difference that was coded for it, which may have any size below 2 to the power 32.
    #[inline]
    pub fn restored(self, context: i32, difference: i64) -> u8
        requires { nat_abs difference < 2 ^ 32 }
        ensures { IsRestored context self difference result }
    {
        low_byte(i64::from(self.predicted()) + turned(context, difference))
    }

    /// The difference that is coded for a sample, from its context. RFC 9043 section 3.8.
    #[inline]
    pub fn coded(self, context: i32, sample: u8) -> i32
        ensures coded { result ≡ coded context self sample }
        ensures least { negsuc 127 ≤ℤ result }
        ensures most { result ≤ℤ pos 127 }
    {
        let difference = less(sample, self.predicted());
        folded(turned(context, difference))
    }
}

// The sum of three entries, or of such a sum and two entries.
#[inline(always)]
fn sum(a: i32, b: i32, c: i32) -> i32
    requires a { nat_abs a < 2 ^ 18 }
    requires b { nat_abs b < 2 ^ 16 }
    requires c { nat_abs c < 2 ^ 16 }
    ensures sum { result ≡ a +ℤ b +ℤ c }
    ensures small { nat_abs a < 2 ^ 16 → nat_abs result < 2 ^ 18 }
{
    a + b + c
}

#[inline(always)]
fn less(sample: u8, predicted: u8) -> i64
    ensures difference { result ≡ pos sample -ℤ pos predicted }
    ensures small { nat_abs result < 256 }
{
    i64::from(sample) - i64::from(predicted)
}

#[inline(always)]
fn folded(difference: i64) -> i32
    requires { nat_abs difference < 256 }
    ensures folded { result ≡ folded difference }
    ensures least { negsuc 127 ≤ℤ result }
    ensures most { result ≤ℤ pos 127 }
{
    fold8(difference as i32)
}

// A difference, with its sign changed where the context is negative.
#[inline(always)]
fn turned(context: i32, difference: i64) -> i64
    requires { nat_abs difference < 2 ^ 32 }
    ensures turned { result ≡ turned context difference }
    ensures same { nat_abs result ≡ nat_abs difference }
{
    if context < 0 { -difference } else { difference }
}

// A number modulo 256.
#[inline(always)]
fn low_byte(n: i64) -> u8
    ensures { pos result ≡ int_rem_euclid n (pos 256) }
{
    (n.cast_unsigned() & 0xff) as u8
}

// The entry of a table for a difference of two samples.
#[inline(always)]
fn quantized(table: &[i16; 256], a: u8, b: u8) -> i32
    ensures entry { result ≡ quantized table.now a b }
    ensures small { nat_abs result < 2 ^ 16 }
{
    i32::from(table[usize::from(a.wrapping_sub(b))])
}

// The same, where it is told whether the difference counts: by a flat table it doesn't.
#[inline(always)]
fn quantized_by(table: &[i16; 256], a: u8, b: u8, counts: bool) -> i32
    requires { counts ≡ false → IsFlat table.now }
    ensures entry { result ≡ quantized table.now a b }
    ensures small { nat_abs result < 2 ^ 16 }
{
    if counts { quantized(table, a, b) } else { 0 }
}
