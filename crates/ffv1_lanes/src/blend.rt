//! Rows of a dissolve.
ghost use Rattle.std.specs.Prelude.{◌≡◌, ◌+◌, ◌*◌, ◌/◌, ◌<◌, ◌≤◌, ℕ, length, EachIndex, slice_index};
ghost use Rattle.ffv1_lanes.specs.Blend.{blended};
ghost use Rattle.ffv1_lanes.specs.Lanes.{HasLanes};

use std::simd::prelude::*;

/// How many samples are blended at once.
const LANES: usize = 16;

/// A step of a dissolve: at each place `weight` parts of 256 of the row `b`, and the rest of the row `a`, to the nearest.
pub fn blend_row(a: &[u8], b: &[u8], weight: u8, into: &mut [u8])
    requires b { length b.now ≡ length a.now }
    requires room { length into.old ≡ length a.now }
    ensures { EachIndex into.new (λ x. slice_index into.new x ≡ blended weight (slice_index a.now x) (slice_index b.now x)) }
{
    let mut first = 0;
    while into.len() - first >= LANES {
        let lanes = blended_lanes(weight, loaded(a, first), loaded(b, first));
        lanes.copy_to_slice(&mut into[first..]);
        first += LANES;
    }
    for x in first..into.len() {
        into[x] = blended(weight, a[x], b[x]);
    }
}

#[inline(always)]
fn blended(weight: u8, a: u8, b: u8) -> u8
    ensures { result ≡ blended weight a b }
{
    let weight = u32::from(weight);
    ((u32::from(a) * (256 - weight) + u32::from(b) * weight + 128) >> 8) as u8
}

#[inline(always)]
fn loaded(row: &[u8], from: usize) -> u8x16
    requires { from + LANES ≤ length row.now }
    ensures { HasLanes result (λ k. slice_index row.now (from + k)) }
{
    u8x16::from_slice(&row[from..])
}

#[inline(always)]
fn weighted(samples: u8x16, weight: u16) -> u16x16
    requires { weight ≤ 256 }
    ensures { HasLanes result (λ k. slice_index samples k * weight) }
{
    samples.cast::<u16>() * u16x16::splat(weight)
}

#[inline(always)]
fn samples_of(sums: u16x16) -> u8x16
    ensures { HasLanes result (λ k. slice_index sums k / 256) }
{
    (sums >> u16x16::splat(8)).cast::<u8>()
}

#[inline(always)]
fn rounded(a: u16x16, b: u16x16) -> u16x16
    requires { (k : ℕ) → k < 16 → slice_index a k + slice_index b k < 65408 }
    ensures { HasLanes result (λ k. slice_index a k + slice_index b k + 128) }
{
    a + b + u16x16::splat(128)
}

#[inline(always)]
fn blended_lanes(weight: u8, a: u8x16, b: u8x16) -> u8x16
    ensures { HasLanes result (λ k. blended weight (slice_index a k) (slice_index b k)) }
{
    let weight = u16::from(weight);
    samples_of(rounded(weighted(a, 256 - weight), weighted(b, weight)))
}
