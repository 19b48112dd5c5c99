//! Rows that are the same.
ghost use Rattle.std.specs.Prelude.{◌≡◌, ◌↔◌, ◌+◌, ◌≤◌, IsTrue, length};
ghost use Rattle.std.specs.Simd.Lanes.{chunk};

use std::simd::prelude::*;

/// How many samples are compared at once.
const LANES: usize = 32;

/// Whether two rows of one length are the same.
pub fn same_row(a: &[u8], b: &[u8]) -> bool
    requires { length b.now ≡ length a.now }
    ensures { IsTrue result ↔ (a.now ≡ b.now) }
{
    let mut first = 0;
    while a.len() - first >= LANES {
        if !same_lanes(a, b, first) {
            return false;
        }
        first += LANES;
    }
    same_samples(&a[first..], &b[first..])
}

fn same_samples(a: &[u8], b: &[u8]) -> bool
    ensures { IsTrue result ↔ (a.now ≡ b.now) }
{
    a == b
}

#[inline(always)]
fn same_lanes(a: &[u8], b: &[u8], from: usize) -> bool
    requires a { from + LANES ≤ length a.now }
    requires b { from + LANES ≤ length b.now }
    ensures { IsTrue result ↔ (chunk from LANES a.now ≡ chunk from LANES b.now) }
{
    let differing = u8x32::from_slice(&a[from..]).simd_ne(u8x32::from_slice(&b[from..]));
    differing.to_bitmask() == 0
}
