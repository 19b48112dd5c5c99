//! A row of a slice's plane, written in Golomb-Rice mode. RFC 9043 sections 3.8.2 and 4.8.
ghost use Rattle.std.specs.Prelude.{◌≡◌, ◌<◌, ◌≤◌, ◌^◌, OnOk, length, nat_abs};
ghost use Rattle.ffv1_predict.specs.Near.{coded};
ghost use Rattle.ffv1_predict.specs.Border.{rows};
ghost use Rattle.ffv1_slice.specs.Reading.{ContextsFit};
ghost use Rattle.ffv1_golomb.specs.Writing.{WritesRow, between_lines, encoding};
ghost use Rattle.ffv1_golomb.specs.Gathered.{HasRoom, SameRoom, IsGathered};

use crate::scratch::Gathered;
use ffv1_predict::{Left, Near};
use ffv1_rice::{BitWriter, RunWriter, VlcState};
use std::alloc::AllocError;

/// Writes the samples of a row below two others. Only want of memory stops it.
pub(crate) fn encode_row(
    bits: &mut BitWriter,
    run: &mut RunWriter,
    states: &mut [VlcState],
    tables: &[[i16; 256]; 5],
    above2: &[u8],
    above: &[u8],
    row: &[u8],
    line: &mut Gathered,
) -> Result<(), AllocError>
    requires some { 0 < length row.now }
    requires short { length row.now < 2 ^ 24 }
    requires above2 { length above2.now ≡ length row.now }
    requires above { length above.now ≡ length row.now }
    requires fit { ContextsFit tables.now (length states.old) }
    requires few { length states.old ≤ 2 ^ 16 }
    requires room { HasRoom (length row.now) line.old }
    ensures ok { OnOk result (WritesRow tables.now (rows above2.now above.now row.now)
        (between_lines run.old (encoding states.old bits.old)) (between_lines run.new (encoding states.new bits.new))) }
    ensures room { SameRoom line.old line.new }
{
    let contexts = line.contexts.slice_mut(..row.len());
    let differences = line.differences.slice_mut(..row.len());
    gather(tables, above2, above, row, contexts, differences);
    run.line(bits, states, contexts, differences)?;
    Ok(())
}

// The contexts of a row's samples, by magnitude, and their differences.
fn gather(
    tables: &[[i16; 256]; 5],
    above2: &[u8],
    above: &[u8],
    row: &[u8],
    contexts: &mut [u16],
    differences: &mut [i8],
)
    requires some { 0 < length row.now }
    requires above2 { length above2.now ≡ length row.now }
    requires above { length above.now ≡ length row.now }
    requires contexts { length contexts.old ≡ length row.now }
    requires differences { length differences.old ≡ length row.now }
    requires fit { ContextsFit tables.now (2 ^ 16) }
    ensures { IsGathered tables.now (rows above2.now above.now row.now) (length row.now) contexts.new differences.new }
{
    let mut left = Left::start(above2, above);
    for x in 0..row.len() {
        let near = left.near(above2, above, x);
        let context = near.context(tables);
        contexts[x] = magnitude(context);
        differences[x] = difference(near, context, row[x]);
        left = Left::after(near, row[x]);
    }
}

#[inline(always)]
fn magnitude(context: i32) -> u16
    requires { nat_abs context < 2 ^ 16 }
    ensures { result ≡ nat_abs context }
{
    context.unsigned_abs() as u16
}

#[inline(always)]
fn difference(near: Near, context: i32, sample: u8) -> i8
    ensures { result ≡ coded context near sample }
{
    near.coded(context, sample) as i8
}
