//! A row of a slice's plane, read by the range coder. RFC 9043 section 4.8.
ghost use Rattle.std.specs.Prelude.{◌≡◌, ℕ, ◌<◌, ◌≤◌, ◌^◌, IfOk, OnErr, List, All, length, nat_abs, None, false};
ghost use Rattle.std.specs.Result.{result_ok};
ghost use Rattle.ffv1_range.specs.Transition.{AllKept};
ghost use Rattle.ffv1_predict.specs.Near.{context, AreNear};
ghost use Rattle.ffv1_predict.specs.Border.{rows};
ghost use Rattle.ffv1_slice.specs.Order.{InRow};
ghost use Rattle.ffv1_slice.specs.Reading.{coding, difference_at, ReadsSample, TooLongInRow, ContextsFit};

use ffv1_predict::{Left, Near};
use ffv1_range::{RangeReader, States, TooLong};

/// Reads a difference with the set of states of its context.
#[inline(always)]
fn read_difference(
    reader: &mut RangeReader,
    contexts: &mut [States],
    context: i32,
) -> Result<i64, TooLong>
    requires context { nat_abs context < length contexts.old }
    requires kept { All (AllKept reader.old.table) contexts.old }
    ensures difference { difference_at (coding reader.old contexts.old) context ≡ (result_ok result, coding reader.new contexts.new) }
    ensures small { IfOk result (λ difference. nat_abs difference < 2 ^ 32) }
    ensures table { reader.new.table ≡ reader.old.table }
    ensures kept { All (AllKept reader.new.table) contexts.new }
{
    reader.symbol(&mut contexts[context.unsigned_abs() as usize], true)
}

// Reads a sample, from the difference that is coded in the context of its neighbours.
#[inline(always)]
fn read_sample(
    reader: &mut RangeReader,
    contexts: &mut [States],
    tables: &[[i16; 256]; 5],
    far: bool,
    near: Near,
) -> Result<u8, TooLong>
    requires far { far ≡ false → AreNear tables.now }
    requires fit { ContextsFit tables.now (length contexts.old) }
    requires kept { All (AllKept reader.old.table) contexts.old }
    ensures ok { IfOk result (λ sample. ReadsSample tables.now near sample
        (coding reader.old contexts.old) (coding reader.new contexts.new)) }
    ensures too_long { OnErr result (difference_at (coding reader.old contexts.old) (context tables.now near)
        ≡ (None, coding reader.new contexts.new)) }
    ensures table { reader.new.table ≡ reader.old.table }
    ensures kept { All (AllKept reader.new.table) contexts.new }
{
    let context = near.context_by(tables, far);
    let difference = read_difference(reader, contexts, context)?;
    Ok(near.restored(context, difference))
}

/// Reads the samples of a row below two others, by tables where the far neighbours count or that are flat for them. `TooLong` comes
/// exactly at the first difference whose symbol is too long.
#[inline(always)]
pub(crate) fn decode_row<'a>(
    mut reader: RangeReader<'a>,
    contexts: &mut [States],
    tables: &[[i16; 256]; 5],
    far: bool,
    above2: &[u8],
    above: &[u8],
    row: &mut [u8],
) -> Result<RangeReader<'a>, TooLong>
    requires far { far ≡ false → AreNear tables.now }
    requires some { 0 < length row.old }
    requires above2 { length above2.now ≡ length row.old }
    requires above { length above.now ≡ length row.old }
    requires fit { ContextsFit tables.now (length contexts.old) }
    requires kept { All (AllKept reader.table) contexts.old }
    ensures ok { IfOk result (λ after. InRow (ReadsSample tables.now) (rows above2.now above.now row.new) (length row.new)
        (coding reader.entry contexts.old) (coding after contexts.new)) }
    ensures too_long { OnErr result (TooLongInRow tables.now (rows above2.now above.now row.new) (coding reader.entry contexts.old)) }
    ensures table { IfOk result (λ after. after.table ≡ reader.entry.table) }
    ensures kept { IfOk result (λ after. All (AllKept after.table) contexts.new) }
{
    let mut left = Left::start(above2, above);
    for x in 0..row.len() {
        let near = left.near(above2, above, x);
        let sample = read_sample(&mut reader, contexts, tables, far, near)?;
        row[x] = sample;
        left = Left::after(near, sample);
    }
    Ok(reader)
}
