//! The areas of planes that share the states of their contexts, read by the range coder. RFC 9043 section 4.7.
ghost use Rattle.std.specs.Prelude.{◌≡◌, ◌<◌, ◌≤◌, IfOk, OnErr, All, length, replicate, false};
ghost use Rattle.ffv1_range.specs.Transition.{AllKept};
ghost use Rattle.ffv1_predict.specs.Near.{AreNear};
ghost use Rattle.ffv1_slice.specs.Reading.{coding, ContextsFit};
ghost use Rattle.ffv1_slice.specs.Area.{IsWithin, AreWithin};
ghost use Rattle.ffv1_slice.specs.Slice.{decoding, standing, part_of, fresh_contexts, IsReady, ReadsAreas, TooLongInAreas, ReadsPart, TooLongInPart};

use crate::area::Area;
use crate::range_plane::decode_rows;
use crate::range_slice::Quantization;
use crate::scratch::Scratch;
use ffv1_predict::are_near;
use ffv1_range::{RangeReader, States, TooLong};
use pic_planes::Picture;

// Reads the samples of areas in turn, by tables where the far neighbours count or that are flat for them. The lines are at least as
// long as each area is wide.
#[inline(always)]
fn decode_areas<'a>(
    mut reader: RangeReader<'a>,
    contexts: &mut [States],
    tables: &[[i16; 256]; 5],
    far: bool,
    above2: &mut [u8],
    above: &mut [u8],
    row: &mut [u8],
    areas: &[Area],
    picture: &mut Picture,
) -> Result<RangeReader<'a>, TooLong>
    requires far { far ≡ false → AreNear tables.now }
    requires above2 { length above2.old ≡ length row.old }
    requires above { length above.old ≡ length row.old }
    requires within { AreWithin picture.old.shape (length row.old) areas.now }
    requires fit { ContextsFit tables.now (length contexts.old) }
    requires kept { All (AllKept reader.table) contexts.old }
    ensures ok { IfOk result (λ after. ReadsAreas tables.now areas.now
        (decoding (coding reader.entry contexts.old) picture.old) (decoding (coding after contexts.new) picture.new)) }
    ensures too_long { OnErr result (TooLongInAreas tables.now areas.now (decoding (coding reader.entry contexts.old) picture.old)) }
    ensures table { IfOk result (λ after. after.table ≡ reader.entry.table) }
    ensures shape { picture.new.shape ≡ picture.old.shape }
{
    for area in areas {
        let width = area.width as usize;
        reader = decode_rows(
            reader,
            contexts,
            tables,
            far,
            &mut above2[..width],
            &mut above[..width],
            &mut row[..width],
            *area,
            picture,
        )?;
    }
    Ok(reader)
}

/// Reads the samples of a part: areas in turn, which share the states of their contexts. `TooLong` comes exactly at the first
/// symbol that is too long.
pub(crate) fn decode_part<'a>(
    reader: RangeReader<'a>,
    quantization: Quantization<'_>,
    areas: &[Area],
    scratch: &mut Scratch,
    picture: &mut Picture,
) -> Result<RangeReader<'a>, TooLong>
    requires ready { IsReady quantization scratch.old }
    requires within { AreWithin picture.old.shape scratch.old.width areas.now }
    requires fresh { AllKept reader.table (replicate 32 128) }
    ensures ok { IfOk result (λ after. ReadsPart (part_of quantization.entry areas.now)
        (standing reader.entry picture.old) (standing after picture.new)) }
    ensures too_long { OnErr result (TooLongInPart (part_of quantization.entry areas.now) (standing reader.entry picture.old)) }
    ensures table { IfOk result (λ after. after.table ≡ reader.entry.table) }
    ensures shape { picture.new.shape ≡ picture.old.shape }
    ensures room { scratch.new ≡ scratch.old }
{
    let contexts = scratch.contexts.slice_mut(..quantization.context_count);
    freshen(contexts);
    let tables = quantization.tables;
    let above2 = scratch.above2.as_mut_slice();
    let above = scratch.above.as_mut_slice();
    let row = scratch.row.as_mut_slice();
    // Compiled once for each of the two.
    if are_near(tables) {
        let after = decode_areas(
            reader, contexts, tables, false, above2, above, row, areas, picture,
        )?;
        return Ok(after);
    }
    let after = decode_areas(
        reader, contexts, tables, true, above2, above, row, areas, picture,
    )?;
    Ok(after)
}

// Makes all states fresh.
pub(crate) fn freshen(contexts: &mut [States])
    ensures { contexts.new ≡ fresh_contexts (length contexts.old) }
{
    contexts.fill(States::fresh());
}
