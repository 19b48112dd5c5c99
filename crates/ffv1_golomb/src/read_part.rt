//! The areas of planes that share the states of their contexts, read in Golomb-Rice mode. RFC 9043 section 4.7.
ghost use Rattle.std.specs.Prelude.{◌≡◌, ◌≤◌, IfOk, OnErr, length, replicate, false};
ghost use Rattle.ffv1_rice.specs.State.{fresh};
ghost use Rattle.ffv1_predict.specs.Near.{AreNear};
ghost use Rattle.ffv1_slice.specs.Reading.{ContextsFit};
ghost use Rattle.ffv1_slice.specs.Area.{AreWithin};
ghost use Rattle.ffv1_slice.specs.Slice.{part_of, IsReady};
ghost use Rattle.ffv1_golomb.specs.Turn.{InTurn, FailsInTurn};
ghost use Rattle.ffv1_golomb.specs.Slice.{decoding, standing, ReadsArea, OutOfRangeInArea, ReadsPart, OutOfRangeInPart};

use crate::read_plane::decode_rows;
use crate::scratch::RiceScratch;
use ffv1_predict::are_near;
use ffv1_rice::{BitReader, OutOfRange, VlcState};
use ffv1_slice::{Area, Quantization};
use pic_planes::Picture;

// Reads the samples of areas in turn, by tables where the far neighbours count or that are flat for them. The lines are at least as
// long as each area is wide.
#[inline(always)]
fn decode_areas<'a>(
    mut bits: BitReader<'a>,
    states: &mut [VlcState],
    tables: &[[i16; 256]; 5],
    far: bool,
    above2: &mut [u8],
    above: &mut [u8],
    row: &mut [u8],
    areas: &[Area],
    picture: &mut Picture,
) -> Result<BitReader<'a>, OutOfRange>
    requires far { far ≡ false → AreNear tables.now }
    requires above2 { length above2.old ≡ length row.old }
    requires above { length above.old ≡ length row.old }
    requires within { AreWithin picture.old.shape (length row.old) areas.now }
    requires fit { ContextsFit tables.now (length states.old) }
    ensures ok { IfOk result (λ after. InTurn (ReadsArea tables.now) areas.now
        (decoding states.old bits.entry picture.old) (decoding states.new after picture.new)) }
    ensures out_of_range { OnErr result (FailsInTurn (ReadsArea tables.now) (OutOfRangeInArea tables.now) areas.now
        (decoding states.old bits.entry picture.old)) }
    ensures shape { picture.new.shape ≡ picture.old.shape }
{
    for area in areas {
        let width = area.width as usize;
        bits = decode_rows(
            bits,
            states,
            tables,
            far,
            &mut above2[..width],
            &mut above[..width],
            &mut row[..width],
            *area,
            picture,
        )?;
    }
    Ok(bits)
}

/// Reads the samples of a part: areas in turn, which share the states of their contexts. `OutOfRange` comes exactly at the first
/// residual that is out of range.
pub(crate) fn decode_part<'a>(
    bits: BitReader<'a>,
    quantization: Quantization<'_>,
    areas: &[Area],
    scratch: &mut RiceScratch,
    picture: &mut Picture,
) -> Result<BitReader<'a>, OutOfRange>
    requires ready { IsReady quantization scratch.old }
    requires within { AreWithin picture.old.shape scratch.old.width areas.now }
    ensures ok { IfOk result (λ after. ReadsPart (part_of quantization.entry areas.now)
        (standing bits.entry picture.old) (standing after picture.new)) }
    ensures out_of_range { OnErr result (OutOfRangeInPart (part_of quantization.entry areas.now) (standing bits.entry picture.old)) }
    ensures shape { picture.new.shape ≡ picture.old.shape }
    ensures room { scratch.new ≡ scratch.old }
{
    let states = scratch.states.slice_mut(..quantization.context_count);
    freshen(states);
    let tables = quantization.tables;
    let above2 = scratch.above2.as_mut_slice();
    let above = scratch.above.as_mut_slice();
    let row = scratch.row.as_mut_slice();
    // Compiled once for each of the two.
    if are_near(tables) {
        let after = decode_areas(
            bits, states, tables, false, above2, above, row, areas, picture,
        )?;
        return Ok(after);
    }
    let after = decode_areas(
        bits, states, tables, true, above2, above, row, areas, picture,
    )?;
    Ok(after)
}

// Makes all states fresh.
pub(crate) fn freshen(states: &mut [VlcState])
    ensures { states.new ≡ replicate (length states.old) fresh }
{
    states.fill(VlcState::fresh());
}
