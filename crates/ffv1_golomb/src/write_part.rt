//! The areas of planes that share the states of their contexts, written in Golomb-Rice mode. RFC 9043 section 4.7.
ghost use Rattle.std.specs.Prelude.{◌≡◌, ◌≤◌, ◌^◌, OnOk, length};
ghost use Rattle.ffv1_slice.specs.Reading.{ContextsFit};
ghost use Rattle.ffv1_slice.specs.Area.{AreWithin};
ghost use Rattle.ffv1_slice.specs.Slice.{part_of, slice_of, IsReady, CanHold};
ghost use Rattle.ffv1_golomb.specs.Turn.{InTurn};
ghost use Rattle.ffv1_golomb.specs.Writing.{encoding, WritesArea, WritesPart, WritesSlice};
ghost use Rattle.ffv1_golomb.specs.Gathered.{HasRoom, SameRoom};

use crate::read_part::freshen;
use crate::scratch::{Gathered, RiceScratch};
use crate::write_plane::encode_rows;
use ffv1_rice::{BitWriter, VlcState};
use ffv1_slice::{Area, Areas, Quantization};
use pic_planes::Picture;
use std::alloc::AllocError;

// Writes the samples of areas in turn. The lines are at least as long as each area is wide.
fn encode_areas(
    bits: &mut BitWriter,
    states: &mut [VlcState],
    tables: &[[i16; 256]; 5],
    above2: &mut [u8],
    above: &mut [u8],
    row: &mut [u8],
    line: &mut Gathered,
    areas: &[Area],
    picture: &Picture,
) -> Result<(), AllocError>
    requires above2 { length above2.old ≡ length row.old }
    requires above { length above.old ≡ length row.old }
    requires room { HasRoom (length row.old) line.old }
    requires within { AreWithin picture.now.shape (length row.old) areas.now }
    requires fit { ContextsFit tables.now (length states.old) }
    requires few { length states.old ≤ 2 ^ 16 }
    ensures ok { OnOk result (InTurn (WritesArea tables.now picture.now) areas.now
        (encoding states.old bits.old) (encoding states.new bits.new)) }
    ensures room { SameRoom line.old line.new }
{
    for area in areas {
        let width = area.width as usize;
        encode_rows(
            bits,
            states,
            tables,
            &mut above2[..width],
            &mut above[..width],
            &mut row[..width],
            line,
            *area,
            picture,
        )?;
    }
    Ok(())
}

// Writes the samples of a part: areas in turn, which share the states of their contexts. Only want of memory stops it.
fn encode_part(
    bits: &mut BitWriter,
    quantization: Quantization<'_>,
    areas: &[Area],
    scratch: &mut RiceScratch,
    picture: &Picture,
) -> Result<(), AllocError>
    requires ready { IsReady quantization scratch.old }
    requires few { scratch.old.contexts ≤ 2 ^ 16 }
    requires within { AreWithin picture.now.shape scratch.old.width areas.now }
    ensures ok { OnOk result (WritesPart picture.now (part_of quantization.entry areas.now) bits.old bits.new) }
    ensures room { scratch.new ≡ scratch.old }
{
    let states = scratch.states.slice_mut(..quantization.context_count);
    freshen(states);
    encode_areas(
        bits,
        states,
        quantization.tables,
        scratch.above2.as_mut_slice(),
        scratch.above.as_mut_slice(),
        scratch.row.as_mut_slice(),
        &mut scratch.line,
        areas,
        picture,
    )?;
    Ok(())
}

/// Writes the samples of a slice's areas of a picture: the bits behind the range-coded part of its content, still without the zeros
/// that fill the last byte. Only want of memory stops it.
pub fn encode_rice_slice(
    bits: &mut BitWriter,
    luma: Quantization,
    chroma: Quantization,
    areas: Areas,
    scratch: &mut RiceScratch,
    picture: &Picture,
) -> Result<(), AllocError>
    requires luma { IsReady luma scratch.old }
    requires chroma { IsReady chroma scratch.old }
    requires areas { CanHold picture.now.shape scratch.old areas }
    requires few { scratch.old.contexts ≤ 2 ^ 16 }
    ensures ok { OnOk result (WritesSlice (slice_of luma.entry chroma.entry areas) picture.now bits.old bits.new) }
    ensures room { scratch.new ≡ scratch.old }
{
    let first = [areas.luma];
    encode_part(bits, luma, &first, scratch, picture)?;
    let cb = match areas.chroma {
        None => return Ok(()),
        Some(cb) => cb,
    };
    let others = [cb, Area { plane: 2, ..cb }];
    encode_part(bits, chroma, &others, scratch, picture)?;
    Ok(())
}
