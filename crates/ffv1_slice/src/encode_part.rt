//! The areas of planes that share the states of their contexts, written by the range coder. RFC 9043 section 4.7.
ghost use Rattle.std.specs.Prelude.{◌≡◌, ◌<◌, ◌≤◌, OnOk, All, length, replicate};
ghost use Rattle.ffv1_range.specs.Transition.{AllKept};
ghost use Rattle.ffv1_slice.specs.Reading.{ContextsFit};
ghost use Rattle.ffv1_slice.specs.Area.{AreWithin};
ghost use Rattle.ffv1_slice.specs.Slice.{part_of, slice_of, IsReady, CanHold};
ghost use Rattle.ffv1_slice.specs.Writing.{encoding, WritesAreas, WritesPart, WritesSlice};

use crate::area::{Area, Areas};
use crate::encode_plane::encode_rows;
use crate::range_part::freshen;
use crate::range_slice::Quantization;
use crate::scratch::Scratch;
use ffv1_range::{RangeWriter, States};
use pic_planes::Picture;
use std::alloc::AllocError;

// Writes the samples of areas in turn. The lines are at least as long as each area is wide.
fn encode_areas(
    writer: &mut RangeWriter,
    contexts: &mut [States],
    tables: &[[i16; 256]; 5],
    above2: &mut [u8],
    above: &mut [u8],
    row: &mut [u8],
    areas: &[Area],
    picture: &Picture,
) -> Result<(), AllocError>
    requires above2 { length above2.old ≡ length row.old }
    requires above { length above.old ≡ length row.old }
    requires within { AreWithin picture.now.shape (length row.old) areas.now }
    requires fit { ContextsFit tables.now (length contexts.old) }
    requires kept { All (AllKept writer.old.table) contexts.old }
    ensures ok { OnOk result (WritesAreas tables.now picture.now areas.now
        (encoding writer.old contexts.old) (encoding writer.new contexts.new)) }
    ensures table { writer.new.table ≡ writer.old.table }
{
    for area in areas {
        let width = area.width as usize;
        encode_rows(
            writer,
            contexts,
            tables,
            &mut above2[..width],
            &mut above[..width],
            &mut row[..width],
            *area,
            picture,
        )?;
    }
    Ok(())
}

/// Writes the samples of a part: areas in turn, which share the states of their contexts. Only want of memory stops it.
pub(crate) fn encode_part(
    writer: &mut RangeWriter,
    quantization: Quantization<'_>,
    areas: &[Area],
    scratch: &mut Scratch,
    picture: &Picture,
) -> Result<(), AllocError>
    requires ready { IsReady quantization scratch.old }
    requires within { AreWithin picture.now.shape scratch.old.width areas.now }
    requires fresh { AllKept writer.old.table (replicate 32 128) }
    ensures ok { OnOk result (WritesPart (part_of quantization.entry areas.now) picture.now writer.old writer.new) }
    ensures table { writer.new.table ≡ writer.old.table }
    ensures room { scratch.new ≡ scratch.old }
{
    let contexts = scratch.contexts.slice_mut(..quantization.context_count);
    freshen(contexts);
    encode_areas(
        writer,
        contexts,
        quantization.tables,
        scratch.above2.as_mut_slice(),
        scratch.above.as_mut_slice(),
        scratch.row.as_mut_slice(),
        areas,
        picture,
    )?;
    Ok(())
}

/// Writes the samples of a slice's areas of a picture, behind a header. Only want of memory stops it.
pub fn encode_slice(
    writer: &mut RangeWriter,
    luma: Quantization,
    chroma: Quantization,
    areas: Areas,
    scratch: &mut Scratch,
    picture: &Picture,
) -> Result<(), AllocError>
    requires luma { IsReady luma scratch.old }
    requires chroma { IsReady chroma scratch.old }
    requires areas { CanHold picture.now.shape scratch.old areas }
    requires fresh { AllKept writer.old.table (replicate 32 128) }
    ensures ok { OnOk result (WritesSlice (slice_of luma.entry chroma.entry areas) picture.now writer.old writer.new) }
    ensures table { writer.new.table ≡ writer.old.table }
    ensures room { scratch.new ≡ scratch.old }
{
    let first = [areas.luma];
    encode_part(writer, luma, &first, scratch, picture)?;
    let cb = match areas.chroma {
        None => return Ok(()),
        Some(cb) => cb,
    };
    let others = [cb, Area { plane: 2, ..cb }];
    encode_part(writer, chroma, &others, scratch, picture)?;
    Ok(())
}
