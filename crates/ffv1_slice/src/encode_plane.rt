//! An area of a plane, written by the range coder. RFC 9043 sections 4.7 and 4.8.
ghost use Rattle.std.specs.Prelude.{◌≡◌, ◌+◌, ◌<◌, ◌≤◌, OnOk, All, length};
ghost use Rattle.ffv1_range.specs.Transition.{AllKept};
ghost use Rattle.ffv1_predict.specs.Border.{rows_of_plane};
ghost use Rattle.ffv1_slice.specs.Order.{InRows};
ghost use Rattle.ffv1_slice.specs.Reading.{ContextsFit};
ghost use Rattle.pic_planes.specs.Shape.{plane_count, plane_width, plane_height};
ghost use Rattle.ffv1_slice.specs.Area.{IsWithin};
ghost use Rattle.ffv1_slice.specs.Writing.{encoding, samples, WritesSample, first_samples};

use crate::area::Area;
use crate::encode_row::encode_row;
use crate::range_plane::bottom_of;
use ffv1_range::{RangeWriter, States};
use pic_planes::Picture;
use std::alloc::AllocError;

// Writes the samples of an area of a picture. What the three lines hold at first doesn't count.
pub(crate) fn encode_rows(
    writer: &mut RangeWriter,
    contexts: &mut [States],
    tables: &[[i16; 256]; 5],
    above2: &mut [u8],
    above: &mut [u8],
    row: &mut [u8],
    area: Area,
    picture: &Picture,
) -> Result<(), AllocError>
    requires above2 { length above2.old ≡ area.width }
    requires above { length above.old ≡ area.width }
    requires row { length row.old ≡ area.width }
    requires within { IsWithin picture.now.shape area }
    requires fit { ContextsFit tables.now (length contexts.old) }
    requires kept { All (AllKept writer.old.table) contexts.old }
    ensures ok { OnOk result (InRows (WritesSample tables.now) (rows_of_plane area.width (samples picture.now area))
        (encoding writer.old contexts.old) (encoding writer.new contexts.new)) }
    ensures table { writer.new.table ≡ writer.old.table }
    ensures kept { All (AllKept writer.new.table) contexts.new }
{
    above2.fill(0);
    above.fill(0);
    for y in area.y..bottom_of(area, picture) {
        row.copy_from_slice(first_samples(picture, Area { y, ..area }));
        encode_row(writer, contexts, tables, above2, above, row)?;
        above2.copy_from_slice(above);
        above.copy_from_slice(row);
    }
    Ok(())
}

/// The samples of the first row of an area.
pub fn first_samples(picture: &Picture, area: Area) -> &[u8]
    requires plane { area.plane < plane_count picture.now.shape }
    requires y { area.y < plane_height picture.now.shape area.plane }
    requires x { area.x + area.width ≤ plane_width picture.now.shape area.plane }
    ensures samples { result.now ≡ first_samples picture.now area }
    ensures len { length result.now ≡ area.width }
{
    let (from, width) = (area.x as usize, area.width as usize);
    &picture.row(area.plane, area.y)[from..from + width]
}
