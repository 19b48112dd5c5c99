//! An area of a plane, read by the range coder. RFC 9043 sections 4.7 and 4.8.
ghost use Rattle.std.specs.Prelude.{◌≡◌, ◌+◌, ◌<◌, ◌≤◌, IfOk, OnErr, All, length, false};
ghost use Rattle.ffv1_predict.specs.Near.{AreNear};
ghost use Rattle.ffv1_range.specs.Transition.{AllKept};
ghost use Rattle.ffv1_slice.specs.Reading.{coding, ContextsFit};
ghost use Rattle.ffv1_slice.specs.Area.{IsWithin};
ghost use Rattle.ffv1_slice.specs.Slice.{decoding, ReadsArea, TooLongInArea};

use crate::area::Area;
use crate::range_row::decode_row;
use ffv1_range::{RangeReader, States, TooLong};
use pic_planes::Picture;

// Reads the samples of an area into a picture. What the three lines hold at first doesn't count.
#[inline(always)]
pub(crate) fn decode_rows<'a>(
    mut reader: RangeReader<'a>,
    contexts: &mut [States],
    tables: &[[i16; 256]; 5],
    far: bool,
    above2: &mut [u8],
    above: &mut [u8],
    row: &mut [u8],
    area: Area,
    picture: &mut Picture,
) -> Result<RangeReader<'a>, TooLong>
    requires far { far ≡ false → AreNear tables.now }
    requires above2 { length above2.old ≡ area.width }
    requires above { length above.old ≡ area.width }
    requires row { length row.old ≡ area.width }
    requires within { IsWithin picture.old.shape area }
    requires fit { ContextsFit tables.now (length contexts.old) }
    requires kept { All (AllKept reader.table) contexts.old }
    ensures ok { IfOk result (λ after. ReadsArea tables.now area
        (decoding (coding reader.entry contexts.old) picture.old) (decoding (coding after contexts.new) picture.new)) }
    ensures too_long { OnErr result (TooLongInArea tables.now area (decoding (coding reader.entry contexts.old) picture.old)) }
    ensures table { IfOk result (λ after. after.table ≡ reader.entry.table) }
    ensures kept { IfOk result (λ after. All (AllKept after.table) contexts.new) }
    ensures shape { picture.new.shape ≡ picture.old.shape }
{
    above2.fill(0);
    above.fill(0);
    for y in area.y..bottom_of(area, picture) {
        reader = decode_row(reader, contexts, tables, far, above2, above, row)?;
        picture.put_samples(area.plane, y, area.x, row);
        above2.copy_from_slice(above);
        above.copy_from_slice(row);
    }
    Ok(reader)
}

// The row below an area.
pub(crate) fn bottom_of(area: Area, picture: &Picture) -> u32
    requires { IsWithin picture.now.shape area }
    ensures { result ≡ area.y + area.height }
{
    let _height = picture.shape().plane_height(area.plane);
    area.y + area.height
}
