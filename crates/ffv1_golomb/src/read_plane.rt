//! An area of a plane, read in Golomb-Rice mode. RFC 9043 sections 3.8.2, 4.7 and 4.8.
ghost use Rattle.std.specs.Prelude.{◌≡◌, ◌+◌, ◌<◌, ◌≤◌, ◌^◌, IfOk, OnErr, length, false};
ghost use Rattle.ffv1_predict.specs.Near.{AreNear};
ghost use Rattle.ffv1_slice.specs.Reading.{ContextsFit};
ghost use Rattle.ffv1_slice.specs.Area.{IsWithin};
ghost use Rattle.ffv1_golomb.specs.Slice.{decoding, ReadsArea, OutOfRangeInArea};

use crate::read_row::decode_row;
use ffv1_rice::{BitReader, OutOfRange, RunReader, VlcState};
use ffv1_slice::Area;
use pic_planes::Picture;

// Reads the samples of an area into a picture. What the three lines hold at first doesn't count.
#[inline(always)]
pub(crate) fn decode_rows<'a>(
    mut bits: BitReader<'a>,
    states: &mut [VlcState],
    tables: &[[i16; 256]; 5],
    far: bool,
    above2: &mut [u8],
    above: &mut [u8],
    row: &mut [u8],
    area: Area,
    picture: &mut Picture,
) -> Result<BitReader<'a>, OutOfRange>
    requires far { far ≡ false → AreNear tables.now }
    requires above2 { length above2.old ≡ area.width }
    requires above { length above.old ≡ area.width }
    requires row { length row.old ≡ area.width }
    requires within { IsWithin picture.old.shape area }
    requires fit { ContextsFit tables.now (length states.old) }
    ensures ok { IfOk result (λ after. ReadsArea tables.now area
        (decoding states.old bits.entry picture.old) (decoding states.new after picture.new)) }
    ensures out_of_range { OnErr result (OutOfRangeInArea tables.now area (decoding states.old bits.entry picture.old)) }
    ensures shape { picture.new.shape ≡ picture.old.shape }
{
    above2.fill(0);
    above.fill(0);
    let mut run = RunReader::start();
    for y in area.y..bottom_of(area, picture) {
        bits = decode_row(bits, &mut run, states, tables, far, above2, above, row)?;
        picture.put_samples(area.plane, y, area.x, row);
        above2.copy_from_slice(above);
        above.copy_from_slice(row);
    }
    Ok(bits)
}

// The row below an area.
pub(crate) fn bottom_of(area: Area, picture: &Picture) -> u32
    requires { IsWithin picture.now.shape area }
    ensures bottom { result ≡ area.y + area.height }
    ensures short { area.width < 2 ^ 24 }
{
    let _width = picture.shape().plane_width(area.plane);
    let _height = picture.shape().plane_height(area.plane);
    area.y + area.height
}
