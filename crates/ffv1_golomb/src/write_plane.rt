//! An area of a plane, written in Golomb-Rice mode. RFC 9043 sections 3.8.2, 4.7 and 4.8.
ghost use Rattle.std.specs.Prelude.{◌≡◌, ◌≤◌, ◌^◌, OnOk, length};
ghost use Rattle.ffv1_slice.specs.Reading.{ContextsFit};
ghost use Rattle.ffv1_slice.specs.Area.{IsWithin};
ghost use Rattle.ffv1_golomb.specs.Writing.{WritesArea, encoding};
ghost use Rattle.ffv1_golomb.specs.Gathered.{HasRoom, SameRoom};

use crate::read_plane::bottom_of;
use crate::scratch::Gathered;
use crate::write_row::encode_row;
use ffv1_rice::{BitWriter, RunWriter, VlcState};
use ffv1_slice::{Area, first_samples};
use pic_planes::Picture;
use std::alloc::AllocError;

// Writes the samples of an area of a picture. What the three lines hold at first doesn't count.
pub(crate) fn encode_rows(
    bits: &mut BitWriter,
    states: &mut [VlcState],
    tables: &[[i16; 256]; 5],
    above2: &mut [u8],
    above: &mut [u8],
    row: &mut [u8],
    line: &mut Gathered,
    area: Area,
    picture: &Picture,
) -> Result<(), AllocError>
    requires above2 { length above2.old ≡ area.width }
    requires above { length above.old ≡ area.width }
    requires row { length row.old ≡ area.width }
    requires room { HasRoom area.width line.old }
    requires within { IsWithin picture.now.shape area }
    requires fit { ContextsFit tables.now (length states.old) }
    requires few { length states.old ≤ 2 ^ 16 }
    ensures ok { OnOk result (WritesArea tables.now picture.now area (encoding states.old bits.old) (encoding states.new bits.new)) }
    ensures room { SameRoom line.old line.new }
{
    above2.fill(0);
    above.fill(0);
    let mut run = RunWriter::start();
    for y in area.y..bottom_of(area, picture) {
        row.copy_from_slice(first_samples(picture, Area { y, ..area }));
        encode_row(bits, &mut run, states, tables, above2, above, row, line)?;
        above2.copy_from_slice(above);
        above.copy_from_slice(row);
    }
    Ok(())
}
