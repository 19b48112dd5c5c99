//! Grids of slices.
ghost use Rattle.std.specs.Prelude.{◌≡◌, ◌≤◌, ◌↔◌, IsTrue};
ghost use Rattle.tl_limits.specs.Limits.{IsSide, max_side, max_slices};
ghost use Rattle.pic_planes.specs.Shape.{AreShifts};
ghost use Rattle.pic_planes.specs.Grid.{IsGrid, ReachesEnd, ReachesEnds, reaches_end, reaches_ends};

use crate::shape::Chroma;
use crate::shift::{shifted_down, shifted_up};

/// Whether the last column and row of a grid of slices reach the ends of the chroma planes of a picture, whose width and height are in
/// luma samples. RFC 9043 section 4.6.
pub fn reaches_ends(chroma: Chroma, columns: u32, rows: u32, width: u32, height: u32) -> bool
    requires chroma { AreShifts chroma }
    requires grid { IsGrid columns rows }
    requires width { IsSide width }
    requires height { IsSide height }
    ensures test { result ≡ reaches_ends columns rows width height chroma }
    ensures fact { IsTrue result ↔ ReachesEnds columns rows width height chroma }
{
    match chroma {
        Chroma::Grey => true,
        Chroma::Shifts { h, v } => reaches_end(columns, width, h) && reaches_end(rows, height, v),
    }
}

fn reaches_end(cells: u32, size: u32, shift: u8) -> bool
    requires cells { 1 ≤ cells }
    requires few { cells ≤ max_slices }
    requires size { size ≤ max_side }
    requires shift { shift ≤ 2 }
    ensures test { result ≡ reaches_end cells size shift }
    ensures fact { IsTrue result ↔ ReachesEnd cells size shift }
{
    let start = (cells - 1) * size / cells;
    shifted_down(start, shift) + shifted_up(size - start, shift) == shifted_up(size, shift)
}
