//! The limits of shapes, and a small picture.

ghost use Rattle.std.specs.Prelude.{◌<◌, ◌≤◌, IsTrue};
ghost use Rattle.pic_planes.specs.Shape.{plane_count, plane_height, plane_width};

use pic_planes::{Chroma, Picture, Shape};
use std::test::Fail;

#[test]
fn limits(rt: HostRuntime) {
    let table = [
        (0, 2, Chroma::Grey, false),
        (1, 1, Chroma::Grey, true),
        (8192, 8192, Chroma::Shifts { h: 2, v: 2 }, true),
        (8193, 2, Chroma::Grey, false),
        (2, 8193, Chroma::Grey, false),
        (2, 2, Chroma::Shifts { h: 3, v: 0 }, false),
        (2, 2, Chroma::Shifts { h: 0, v: 3 }, false),
    ];
    for (width, height, chroma, some) in table {
        let shape = Shape::of(width, height, chroma);
        assert_eq!(rt; shape.is_some(), some, "at {width} {height}");
        assert!(rt;
            shape.is_none_or(|s| s.width() == width && s.height() == height && s.chroma() == chroma)
        );
    }
}

#[test]
fn black_and_written(rt: HostRuntime) -> Result<(), Fail> {
    let shape = Shape::of(3, 3, Chroma::Shifts { h: 1, v: 1 }).ok_or("a shape")?;
    let black = Picture::blank(rt.alloc(), shape)?;
    assert!(rt; has_planes(&black, &[[16; 3]; 3], &[[128; 2]; 2], &[[128; 2]; 2]));
    let mut written = black.copy(rt.alloc())?;
    write(&mut written);
    assert!(rt;
        has_planes(
            &written,
            &[[16, 16, 16], [16, 16, 16], [9, 16, 16]],
            &[[128; 2]; 2],
            &[[128, 128], [128, 7]]
        )
    );
    let zero = Picture::zero(rt.alloc(), shape)?;
    assert!(rt; has_planes(&zero, &[[0; 3]; 3], &[[0; 2]; 2], &[[0; 2]; 2]));
    Ok(())
}

// Writes one sample of Y, and one of Cr.
fn write(picture: &mut Picture) {
    if has_row(picture, 2, 1, 2) && has_row(picture, 0, 2, 2) {
        picture.put_samples(2, 1, 1, &[7]);
        picture.row_mut(0, 2)[0] = 9;
    }
}

// Whether there is such a row, with at least so many samples.
pub fn has_row(picture: &Picture, plane: u32, y: u32, width: u32) -> bool
    ensures { IsTrue result → (plane < plane_count picture.now.shape) × (y < plane_height picture.now.shape plane)
        × (width ≤ plane_width picture.now.shape plane) }
{
    let shape = picture.shape();
    plane < shape.plane_count()
        && y < shape.plane_height(plane)
        && width <= shape.plane_width(plane)
}

fn has_planes(picture: &Picture, luma: &[[u8; 3]], cb: &[[u8; 2]], cr: &[[u8; 2]]) -> bool {
    has_rows(picture, 0, luma) && has_rows(picture, 1, cb) && has_rows(picture, 2, cr)
}

fn has_rows<const N: usize>(picture: &Picture, plane: u32, rows: &[[u8; N]]) -> bool {
    for (y, row) in (0..8192).zip(rows) {
        if !has_row(picture, plane, y, 0) || picture.row(plane, y) != row.as_slice() {
            return false;
        }
    }
    true
}
