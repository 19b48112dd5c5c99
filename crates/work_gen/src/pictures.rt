//! The pictures, drawn row by row.
ghost use Rattle.std.specs.Prelude.{◌≡◌, ◌<◌, ◌≤◌, length};
ghost use Rattle.pic_planes.specs.Shape.{plane_width, plane_height};
ghost use Rattle.pic_planes.specs.Picture.{with_row};
ghost use Rattle.clip_store.specs.Blend.{with_plane};
ghost use Rattle.work_gen.specs.Picture.{clip_shape, luma, sample, row, rows, picture};
ghost use Rattle.work_gen.specs.Answer.{max_generated};

use pic_planes::Picture;

/// Draws the picture of a frame over another of its shape.
pub(crate) fn draw(into: &mut Picture, frame: u32)
    requires shape { into.old.shape ≡ clip_shape }
    requires frame { frame < max_generated }
    ensures { into.new ≡ picture frame }
{
    let shape = into.shape();
    for plane in 0..shape.plane_count() {
        draw_plane(into, plane, frame);
    }
}

// Draws a plane.
fn draw_plane(into: &mut Picture, plane: u32, frame: u32)
    requires shape { into.old.shape ≡ clip_shape }
    requires plane { plane < 3 }
    requires frame { frame < max_generated }
    ensures { into.new ≡ with_plane into.old plane (rows plane frame) }
{
    let shape = into.shape();
    for y in 0..shape.plane_height(plane) {
        draw_row(into, plane, y, frame);
    }
}

// Draws a row.
fn draw_row(into: &mut Picture, plane: u32, y: u32, frame: u32)
    requires shape { into.old.shape ≡ clip_shape }
    requires plane { plane < 3 }
    requires y { y < plane_height clip_shape plane }
    requires frame { frame < max_generated }
    ensures { into.new ≡ with_row into.old plane y (row plane y frame) }
{
    fill(into.row_mut(plane, y), plane, y, frame);
}

// Fills a row of a plane.
fn fill(samples: &mut [u8], plane: u32, y: u32, frame: u32)
    requires width { length samples.old ≡ plane_width clip_shape plane }
    requires y { y < 48 }
    requires frame { frame < max_generated }
    ensures { samples.new ≡ row plane y frame }
{
    for x in 0..samples.len() {
        samples[x] = sample(plane, x as u32, y, frame);
    }
}

// A sample of a plane.
fn sample(plane: u32, x: u32, y: u32, frame: u32) -> u8
    requires x { x < 64 }
    requires y { y < 48 }
    requires frame { frame < max_generated }
    ensures { result ≡ sample plane x y frame }
{
    if plane == 0 {
        luma(x, y, frame)
    } else if plane == 1 {
        ((128 + x + frame) % 256) as u8
    } else {
        ((128 + y + 2 * frame) % 256) as u8
    }
}

// A sample of Y.
fn luma(x: u32, y: u32, frame: u32) -> u8
    requires x { x < 64 }
    requires y { y < 48 }
    requires frame { frame < max_generated }
    ensures { result ≡ luma x y frame }
{
    let wave = 7 * ((x * y + frame) % 5);
    ((x + 2 * y + 3 * frame + wave) % 256) as u8
}
