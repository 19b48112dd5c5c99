//! Dissolves between two pictures.
ghost use Rattle.std.specs.Prelude.{◌≡◌, ◌<◌, IfOk, length};
ghost use Rattle.pic_planes.specs.Shape.{plane_count, plane_height};
ghost use Rattle.pic_planes.specs.Picture.{plane_of, row_of, with_row};
ghost use Rattle.clip_store.specs.Blend.{blended_row, blended_plane, blend, with_plane};

use ffv1_lanes::{blend_row, same_row};
use pic_planes::Picture;
use std::alloc::{AllocError, Global};

/// The picture between two of one shape: `weight` parts of 256 of the incoming one, and the rest of the outgoing one, to the nearest.
pub(crate) fn blend(
    alloc: Global,
    from: &Picture,
    to: &Picture,
    weight: u8,
) -> Result<Picture, AllocError>
    requires { to.now.shape ≡ from.now.shape }
    ensures { IfOk result (λ picture. picture ≡ blend weight from.now to.now) }
{
    let mut picture = from.copy(alloc)?;
    let (shape, _to) = (from.shape(), to.shape());
    for plane in 0..shape.plane_count() {
        put_plane(&mut picture, from, to, weight, plane);
    }
    Ok(picture)
}

// Blends the rows of a plane.
fn put_plane(into: &mut Picture, from: &Picture, to: &Picture, weight: u8, plane: u32)
    requires from { from.now.shape ≡ into.old.shape }
    requires to { to.now.shape ≡ into.old.shape }
    requires plane { plane < plane_count into.old.shape }
    ensures { into.new ≡ with_plane into.old plane (blended_plane weight (plane_of from.now plane) (plane_of to.now plane)) }
{
    let (shape, _from, _to) = (into.shape(), from.shape(), to.shape());
    for y in 0..shape.plane_height(plane) {
        put_row(into, from, to, weight, plane, y);
    }
}

// Blends a row. One that is the same on both sides is taken as it is.
fn put_row(into: &mut Picture, from: &Picture, to: &Picture, weight: u8, plane: u32, y: u32)
    requires from { from.now.shape ≡ into.old.shape }
    requires to { to.now.shape ≡ into.old.shape }
    requires plane { plane < plane_count into.old.shape }
    requires y { y < plane_height into.old.shape plane }
    ensures { into.new ≡ with_row into.old plane y (blended_row weight (row_of from.now plane y) (row_of to.now plane y)) }
{
    blend_samples(
        from.row(plane, y),
        to.row(plane, y),
        weight,
        into.row_mut(plane, y),
    );
}

// Blends samples. Those that are the same on both sides are taken as they are.
fn blend_samples(from: &[u8], to: &[u8], weight: u8, into: &mut [u8])
    requires to { length to.now ≡ length from.now }
    requires into { length into.old ≡ length from.now }
    ensures { into.new ≡ blended_row weight from.now to.now }
{
    if same_row(from, to) {
        into.copy_from_slice(from);
    } else {
        blend_row(from, to, weight, into);
    }
}
