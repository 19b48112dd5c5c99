//! The samples of pictures, plane after plane and row after row.
ghost use Rattle.std.specs.Prelude.{◌≡◌, ◌<◌, ◌≤◌, ◌+◌, IfOk, length, take, drop};
ghost use Rattle.pic_planes.specs.Shape.{plane_count, plane_height};
ghost use Rattle.pic_planes.specs.Bytes.{sizes, sample_count, image_in, row_start, pasted};
ghost use Rattle.codec_c.specs.Samples.{samples_of, HasFirst};

use pic_planes::{Picture, Shape};
use std::alloc::{AllocError, Global};

/// Writes all samples of a picture.
pub(crate) fn put_samples(picture: &Picture, samples: &mut [u8])
    requires { length samples.old ≡ sample_count (sizes picture.now.shape) }
    ensures { image_in picture.now.shape samples.new ≡ picture.now }
{
    let mut at = 0;
    for plane in 0..picture.shape().plane_count() {
        at = put_plane(picture, plane, samples, at);
    }
}

// Writes the samples of a plane from a place on, behind those of the planes before it. The place behind them.
fn put_plane(picture: &Picture, plane: u32, samples: &mut [u8], start: usize) -> usize
    requires len { length samples.old ≡ sample_count (sizes picture.now.shape) }
    requires plane { plane < plane_count picture.now.shape }
    requires start { start ≡ row_start picture.now.shape plane 0 }
    requires first { take start samples.old ≡ take start (samples_of picture.now) }
    ensures end { result ≡ row_start picture.now.shape plane (plane_height picture.now.shape plane) }
    ensures first { take result samples.new ≡ take result (samples_of picture.now) }
{
    let mut at = start;
    for y in 0..picture.shape().plane_height(plane) {
        at = put_row(samples, at, picture.row(plane, y));
    }
    at
}

// Writes the samples of a row from a place on. The place behind them.
fn put_row(samples: &mut [u8], at: usize, row: &[u8]) -> usize
    requires { at + length row.now ≤ length samples.old }
    ensures end { result ≡ at + length row.now }
    ensures pasted { samples.new ≡ pasted samples.old at row.now }
{
    samples[at..at + row.len()].copy_from_slice(row);
    at + row.len()
}

/// The picture of samples.
pub(crate) fn picture_of(alloc: Global, shape: Shape, samples: &[u8]) -> Result<Picture, AllocError>
    requires { length samples.now ≡ sample_count (sizes shape) }
    ensures { IfOk result (λ picture. picture ≡ image_in shape samples.now) }
{
    let mut picture = Picture::zero(alloc, shape)?;
    let mut at = 0;
    for plane in 0..shape.plane_count() {
        at = take_plane(&mut picture, plane, samples, at);
    }
    Ok(picture)
}

// Takes the samples of a plane from a place on. The place behind them.
fn take_plane(picture: &mut Picture, plane: u32, samples: &[u8], start: usize) -> usize
    requires len { length samples.now ≡ sample_count (sizes picture.old.shape) }
    requires plane { plane < plane_count picture.old.shape }
    requires start { start ≡ row_start picture.old.shape plane 0 }
    requires first { HasFirst samples.now start picture.old }
    ensures end { result ≡ row_start picture.old.shape plane (plane_height picture.old.shape plane) }
    ensures first { HasFirst samples.now result picture.new }
    ensures shape { picture.new.shape ≡ picture.old.shape }
{
    let shape = picture.shape();
    let width = shape.plane_width(plane) as usize;
    let mut at = start;
    for y in 0..shape.plane_height(plane) {
        let row = row_at(samples, at, width);
        picture.put_samples(plane, y, 0, row);
        at += width;
    }
    at
}

// The samples of a row that begins at a place.
fn row_at(samples: &[u8], at: usize, width: usize) -> &[u8]
    requires { at + width ≤ length samples.now }
    ensures row { result.now ≡ take width (drop at samples.now) }
    ensures len { length result.now ≡ width }
{
    &samples[at..at + width]
}
