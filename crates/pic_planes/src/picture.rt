//! Pictures: planes of 8-bit samples.
ghost use Rattle.std.specs.Prelude.{◌≡◌, ◌<◌, ◌+◌, ◌*◌, ◌≤◌, ◌-◌, ◌++◌, length, take, replicate, IfOk};
ghost use Rattle.std.specs.Borrow.{sem};
ghost use Rattle.tl_limits.specs.Limits.{max_side};
ghost use Rattle.pic_planes.specs.Shape.{plane_count, plane_width, plane_height};
ghost use Rattle.pic_planes.specs.Picture.{IsPicture, filled, black, row_of, with_row};
ghost use Rattle.pic_planes.specs.Bytes.{sizes, sample_count, image_in, row_start, pasted, chroma_area, values_of};
ghost use Rattle.pic_planes.specs.Lends.{LendsRow};

use crate::shape::Shape;
use std::alloc::{AllocError, Global};
use std::marker::Model;

/// A picture: one plane Y, or Y, Cb and Cr. Its bytes are the samples, plane after plane and row after row.
#[derive(Debug, Drop)]
pub struct Picture {
    shape: Shape,
    bytes: Vec<u8>,
}

// Clauses see the shape and the planes, each as a list of rows.
impl Model for Picture {
    ghost use Rattle.std.specs.Prelude.{◌≡◌, length};
    ghost use Rattle.pic_planes.specs.Picture.{Image};
    ghost use Rattle.pic_planes.specs.Bytes.{sizes, sample_count, image_in};

    ghost Value = { Image };

    ghost view = { λ a. image_in a.shape a.bytes.items };

    ghost invariant = { λ a. length a.bytes.items ≡ sample_count (sizes a.shape) };
}

impl Picture {
    /// The black picture of a shape: 16 in Y, 128 in Cb and Cr.
    pub fn blank(alloc: Global, shape: Shape) -> Result<Picture, AllocError>
        ensures { IfOk result (λ picture. picture ≡ black shape) }
    {
        Picture::of_values(alloc, shape, 16, 128)
    }

    /// The picture of a shape whose samples are all 0.
    pub fn zero(alloc: Global, shape: Shape) -> Result<Picture, AllocError>
        ensures { IfOk result (λ picture. picture ≡ filled shape 0 0) }
    {
        Picture::of_values(alloc, shape, 0, 0)
    }

    // The picture with one value in Y, and one in Cb and Cr.
    fn of_values(alloc: Global, shape: Shape, luma: u8, chroma: u8) -> Result<Picture, AllocError>
        ensures { IfOk result (λ picture. picture ≡ filled shape luma chroma) }
    {
        let bytes = values(alloc, shape, luma, chroma)?;
        Ok(Picture { shape, bytes })
    }

    /// A picture of the same samples.
    pub fn copy(&self, alloc: Global) -> Result<Picture, AllocError>
        ensures { IfOk result (λ picture. picture ≡ self.now) }
    {
        let bytes = Vec::from_slice(alloc, self.bytes.as_slice())?;
        Ok(Picture {
            shape: self.shape,
            bytes,
        })
    }

    /// The shape.
    pub fn shape(&self) -> Shape
        ensures shape { result ≡ self.now.shape }
        ensures sound { IsPicture self.now }
    {
        shape_of(self.bytes.as_slice(), self.shape)
    }

    /// A row of a plane. Y is plane 0, Cb and Cr are 1 and 2.
    #[inline]
    pub fn row(&self, plane: u32, y: u32) -> &[u8]
        requires plane { plane < plane_count self.now.shape }
        requires y { y < plane_height self.now.shape plane }
        ensures row { result.now ≡ row_of self.now plane y }
        ensures len { length result.now ≡ plane_width self.now.shape plane }
    {
        let start = row_start(self.shape, plane, y);
        let width = self.shape.plane_width(plane) as usize;
        &self.bytes[start..start + width]
    }

    /// A row of a plane, to be written.
    #[inline]
    pub fn row_mut(&mut self, plane: u32, y: u32) -> &mut [u8]
        requires plane { plane < plane_count self.old.shape }
        requires y { y < plane_height self.old.shape plane }
        ensures* writes_back { sem 𝓛 (LendsRow self.entry plane y result) }
        ensures row { result.now ≡ row_of self.old plane y }
        ensures len { length result.now ≡ plane_width self.old.shape plane }
    {
        let start = row_start(self.shape, plane, y);
        let width = self.shape.plane_width(plane) as usize;
        self.bytes.slice_mut(start..start + width)
    }

    /// Writes samples into a row of a plane from a place on.
    #[inline]
    pub fn put_samples(&mut self, plane: u32, y: u32, x: u32, samples: &[u8])
        requires plane { plane < plane_count self.old.shape }
        requires y { y < plane_height self.old.shape plane }
        requires x { x + length samples.now ≤ plane_width self.old.shape plane }
        ensures { self.new ≡ with_row self.old plane y (pasted (row_of self.old plane y) x samples.now) }
    {
        let x = x as usize;
        self.row_mut(plane, y)[x..x + samples.len()].copy_from_slice(samples);
    }
}

// The shape, and what is true of a picture of it with these samples.
fn shape_of(bytes: &[u8], shape: Shape) -> Shape
    requires { length bytes.now ≡ sample_count (sizes shape) }
    ensures shape { result ≡ shape }
    ensures sound { IsPicture (image_in shape bytes.now) }
{
    let _width = shape.width();
    shape
}

// The samples of a picture with one value in Y, and one in Cb and Cr.
fn values(alloc: Global, shape: Shape, luma: u8, chroma: u8) -> Result<Vec<u8>, AllocError>
    ensures { IfOk result (λ bytes. bytes.items ≡ values_of shape luma chroma) }
{
    let first = area(shape.width(), shape.height());
    let mut bytes = vec![in alloc; luma; first + chroma_area(shape)]?;
    fill_from(bytes.as_mut_slice(), first, chroma);
    Ok(bytes)
}

// Makes all bytes from a place on one value.
fn fill_from(bytes: &mut [u8], from: usize, value: u8)
    requires { from ≤ length bytes.old }
    ensures { bytes.new ≡ take from bytes.old ++ replicate (length bytes.old - from) value }
{
    bytes[from..].fill(value);
}

// The samples of both chroma planes.
fn chroma_area(shape: Shape) -> usize
    ensures area { result ≡ chroma_area shape }
    ensures small { result ≤ 2 * 67108864 }
{
    if shape.plane_count() == 1 {
        0
    } else {
        2 * area(shape.plane_width(1), shape.plane_height(1))
    }
}

// Where a row begins among the samples.
#[inline]
fn row_start(shape: Shape, plane: u32, y: u32) -> usize
    requires plane { plane < plane_count shape }
    requires y { y < plane_height shape plane }
    ensures start { result ≡ row_start shape plane y }
    ensures within { result + plane_width shape plane ≤ sample_count (sizes shape) }
{
    plane_start(shape, plane) + area(y, shape.plane_width(plane))
}

// Where a plane begins.
#[inline]
fn plane_start(shape: Shape, plane: u32) -> usize
    requires { plane < plane_count shape }
    ensures start { result ≡ sample_count (take plane (sizes shape)) }
    ensures small { result ≤ 2 * 67108864 }
{
    if plane == 0 {
        return 0;
    }
    let luma = area(shape.width(), shape.height());
    if plane == 1 {
        return luma;
    }
    luma + area(shape.plane_width(1), shape.plane_height(1))
}

// The samples of a plane.
#[inline]
fn area(width: u32, height: u32) -> usize
    requires width { width ≤ max_side }
    requires height { height ≤ max_side }
    ensures area { result ≡ width * height }
    ensures small { result ≤ 67108864 }
{
    width as usize * height as usize
}
