//! Shapes: a size, and how chroma is subsampled.
ghost use Rattle.std.specs.Prelude.{◌≡◌, ◌<◌, ◌≤◌, ◌↔◌, IsSome, IfSome, IsTrue};
ghost use Rattle.tl_limits.specs.Limits.{IsSide};
ghost use Rattle.pic_planes.specs.Shape.{IsShape, AreShifts, layout, plane_count, plane_width, plane_height, chroma_count, chroma_width, chroma_height};

use crate::shift::shifted_up;
use std::marker::Model;
use tl_limits::MAX_SIDE;

/// The largest shift of chroma: a quarter of the samples in that direction.
const MAX_SHIFT: u8 = 2;

/// The chroma planes of a picture.
#[derive(Clone, Copy, Debug, PartialEq, Eq)]
pub enum Chroma {
    /// No chroma planes.
    Grey,
    /// Two chroma planes. Their width is that of luma divided by 2 to the power `h`, rounded up, and their height likewise by `v`.
    Shifts { h: u8, v: u8 },
}

/// The shape of a picture: its width and height in luma samples, each 1 to 8,192, and its chroma, with shifts of at most 2.
#[derive(Clone, Copy, Debug, PartialEq, Eq)]
pub struct Shape {
    width: u32,
    height: u32,
    chroma: Chroma,
}

// Clauses see the size and the chroma.
impl Model for Shape {
    ghost use Rattle.pic_planes.specs.Shape.{Layout, IsShape, layout};

    ghost Value = { Layout };

    ghost view = { λ a. layout a.width a.height a.chroma };

    ghost invariant = { λ a. IsShape (layout a.width a.height a.chroma) };

    ghost inverse = { λ s. record { width = s.width; height = s.height; chroma = s.chroma } };
}

impl Shape {
    /// A shape. None exactly where a size isn't 1 to 8,192 or a shift is over 2.
    pub fn of(width: u32, height: u32, chroma: Chroma) -> Option<Shape>
        ensures some { IsSome result ↔ IsShape (layout width height chroma) }
        ensures shape { IfSome result (λ shape. shape ≡ layout width height chroma) }
    {
        let fits = is_side(width) && is_side(height) && are_shifts(chroma);
        if fits {
            Some(Shape {
                width,
                height,
                chroma,
            })
        } else {
            None
        }
    }

    /// The width in luma samples.
    pub fn width(self) -> u32
        ensures width { result ≡ self.width }
        ensures sound { IsShape self }
    {
        self.width
    }

    /// The height in luma samples.
    pub fn height(self) -> u32
        ensures height { result ≡ self.height }
        ensures sound { IsShape self }
    {
        self.height
    }

    /// The chroma planes.
    pub fn chroma(self) -> Chroma
        ensures chroma { result ≡ self.chroma }
        ensures sound { IsShape self }
    {
        self.chroma
    }
}

// The planes. Y is plane 0, Cb and Cr are 1 and 2.
impl Shape {
    /// How many planes there are: Y alone, or Y, Cb and Cr.
    #[inline]
    pub fn plane_count(self) -> u32
        ensures { result ≡ plane_count self }
    {
        match self.chroma {
            Chroma::Grey => 1,
            Chroma::Shifts { h: _, v: _ } => 3,
        }
    }

    /// The width of a plane in samples.
    #[inline]
    pub fn plane_width(self, plane: u32) -> u32
        requires { plane < plane_count self }
        ensures width { result ≡ plane_width self plane }
        ensures side { IsSide result }
    {
        if plane == 0 {
            self.width
        } else {
            chroma_width(self.width, self.chroma)
        }
    }

    /// The height of a plane in samples.
    #[inline]
    pub fn plane_height(self, plane: u32) -> u32
        requires { plane < plane_count self }
        ensures height { result ≡ plane_height self plane }
        ensures side { IsSide result }
    {
        if plane == 0 {
            self.height
        } else {
            chroma_height(self.height, self.chroma)
        }
    }
}

#[inline]
fn chroma_width(width: u32, chroma: Chroma) -> u32
    requires width { IsSide width }
    requires chroma { AreShifts chroma }
    ensures width { result ≡ chroma_width width chroma }
    ensures side { 1 < chroma_count chroma → IsSide result }
{
    match chroma {
        Chroma::Grey => 0,
        Chroma::Shifts { h, v: _ } => shifted_up(width, h),
    }
}

#[inline]
fn chroma_height(height: u32, chroma: Chroma) -> u32
    requires height { IsSide height }
    requires chroma { AreShifts chroma }
    ensures height { result ≡ chroma_height height chroma }
    ensures side { 1 < chroma_count chroma → IsSide result }
{
    match chroma {
        Chroma::Grey => 0,
        Chroma::Shifts { h: _, v } => shifted_up(height, v),
    }
}

fn is_side(size: u32) -> bool
    ensures { IsTrue result ↔ IsSide size }
{
    1 <= size && size <= MAX_SIDE
}

fn are_shifts(chroma: Chroma) -> bool
    ensures { IsTrue result ↔ AreShifts chroma }
{
    match chroma {
        Chroma::Grey => true,
        Chroma::Shifts { h, v } => h <= MAX_SHIFT && v <= MAX_SHIFT,
    }
}
