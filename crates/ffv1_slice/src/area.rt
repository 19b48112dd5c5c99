//! Rectangles of a picture's planes.

/// A rectangle of a plane: where it starts, and its size in the plane's samples. Y is plane 0, Cb and Cr are 1 and 2.
#[derive(Clone, Copy, Debug, PartialEq, Eq)]
pub struct Area {
    pub plane: u32,
    pub x: u32,
    pub y: u32,
    pub width: u32,
    pub height: u32,
}

/// The areas of a slice: that of Y, and that of Cb, which Cr has in its own plane.
#[derive(Clone, Copy, Debug, PartialEq, Eq)]
pub struct Areas {
    pub luma: Area,
    pub chroma: Option<Area>,
}
