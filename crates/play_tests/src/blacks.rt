//! A library whose one clip does not fit, and whose black pictures have one grey sample.

ghost use Rattle.play_tests.specs.Blacks.{blacks};

use pic_planes::{Chroma, Picture, Shape};
use std::alloc::{AllocError, Global};
use std::sync::Arc;
use tl_model::{EncodeFault, Media, Picked, Recipe};

#[derive(Drop)]
pub(crate) struct Blacks;

impl Media for Blacks {
    type Frame = Picture;

    ghost library = { λ m. blacks };

    fn lawful(&self) {}

    fn clips(&self) -> u32 {
        1
    }

    fn frames(&self, _clip: u32) -> u32 {
        1
    }

    fn fits(&self, _clip: u32) -> bool {
        false
    }

    fn copies(&self, _clip: u32) -> bool {
        false
    }

    fn packet(&self, _clip: u32, _frame: u32) -> &[u8] {
        &[]
    }

    fn private(&self) -> &[u8] {
        &[1]
    }

    fn size(&self) -> (u32, u32) {
        (1, 1)
    }

    fn render(&self, alloc: Global, _recipe: Recipe) -> Result<Picked<Picture>, AllocError> {
        let Some(shape) = Shape::of(1, 1, Chroma::Grey) else {
            return Err(AllocError);
        };
        let picture = Picture::blank(alloc, shape)?;
        match Arc::new(alloc, picture) {
            Ok(frame) => Ok(Picked::Frame(frame)),
            Err(_) => Err(AllocError),
        }
    }

    fn encode(&self, _alloc: Global, _frame: &Picture) -> Result<Vec<u8>, EncodeFault> {
        Err(EncodeFault::SliceTooLong)
    }
}
