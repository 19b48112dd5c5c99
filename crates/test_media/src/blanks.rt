//! A library of one clip, of one frame, that doesn't fit.

ghost use Rattle.test_media.specs.Blanks.{blanks};

use std::alloc::{AllocError, Global};
use std::sync::Arc;
use tl_model::{EncodeFault, Media, Picked, Recipe};

/// A library of one clip of one frame that doesn't fit; each picture is the number 0.
#[derive(Drop)]
pub struct Blanks;

impl Media for Blanks {
    type Frame = u8;

    ghost library = { λ m. blanks };

    fn lawful(&self) {}

    fn clips(&self) -> u32 {
        1
    }

    fn frames(&self, _clip: u32) -> u32 {
        1
    }

    fn fits(&self, _clip: u32) -> bool {
        false
    }

    fn copies(&self, _clip: u32) -> bool {
        false
    }

    fn packet(&self, _clip: u32, _frame: u32) -> &[u8] {
        &[]
    }

    fn private(&self) -> &[u8] {
        &[1]
    }

    fn size(&self) -> (u32, u32) {
        (1, 1)
    }

    fn render(&self, alloc: Global, _recipe: Recipe) -> Result<Picked<u8>, AllocError> {
        match Arc::new(alloc, 0) {
            Ok(frame) => Ok(Picked::Frame(frame)),
            Err(_) => Err(AllocError),
        }
    }

    fn encode(&self, alloc: Global, frame: &u8) -> Result<Vec<u8>, EncodeFault> {
        match Vec::with_capacity(alloc, 1) {
            Ok(mut bytes) => {
                bytes.push_reserved(*frame);
                Ok(bytes)
            }
            Err(_) => Err(EncodeFault::NoMemory),
        }
    }
}
