//! Four clips, whose pictures are the numbers of their frames.

ghost use Rattle.std.specs.Prelude.{◌≡◌, ◌<◌, ◌≤◌, length};
ghost use Rattle.tl_model.specs.Media.{IsShown, CanRender};
ghost use Rattle.test_media.specs.Numbers.{shown, number_of, frames_of, packet_of, numbers};

use std::alloc::{AllocError, Global};
use std::sync::Arc;
use tl_model::{EncodeFault, FrameFault, Media, Picked, Recipe, RenderFault, Side};

/// A library of four clips: 0 and 1 have twenty frames and fit, 2 has as many and doesn't, and 3 has two frames, whose
/// packets can be copied. `specs/Numbers.antt` says what each picture and each packet is.
#[derive(Drop)]
pub struct Numbers;

fn frames_of(clip: u32) -> u32
    ensures { result ≡ frames_of clip }
{
    if clip == 3 { 2 } else { 20 }
}

fn shown(side: Side) -> Result<u8, RenderFault>
    requires { IsShown numbers side }
    ensures { result ≡ shown side }
{
    match side {
        Side::Black => Ok(255),
        Side::Clip { clip, frame } => {
            if frame == 9 {
                Err(RenderFault {
                    clip,
                    frame,
                    kind: FrameFault::Empty,
                })
            } else {
                Ok(frame as u8)
            }
        }
    }
}

fn number_of(recipe: Recipe) -> Result<u8, RenderFault>
    requires { CanRender numbers recipe }
    ensures { result ≡ number_of recipe }
{
    match recipe {
        Recipe::Black => Ok(255),
        Recipe::Source { clip, frame } => shown(Side::Clip { clip, frame }),
        Recipe::Mix { from, to, weight } => match shown(from) {
            Err(why) => Err(why),
            Ok(_) => match shown(to) {
                Err(why) => Err(why),
                Ok(_) => Ok(weight),
            },
        },
    }
}

fn packet_of(frame: u32) -> &'static [u8]
    ensures bytes { result.now ≡ packet_of frame }
    ensures bound { length result.now ≤ 2 }
{
    match frame {
        0 => &[0, 7],
        1 => &[1, 7],
        _ => &[],
    }
}

impl Media for Numbers {
    type Frame = u8;

    ghost library = { λ m. numbers };

    fn lawful(&self) {}

    fn clips(&self) -> u32 {
        4
    }

    fn frames(&self, clip: u32) -> u32 {
        frames_of(clip)
    }

    fn fits(&self, clip: u32) -> bool {
        clip != 2
    }

    fn copies(&self, clip: u32) -> bool {
        clip == 3
    }

    fn packet(&self, _clip: u32, frame: u32) -> &[u8] {
        packet_of(frame)
    }

    fn private(&self) -> &[u8] {
        &[1]
    }

    fn size(&self) -> (u32, u32) {
        (1, 1)
    }

    fn render(&self, alloc: Global, recipe: Recipe) -> Result<Picked<u8>, AllocError> {
        match number_of(recipe) {
            Ok(number) => match Arc::new(alloc, number) {
                Ok(frame) => Ok(Picked::Frame(frame)),
                Err(_) => Err(AllocError),
            },
            Err(fault) => Ok(Picked::Fault(fault)),
        }
    }

    fn encode(&self, alloc: Global, frame: &u8) -> Result<Vec<u8>, EncodeFault> {
        if *frame == 1 {
            return Err(EncodeFault::SliceTooLong);
        }
        match Vec::with_capacity(alloc, 1) {
            Ok(mut bytes) => {
                bytes.push_reserved(*frame);
                Ok(bytes)
            }
            Err(_) => Err(EncodeFault::NoMemory),
        }
    }
}
