//! The clip of a call: its record and the shape of its pictures.
ghost use Rattle.std.specs.Prelude.{◌≡◌, ◌≤◌, ◌<◌, ◌*◌, IfOk, IfErr};
ghost use Rattle.pic_planes.specs.Bytes.{sizes, sample_count};
ghost use Rattle.pic_planes.specs.Shape.{plane_count, plane_width, plane_height};
ghost use Rattle.codec_c.specs.Call.{call, IsClip, Refuses};

use crate::answer::Answer;
use ffv1_record::{Record, RecordFault};
use pic_planes::{Chroma, Shape};
use std::alloc::Global;

/// A record, and the shape of pictures that it suits.
#[derive(Drop)]
pub(crate) struct Clip {
    pub(crate) record: Record,
    pub(crate) shape: Shape,
}

/// The clip of a record's bytes and a size. `Arguments` comes exactly where the record is faulty or doesn't suit the size.
pub(crate) fn clip_of(alloc: Global, record: &[u8], width: u32, height: u32) -> Result<Clip, Answer>
    ensures ok { IfOk result (λ clip. IsClip (call record.now width height) clip.record clip.shape) }
    ensures err { IfErr result (λ answer. Refuses (call record.now width height) answer) }
{
    let record = match Record::read(alloc, record) {
        Ok(record) => record,
        Err(RecordFault::NoMemory) => return Err(Answer::Memory),
        Err(_) => return Err(Answer::Arguments),
    };
    let shape = match record.shape(width, height) {
        Some(shape) => shape,
        None => return Err(Answer::Arguments),
    };
    if !record.suits(shape) {
        return Err(Answer::Arguments);
    }
    Ok(Clip { record, shape })
}

/// How many samples pictures of a shape have.
pub(crate) fn sample_count(shape: Shape) -> usize
    ensures { result ≡ sample_count (sizes shape) }
{
    let luma = area(shape, 0);
    match shape.chroma() {
        Chroma::Grey => luma,
        Chroma::Shifts { h: _, v: _ } => luma + 2 * area(shape, 1),
    }
}

// The samples of a plane.
fn area(shape: Shape, plane: u32) -> usize
    requires { plane < plane_count shape }
    ensures area { result ≡ plane_width shape plane * plane_height shape plane }
    ensures small { result ≤ 67108864 }
{
    shape.plane_width(plane) as usize * shape.plane_height(plane) as usize
}
