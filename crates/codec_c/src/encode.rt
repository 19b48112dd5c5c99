//! Encoding samples to a packet.
ghost use Rattle.ffv1_record.specs.Suits.{Suits};
ghost use Rattle.codec_c.specs.Call.{call, IsClip, Encodes, Call, Puts};

use crate::answer::Answer;
use crate::clip::{Clip, clip_of, sample_count};
use crate::samples::picture_of;
use ffv1_frame::encode_frame;
use std::alloc::Global;
use tl_model::EncodeFault;

// The most that a place of 32 bits can say.
const MOST_PLACE: usize = 0xFFFF_FFFF;

/// Encodes samples to a packet, by the bytes of a record and a size.
pub(crate) fn encode(
    alloc: Global,
    record: &[u8],
    width: u32,
    height: u32,
    samples: &[u8],
    packet: &mut [u8],
) -> Answer
    ensures { Encodes (call record.now width height) samples.now packet.old packet.new result }
{
    match clip_of(alloc, record, width, height) {
        Ok(clip) => encode_by(alloc, &clip, samples, packet),
        Err(answer) => answer,
    }
}

// Encodes samples of a clip.
fn encode_by(alloc: Global, clip: &Clip, samples: &[u8], packet: &mut [u8]) -> Answer
    requires { Suits clip.now.record clip.now.shape }
    ensures { (c : Call) → IsClip c clip.now.record clip.now.shape → Encodes c samples.now packet.old packet.new result }
{
    if samples.len() != sample_count(clip.shape) {
        return Answer::Arguments;
    }
    let picture = match picture_of(alloc, clip.shape, samples) {
        Ok(picture) => picture,
        Err(_) => return Answer::Memory,
    };
    match encode_frame(alloc, &clip.record, &picture) {
        Ok(bytes) => put_packet(bytes.as_slice(), packet),
        Err(EncodeFault::SliceTooLong) => Answer::SliceTooLong,
        Err(EncodeFault::NoMemory) => Answer::Memory,
    }
}

// Puts a packet to the front of its room, where it fits.
fn put_packet(packet: &[u8], room: &mut [u8]) -> Answer
    ensures { Puts packet.now room.old room.new result }
{
    if packet.len() > room.len().min(MOST_PLACE) {
        return Answer::Arguments;
    }
    room[..packet.len()].copy_from_slice(packet);
    Answer::Done(packet.len() as u32)
}
