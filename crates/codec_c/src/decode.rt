//! Decoding a packet to samples.
ghost use Rattle.ffv1_record.specs.Suits.{Suits};
ghost use Rattle.codec_c.specs.Call.{call, IsClip, Decodes, Call};

use crate::answer::Answer;
use crate::clip::{Clip, clip_of, sample_count};
use crate::samples::put_samples;
use ffv1_frame::{DecodeFault, decode_frame};
use std::alloc::Global;

const MOST_PACKET_BYTES: usize = 0x2_0000_0000;

/// Decodes a packet to samples, by the bytes of a record and a size.
pub(crate) fn decode(
    alloc: Global,
    record: &[u8],
    width: u32,
    height: u32,
    packet: &[u8],
    samples: &mut [u8],
) -> Answer
    ensures { Decodes (call record.now width height) packet.now samples.old samples.new result }
{
    match clip_of(alloc, record, width, height) {
        Ok(clip) => decode_by(alloc, &clip, packet, samples),
        Err(answer) => answer,
    }
}

// Decodes a packet of a clip.
fn decode_by(alloc: Global, clip: &Clip, packet: &[u8], samples: &mut [u8]) -> Answer
    requires { Suits clip.now.record clip.now.shape }
    ensures { (c : Call) → IsClip c clip.now.record clip.now.shape → Decodes c packet.now samples.old samples.new result }
{
    if samples.len() != sample_count(clip.shape) {
        return Answer::Arguments;
    }
    if packet.len() > MOST_PACKET_BYTES {
        return Answer::Arguments;
    }
    match decode_frame(alloc, &clip.record, clip.shape, packet) {
        Ok(picture) => {
            put_samples(&picture, samples);
            Answer::Done(0)
        }
        Err(DecodeFault::Frame(fault)) => Answer::Fault(fault),
        Err(DecodeFault::NoMemory) => Answer::Memory,
    }
}
