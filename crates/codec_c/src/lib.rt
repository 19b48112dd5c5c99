//! FFV1 version 3 for a caller in C: one packet is decoded to samples, and samples are encoded to one packet.
//!
//! `bench/bits` measures the calls of `bits.rt` and `symbols.rt`, which pass over recorded sequences.
#![tactic(auto)]

mod answer;
mod bits;
mod clip;
mod decode;
mod encode;
mod samples;
mod symbols;

ghost use Rattle.std.specs.Prelude.{◌≡◌};
ghost use Rattle.tl_base.specs.Parity as parities;
ghost use Rattle.codec_c.specs.Call.{call, DecodingTells, EncodingTells};

use answer::number_of;
use decode::decode;
use encode::encode;
use std::alloc::Global;

/// The parity of bytes.
#[unsafe(no_mangle)]
pub extern "C" fn codec_c_parity(bytes: &[u8]) -> u32
    ensures { result ≡ parities.parity bytes.now }
{
    tl_base::parity(bytes)
}

/// Decodes a packet of a clip, whose record and size in luma samples are told, to all samples of its picture: plane after plane and
/// row after row, 8 bits each. The answer is a kind times 2^32 and a place: kind 0 where it is decoded, else samples are as they were.
///
/// Kind 1: the record is faulty, doesn't suit the size, `samples` isn't as long as the planes together, or the packet is over
/// 2^33 bytes. Kind 2: memory was wanting. Kinds 3 to 11: the packet's first fault, `Empty`, `Chain`, `Parity`, `NotKey`, `Header`,
/// `TableIndex`, `Cover`, `Symbol` or `Overrun`, with the slice or the cell as the place. RFC 9043 sections 4.1 to 4.9.
#[unsafe(no_mangle)]
pub extern "C" fn codec_c_decode(
    alloc: Global,
    record: &[u8],
    width: u32,
    height: u32,
    packet: &[u8],
    samples: &mut [u8],
) -> u64
    ensures { DecodingTells (call record.now width height) packet.now samples.old samples.new result }
{
    number_of(decode(alloc, record, width, height, packet, samples))
}

/// Encodes samples, which stand as `codec_c_decode` writes them, to a packet at the front of `packet`. The answer is a kind times
/// 2^32 and a place: kind 0 and the bytes of the packet where it is written, else `packet` is as it was.
///
/// Kind 1: the record is faulty, doesn't suit the size, the samples aren't as many as the planes have, or the packet is longer than
/// its room or than 2^32 bytes less 1. Kind 2: memory was wanting. Kind 12: a slice is longer than 2^24 bytes less 1.
#[unsafe(no_mangle)]
pub extern "C" fn codec_c_encode(
    alloc: Global,
    record: &[u8],
    width: u32,
    height: u32,
    samples: &[u8],
    packet: &mut [u8],
) -> u64
    ensures { EncodingTells (call record.now width height) samples.now packet.old packet.new result }
{
    number_of(encode(alloc, record, width, height, samples, packet))
}
