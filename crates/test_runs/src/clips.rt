//! The clips that the scripts name.

ghost use Rattle.std.specs.Prelude.{◌≡◌, IfOk, length};

use std::alloc::{AllocError, Global};

/// A grey clip of 2x2 at 25 frames a second with three packets, each of four samples 0. Its record has one slice, the range coder and
/// no error correction.
#[rattlefmt::skip]
pub const GREY: [u8; 117] = [
    // EBML: DocType
    0x1A, 0x45, 0xDF, 0xA3, 0x8B, 0x42, 0x82, 0x88, 0x6D, 0x61, 0x74, 0x72, 0x6F, 0x73, 0x6B, 0x61,
    // Segment, of unknown size
    0x18, 0x53, 0x80, 0x67, 0xFF,
    // Tracks and TrackEntry: TrackNumber 1, TrackType, CodecID
    0x16, 0x54, 0xAE, 0x6B, 0xB2, 0xAE, 0xB0,
    0xD7, 0x81, 0x01, 0x83, 0x81, 0x01, 0x86, 0x86, 0x56, 0x5F, 0x46, 0x46, 0x56, 0x31,
    // Video: 2x2
    0xE0, 0x86, 0xB0, 0x81, 0x02, 0xBA, 0x81, 0x02,
    // CodecPrivate
    0x63, 0xA2, 0x97,
    0x56, 0x00, 0x30, 0x28, 0x86, 0xD9, 0xF2, 0x1C, 0xD8, 0x51, 0x26, 0xAB, 0x0C, 0x75, 0x8A, 0x23,
    0x9F, 0x3E, 0x62, 0xBE, 0xD2, 0x1F, 0x51,
    // Cluster, of unknown size: Timestamp, and the SimpleBlocks at 0, 40 and 80 ms
    0x1F, 0x43, 0xB6, 0x75, 0xFF, 0xE7, 0x81, 0x00,
    0xA3, 0x89, 0x81, 0x00, 0x00, 0x80, 0xFF, 0xFF, 0x00, 0x00, 0x02,
    0xA3, 0x89, 0x81, 0x00, 0x28, 0x80, 0xFF, 0xFF, 0x00, 0x00, 0x02,
    0xA3, 0x89, 0x81, 0x00, 0x50, 0x80, 0xFF, 0xFF, 0x00, 0x00, 0x02,
];

/// How many bytes the record of the clip has.
pub const RECORD_LEN: usize = 23;

/// The size of an export of its three frames.
pub const WHOLE: Option<usize> = Some(261 + RECORD_LEN);

/// The packet of each of its frames.
pub const PACKET: [u8; 5] = [0xFF, 0xFF, 0x00, 0x00, 0x02];

/// The packet of four samples 255, as a model in Python wrote it.
const WHITE: [u8; 5] = [0xFE, 0x35, 0x00, 0x00, 0x02];

/// Where the first block begins, and where its packet does.
const BLOCK_AT: usize = 84;

const PACKET_AT: usize = 90;

/// The clip, with another last byte: the length of the third packet's one slice.
pub fn grey(alloc: Global, last: u8) -> Result<Vec<u8>, AllocError>
    ensures { IfOk result (λ bytes. length bytes.items ≡ 117) }
{
    let mut bytes = Vec::from_slice(alloc, &GREY[..116])?;
    bytes.push(last)?;
    Ok(bytes)
}

/// A clip like it, of so many frames with this packet, all at the time 0.
fn alike(alloc: Global, packet: &[u8], frames: u32) -> Result<Vec<u8>, AllocError> {
    let mut bytes = Vec::from_slice(alloc, &GREY[..BLOCK_AT])?;
    for _ in 0..frames {
        bytes.extend_from_slice(&GREY[BLOCK_AT..PACKET_AT])?;
        bytes.extend_from_slice(packet)?;
    }
    Ok(bytes)
}

/// A clip like it, of 150 frames, each of four samples 0.
pub(crate) fn zeros(alloc: Global) -> Result<Vec<u8>, AllocError> {
    alike(alloc, &PACKET, 150)
}

/// A clip like it, of 200 frames, each of four samples 255.
pub(crate) fn whites(alloc: Global) -> Result<Vec<u8>, AllocError> {
    alike(alloc, &WHITE, 200)
}
