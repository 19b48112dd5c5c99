//! Files with one clip, and libraries of them.

ghost use Rattle.std.specs.Prelude.{◌≡◌, ◌<◌, length, IfOk};

use crate::tables::{PACKET, RECORD};
use clip_store::{Format, Library, LoadFault, Shelf};
use std::alloc::{AllocError, Global};
use std::test::Fail;

/// How many frames the clip of the tables has.
pub(crate) const FRAMES: usize = 51;

/// EBML with its DocType, a Segment of unknown size, and the id of Tracks.
#[rattlefmt::skip]
const FRONT: [u8; 25] = [
    0x1A, 0x45, 0xDF, 0xA3, 0x8B, 0x42, 0x82, 0x88, 0x6D, 0x61, 0x74, 0x72, 0x6F, 0x73, 0x6B, 0x61,
    0x18, 0x53, 0x80, 0x67, 0xFF,
    0x16, 0x54, 0xAE, 0x6B,
];

/// TrackNumber 1, TrackType, CodecID.
#[rattlefmt::skip]
const TRACK: [u8; 14] = [0xD7, 0x81, 0x01, 0x83, 0x81, 0x01, 0x86, 0x86, 0x56, 0x5F, 0x46, 0x46, 0x56, 0x31];

/// A Cluster of unknown size, and its Timestamp.
const CLUSTER: [u8; 8] = [0x1F, 0x43, 0xB6, 0x75, 0xFF, 0xE7, 0x81, 0x00];

/// The size of a short element, in one byte.
fn size(len: usize) -> u8 {
    0x80 + len.min(126) as u8
}

/// What stands before the packets: a record of up to 90 bytes, and the width and height of the pictures.
fn put_head(bytes: &mut Vec<u8>, record: &[u8], width: u8, height: u8) -> Result<(), AllocError> {
    let len = record.len().min(90);
    bytes.extend_from_slice(&FRONT)?;
    bytes.extend_from_slice(&[size(len + 27), 0xAE, size(len + 25)])?;
    bytes.extend_from_slice(&TRACK)?;
    bytes.extend_from_slice(&[0xE0, 0x86, 0xB0, 0x81, width, 0xBA, 0x81, height])?;
    bytes.extend_from_slice(&[0x63, 0xA2, size(len)])?;
    bytes.extend_from_slice(record)?;
    bytes.extend_from_slice(&CLUSTER)?;
    Ok(())
}

/// A block with a packet of up to 90 bytes.
fn put_block(bytes: &mut Vec<u8>, packet: &[u8]) -> Result<(), AllocError> {
    let len = packet.len().min(90);
    bytes.extend_from_slice(&[0xA3, size(len + 4), 0x81, 0x00, 0x00, 0x80])?;
    bytes.extend_from_slice(packet)?;
    Ok(())
}

/// The file of a clip.
pub(crate) fn file_of(
    alloc: Global,
    record: &[u8],
    size: (u8, u8),
    packets: &[&[u8]],
) -> Result<Vec<u8>, AllocError> {
    let mut bytes = Vec::new(alloc);
    put_head(&mut bytes, record, size.0, size.1)?;
    for packet in packets {
        put_block(&mut bytes, packet)?;
    }
    Ok(bytes)
}

/// The file of the clip of the tables, whose frame at a place has another packet.
pub(crate) fn file_with(alloc: Global, place: usize, packet: &[u8]) -> Result<Vec<u8>, AllocError> {
    let mut packets = vec![in alloc; PACKET.as_slice(); FRAMES]?;
    if place < packets.len() {
        packets[place] = packet;
    }
    file_of(alloc, &RECORD, (2, 2), packets.as_slice())
}

/// The library of a clip `a`, in the clip's format.
pub(crate) fn library_of(alloc: Global, file: Vec<u8>) -> Result<Library, Fail> {
    let mut shelf = Shelf::start(alloc);
    let first = shelf.load(alloc, "a", 0, file)?;
    match shelf.ready(alloc, Format::As(first)) {
        Ok(library) => Ok(library),
        Err(_) => Err("memory")?,
    }
}

/// What the load of another clip `b` answers beside a clip `a`, and the library of what is loaded, in the format of `a`.
pub(crate) fn library_beside(
    alloc: Global,
    file: Vec<u8>,
    other: Vec<u8>,
) -> Result<(Result<u32, LoadFault>, Library), Fail> {
    let mut shelf = Shelf::start(alloc);
    let first = shelf.load(alloc, "a", 0, file)?;
    let answer = shelf.load(alloc, "b", 0, other);
    match shelf.ready(alloc, Format::As(first)) {
        Ok(library) => Ok((answer, library)),
        Err(_) => Err("memory")?,
    }
}
