//! Worked packets, and sizes and grids at their limits.

use crate::planes::has_row;
use ffv1_frame::{DecodeFault, decode_frame, encode_frame};
use ffv1_record::{Coder, Record, default_record};
use pic_planes::{Chroma, Picture, Shape, reaches_ends};
use std::alloc::{AllocError, Global};
use std::process::Abort;
use std::test::Fail;
use tl_model::{EncodeFault, FrameFault};

// A picture's samples, plane after plane.
fn samples_of(alloc: Global, picture: &Picture) -> Result<Vec<u8>, AllocError> {
    let mut samples = Vec::new(alloc);
    let shape = picture.shape();
    for plane in 0..shape.plane_count() {
        for y in 0..shape.plane_height(plane) {
            samples.extend_from_slice(picture.row(plane, y))?;
        }
    }
    Ok(samples)
}

// The samples of the picture that a packet decodes to, or its fault. None where the packet may not be decoded by the record.
fn decoded(
    alloc: Global,
    record: &Record,
    shape: Shape,
    packet: &[u8],
) -> Result<Option<Vec<u8>>, DecodeFault> {
    if packet.len() > 1_000_000 {
        return Ok(None);
    }
    if !record.suits(shape) {
        return Ok(None);
    }
    let picture = decode_frame(alloc, record, shape, packet)?;
    let samples = samples_of(alloc, &picture)?;
    Ok(Some(samples))
}

// The fault of a packet.
fn fault(alloc: Global, record: &Record, shape: Shape, packet: &[u8]) -> Option<FrameFault> {
    match decoded(alloc, record, shape, packet) {
        Err(DecodeFault::Frame(fault)) => Some(fault),
        _ => None,
    }
}

// Whether a packet decodes to these samples.
fn has_samples(
    alloc: Global,
    record: &Record,
    shape: Shape,
    packet: &[u8],
    samples: &[u8],
) -> bool {
    match decoded(alloc, record, shape, packet) {
        Ok(Some(found)) => found.as_slice() == samples,
        _ => false,
    }
}

#[test]
#[rattlefmt::skip]
fn worked_packets(rt: HostRuntime) -> Result<(), Fail> {
    let a = rt.alloc();
    let chroma = Shape::of(1, 1, Chroma::Shifts { h: 1, v: 1 }).ok_or("a shape")?;
    let large = Shape::of(64, 64, Chroma::Grey).ok_or("a shape")?;
    let wide = Shape::of(2, 1, Chroma::Grey).ok_or("a shape")?;
    let square = Shape::of(2, 2, Chroma::Grey).ok_or("a shape")?;
    let yuv420 = default_record(a, chroma, Coder::Range, 1, 1)?.with_ec(false);
    let grey = default_record(a, large, Coder::Range, 1, 1)?.with_ec(false);
    let two = default_record(a, wide, Coder::Range, 2, 1)?.with_ec(false);
    let checked = default_record(a, square, Coder::Range, 1, 1)?;
    let whole = [0xFF, 0xFF, 0, 0, 2, 0, 0xA2, 0xC4, 0x9B, 0x7B];
    let wrong = [0xFE, 0xFF, 0, 0, 2, 0, 0xA2, 0xC4, 0x9B, 0x7B];
    assert!(rt; has_samples(a, &yuv420, chroma, &[0xFF, 0xFF, 0, 0, 2], &[0, 0, 0]));
    assert!(rt; has_samples(a, &checked, square, &whole, &[0, 0, 0, 0]));
    for (record, shape, packet, expected) in [
        (&yuv420, chroma, [].as_slice(), FrameFault::Empty),
        (&yuv420, chroma, [0xFF, 0xFF, 0, 0, 3].as_slice(), FrameFault::Chain),
        (&yuv420, chroma, [0x10, 0, 0, 0, 2].as_slice(), FrameFault::NotKey),
        (&grey, large, [0xFF, 0xFF, 0, 0, 2].as_slice(), FrameFault::Overrun { slice: 0 }),
        (&two, wide, [0xFF, 0xFF, 0, 0, 2].as_slice(), FrameFault::Cover { cell: 1 }),
        (&two, wide, [0xFF, 0xFF, 0, 0, 2, 0xFF, 0xFF, 0, 0, 2].as_slice(), FrameFault::Cover { cell: 0 }),
        (&checked, square, wrong.as_slice(), FrameFault::Parity { slice: 0 }),
    ] {
        assert_eq!(rt; fault(a, record, shape, packet), Some(expected));
    }
    for length in 1..10usize {
        assert_eq!(rt; fault(a, &checked, square, &whole[..length]), Some(FrameFault::Chain));
    }
    Ok(())
}

// The packet of a picture. None where the picture may not be encoded by the record.
fn encoded(
    alloc: Global,
    record: &Record,
    picture: &Picture,
) -> Result<Option<Vec<u8>>, EncodeFault> {
    if !record.suits(picture.shape()) {
        return Ok(None);
    }
    let packet = encode_frame(alloc, record, picture)?;
    Ok(Some(packet))
}

// Whether a picture is encoded as these bytes.
fn has_bytes(alloc: Global, record: &Record, picture: &Picture, bytes: &[u8]) -> bool {
    match encoded(alloc, record, picture) {
        Ok(Some(found)) => found.as_slice() == bytes,
        _ => false,
    }
}

// Whether the packet of a picture decodes to these samples.
fn is_read_back(alloc: Global, record: &Record, picture: &Picture, samples: &[u8]) -> bool {
    match encoded(alloc, record, picture) {
        Ok(Some(packet)) => has_samples(alloc, record, picture.shape(), packet.as_slice(), samples),
        _ => false,
    }
}

#[test]
#[rattlefmt::skip]
fn worked_pictures(rt: HostRuntime) -> Result<(), Fail> {
    let a = rt.alloc();
    let square = Shape::of(2, 2, Chroma::Grey).ok_or("a shape")?;
    let chroma = Shape::of(4, 2, Chroma::Shifts { h: 1, v: 1 }).ok_or("a shape")?;
    let plain = default_record(a, square, Coder::Range, 1, 1)?.with_ec(false);
    let cells = default_record(a, chroma, Coder::Range, 2, 1)?;
    let rice = default_record(a, chroma, Coder::Rice, 2, 1)?;
    let zeros = Picture::zero(a, square)?;
    let black = Picture::blank(a, chroma)?;
    let samples = [16, 16, 16, 16, 16, 16, 16, 16, 128, 128, 128, 128];
    assert!(rt; has_bytes(a, &plain, &zeros, &[0xFE, 0xEB, 0, 0, 2]));
    assert!(rt; is_read_back(a, &plain, &zeros, &[0, 0, 0, 0]));
    assert!(rt; has_samples(a, &plain, square, &[0xFF, 0xFF, 0, 0, 2], &[0, 0, 0, 0]));
    assert!(rt; is_read_back(a, &cells, &black, &samples));
    assert!(rt; is_read_back(a, &rice, &black, &samples));
    Ok(())
}

// The record of an encoder by such a grid of slices. None where a picture of the shape may not have it.
fn record_of(
    alloc: Global,
    shape: Shape,
    coder: Coder,
    columns: u32,
    rows: u32,
) -> Result<Option<Record>, AllocError> {
    let width = shape.width();
    let height = shape.height();
    if 1 <= columns
        && columns <= width
        && 1 <= rows
        && rows <= height
        && columns * rows <= 1024
        && reaches_ends(shape.chroma(), columns, rows, width, height)
    {
        let record = default_record(alloc, shape, coder, columns, rows)?;
        Ok(Some(record))
    } else {
        Ok(None)
    }
}

// Fills a row with samples that differ from place to place.
fn fill(row: &mut [u8], start: u32) {
    for x in 0..row.len() {
        row[x] = ((x % 251 * 7 + start as usize % 251) % 251) as u8;
    }
}

// A picture whose samples differ from place to place, from row to row and from plane to plane.
fn drawn(rt: &impl Abort, alloc: Global, shape: Shape) -> Result<Picture, AllocError> {
    let mut picture = Picture::zero(alloc, shape)?;
    for plane in 0..shape.plane_count() {
        for y in 0..shape.plane_height(plane) {
            assert!(rt; has_row(&picture, plane, y, 1));
            fill(picture.row_mut(plane, y), 3 * y + plane);
        }
    }
    Ok(picture)
}

// Widths and heights, and the columns and rows of slices: a sample, the longest row and column, and as many slices as may be.
const SIZES: [(u32, u32, u32, u32); 4] = [
    (1, 1, 1, 1),
    (8192, 1, 1, 1),
    (1, 8192, 1, 1024),
    (64, 48, 32, 32),
];

#[test]
fn sizes_and_grids_at_their_limits(rt: HostRuntime) -> Result<(), Fail> {
    let a = rt.alloc();
    for (width, height, columns, rows) in SIZES {
        let shape = Shape::of(width, height, Chroma::Shifts { h: 1, v: 1 }).ok_or("a shape")?;
        let picture = drawn(&rt, a, shape)?;
        let samples = samples_of(a, &picture)?;
        for coder in [Coder::Range, Coder::Rice] {
            let record = record_of(a, shape, coder, columns, rows)?.ok_or("a record")?;
            assert!(rt;
                is_read_back(a, &record, &picture, samples.as_slice()),
                "at {width}x{height}"
            );
        }
    }
    Ok(())
}
