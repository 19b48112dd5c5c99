//! Loads that are refused and loads that aren't, dissolves, black, and a frame that is decoded and coded anew.

ghost use Rattle.clip_store.specs.Readying.{IsGridFor};

use super::{Format, Library, LoadFault, Shelf};
use crate::dissolve::blend;
use ffv1_record::{Coder, RecordFault};
use mkv_read::ClipFault;
use pic_planes::{Chroma, Picture, Shape};
use std::alloc::{AllocError, Global};
use std::test::*;
use tl_model::{EncodeFault, Media, Picked, Recipe};

/// A file with one packet. Its record has 4:2:0 chroma and a grid of 3 x 2 slices.
#[rattlefmt::skip]
const FILE: [u8; 110] = [
    // EBML: DocType
    0x1A, 0x45, 0xDF, 0xA3, 0x8B, 0x42, 0x82, 0x88, 0x6D, 0x61, 0x74, 0x72, 0x6F, 0x73, 0x6B, 0x61,
    // Segment, of unknown size
    0x18, 0x53, 0x80, 0x67, 0xFF,
    // Tracks and TrackEntry: TrackNumber 1, TrackType, CodecID
    0x16, 0x54, 0xAE, 0x6B, 0xC5, 0xAE, 0xC3,
    0xD7, 0x81, 0x01, 0x83, 0x81, 0x01, 0x86, 0x86, 0x56, 0x5F, 0x46, 0x46, 0x56, 0x31,
    // Video: 6x4
    0xE0, 0x86, 0xB0, 0x81, 0x06, 0xBA, 0x81, 0x04,
    // CodecPrivate
    0x63, 0xA2, 0xAA,
    0x56, 0x2B, 0x84, 0xDE, 0x42, 0x71, 0x73, 0x01, 0xD2, 0x7B, 0x60, 0xFE, 0xB5, 0x96, 0x54, 0x0A,
    0x26, 0xA1, 0x41, 0xFD, 0xFC, 0x10, 0x61, 0xFC, 0xBC, 0x1B, 0x49, 0x33, 0xAE, 0xEE, 0x9A, 0x77,
    0xED, 0x11, 0xF4, 0xA7, 0x7E, 0x88, 0x0A, 0xA3, 0x75, 0xA2,
    // Cluster, of unknown size: Timestamp, SimpleBlock
    0x1F, 0x43, 0xB6, 0x75, 0xFF, 0xE7, 0x81, 0x00, 0xA3, 0x85, 0x81, 0x00, 0x00, 0x80, 0x11,
];

// What loads answer in turn: a name, a place of the file, what stands there in its stead, and the answer.
#[rattlefmt::skip]
const LOADS: [(&str, usize, u8, Result<u32, LoadFault>); 7] = [
    ("a", 0, 0x1A, Ok(0)),
    ("a", 0, 0x00, Err(LoadFault::SameName)),
    ("b", 0, 0x00, Err(LoadFault::Clip(ClipFault::Ebml { at: 0 }))),
    ("b", 94, 0xA3, Err(LoadFault::Record(RecordFault::Parity))),
    ("b", 46, 0x02, Err(LoadFault::Slices)),
    ("b", 46, 0x05, Err(LoadFault::Slices)),
    ("b", 46, 0x03, Ok(1)),
];

#[test]
fn loads(rt: HostRuntime) -> Result<(), Fail> {
    let mut shelf = Shelf::start(rt.alloc());
    for (name, place, byte, answer) in LOADS {
        let mut bytes = Vec::from_slice(rt.alloc(), &FILE)?;
        bytes[place] = byte;
        assert_eq!(rt; shelf.load(rt.alloc(), name, 0, bytes), answer);
    }
    Ok(())
}

/// A grey file of 2x2 with one packet. Its record has one slice, the range coder and no error correction.
#[rattlefmt::skip]
const GREY: [u8; 95] = [
    // EBML: DocType
    0x1A, 0x45, 0xDF, 0xA3, 0x8B, 0x42, 0x82, 0x88, 0x6D, 0x61, 0x74, 0x72, 0x6F, 0x73, 0x6B, 0x61,
    // Segment, of unknown size
    0x18, 0x53, 0x80, 0x67, 0xFF,
    // Tracks and TrackEntry: TrackNumber 1, TrackType, CodecID
    0x16, 0x54, 0xAE, 0x6B, 0xB2, 0xAE, 0xB0,
    0xD7, 0x81, 0x01, 0x83, 0x81, 0x01, 0x86, 0x86, 0x56, 0x5F, 0x46, 0x46, 0x56, 0x31,
    // Video: 2x2
    0xE0, 0x86, 0xB0, 0x81, 0x02, 0xBA, 0x81, 0x02,
    // CodecPrivate
    0x63, 0xA2, 0x97,
    0x56, 0x00, 0x30, 0x28, 0x86, 0xD9, 0xF2, 0x1C, 0xD8, 0x51, 0x26, 0xAB, 0x0C, 0x75, 0x8A, 0x23,
    0x9F, 0x3E, 0x62, 0xBE, 0xD2, 0x1F, 0x51,
    // Cluster, of unknown size: Timestamp, SimpleBlock
    0x1F, 0x43, 0xB6, 0x75, 0xFF, 0xE7, 0x81, 0x00, 0xA3, 0x89, 0x81, 0x00, 0x00, 0x80, 0xFF, 0xFF, 0x00, 0x00, 0x02,
];

// A picture's samples, plane after plane.
fn samples_of(alloc: Global, picture: &Picture) -> Result<Vec<u8>, AllocError> {
    let mut samples = Vec::new(alloc);
    let shape = picture.shape();
    for plane in 0..shape.plane_count() {
        for y in 0..shape.plane_height(plane) {
            samples.extend_from_slice(picture.row(plane, y))?;
        }
    }
    Ok(samples)
}

// What a step of a dissolve from 16 to 235 gives: a weight, and the sample.
const STEPS: [(u8, u8); 3] = [(64, 71), (128, 126), (192, 180)];

#[test]
fn dissolves(rt: HostRuntime) -> Result<(), Fail> {
    let shape = Shape::of(1, 1, Chroma::Grey).unwrap();
    let mut from = Picture::zero(rt.alloc(), shape)?;
    from.put_samples(0, 0, 0, &[16]);
    let mut to = Picture::zero(rt.alloc(), shape)?;
    to.put_samples(0, 0, 0, &[235]);
    for (weight, sample) in STEPS {
        let between = blend(rt.alloc(), &from, &to, weight)?;
        assert_eq!(rt; between.row(0, 0), [sample].as_slice());
    }
    Ok(())
}

// Whether a format of its own gives a black picture of these samples.
fn is_black(alloc: Global, shape: Shape, samples: &[u8]) -> bool
    requires { IsGridFor shape 1 1 }
{
    let format = Format::Own {
        shape,
        coder: Coder::Range,
        h: 1,
        v: 1,
    };
    match Shelf::start(alloc).ready(alloc, format) {
        Ok(library) => match library.render(alloc, Recipe::Black) {
            Ok(Picked::Frame(picture)) => match samples_of(alloc, &picture) {
                Ok(found) => found.as_slice() == samples,
                Err(_) => false,
            },
            _ => false,
        },
        Err(_) => false,
    }
}

#[test]
fn black(rt: HostRuntime) -> Result<(), Fail> {
    let shape = Shape::of(3, 3, Chroma::Shifts { h: 1, v: 1 }).unwrap();
    let samples = [
        16, 16, 16, 16, 16, 16, 16, 16, 16, 128, 128, 128, 128, 128, 128, 128, 128,
    ];
    assert!(rt; is_black(rt.alloc(), shape, &samples));
    Ok(())
}

// The samples of the first frame of the first clip, and its packet coded anew. None where it can't be rendered.
fn first_frame(
    alloc: Global,
    library: &Library,
) -> Result<Option<(Vec<u8>, Vec<u8>)>, EncodeFault> {
    library.lawful();
    if library.clips() == 0 {
        return Ok(None);
    }
    if !library.fits(0) {
        return Ok(None);
    }
    if library.frames(0) == 0 {
        return Ok(None);
    }
    match library.render(alloc, Recipe::Source { clip: 0, frame: 0 }) {
        Ok(Picked::Frame(picture)) => match samples_of(alloc, &picture) {
            Ok(samples) => {
                let packet = library.encode(alloc, &picture)?;
                Ok(Some((samples, packet)))
            }
            Err(_) => Err(EncodeFault::NoMemory),
        },
        _ => Ok(None),
    }
}

#[test]
fn frame_is_coded_anew(rt: HostRuntime) -> Result<(), Fail> {
    let mut shelf = Shelf::start(rt.alloc());
    let bytes = Vec::from_slice(rt.alloc(), &GREY)?;
    let number = shelf.load(rt.alloc(), "a", 0, bytes);
    assert_eq!(rt; number, Ok(0));
    match number {
        Ok(clip) => match shelf.ready(rt.alloc(), Format::As(clip)) {
            Ok(library) => match first_frame(rt.alloc(), &library) {
                Ok(Some((samples, packet))) => {
                    assert_eq!(rt; samples.as_slice(), [0; 4].as_slice());
                    assert_eq!(rt; packet.as_slice(), [0xFE, 0xEB, 0, 0, 2].as_slice());
                }
                _ => assert!(rt; false),
            },
            Err(_) => assert!(rt; false),
        },
        Err(_) => assert!(rt; false),
    }
    Ok(())
}
