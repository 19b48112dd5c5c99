//! Worked rows.
ghost use Rattle.std.specs.Prelude.{◌≡◌, ◌≤◌, ◌<◌, ◌^◌, IfOk, OnOk, length};
ghost use Rattle.pic_planes.specs.Shape.{Layout};
ghost use Rattle.ffv1_slice.specs.Reading.{ContextsFit};
ghost use Rattle.ffv1_slice.specs.Room.{room};
ghost use Rattle.ffv1_slice.specs.Slice.{CanHold};

use ffv1_golomb::{RiceScratch, decode_rice_slice, encode_rice_slice};
use ffv1_range::{RangeReader, Transition};
use ffv1_rice::BitWriter;
use ffv1_slice::{Areas, Grid, Header, Quantization, SliceFault};
use pic_planes::{Chroma, Picture, Shape};
use std::alloc::{AllocError, Global};
use std::test::Fail;

const GRID: Grid = Grid {
    columns: 1,
    rows: 1,
    table_sets: 1,
};

const WHOLE: Header = Header {
    x: 0,
    y: 0,
    columns: 1,
    rows: 1,
    luma_set: 0,
    chroma_set: 0,
};

// Tables with one context, which is 0.
fn flat_tables() -> [[i16; 256]; 5]
    ensures { ContextsFit result 1 }
{
    [[0; 256]; 5]
}

// The area of a whole picture.
fn whole_area(shape: Shape) -> Areas
    ensures { CanHold shape (room 1 shape.width) result }
{
    let _width = shape.width();
    let _height = shape.height();
    WHOLE.areas(GRID, shape)
}

// What a picture is written as.
fn written(alloc: Global, picture: &Picture) -> Result<Vec<u8>, AllocError> {
    let shape = picture.shape();
    let tables = flat_tables();
    let flat = Quantization {
        tables: &tables,
        context_count: 1,
    };
    let mut bits = BitWriter::start(alloc);
    let mut scratch = RiceScratch::start(alloc, 1, shape.width() as usize)?;
    encode_rice_slice(
        &mut bits,
        flat,
        flat,
        whole_area(shape),
        &mut scratch,
        picture,
    )?;
    Ok(bits.finish())
}

// What a content without a header is read as, into a picture.
fn read(
    alloc: Global,
    content: &[u8],
    picture: &mut Picture,
) -> Result<Result<(), SliceFault>, AllocError>
    requires content { length content.now < 2 ^ 60 }
{
    let shape = picture.shape();
    let tables = flat_tables();
    let flat = Quantization {
        tables: &tables,
        context_count: 1,
    };
    let mut scratch = RiceScratch::start(alloc, 1, shape.width() as usize)?;
    let table = Transition::default_table();
    let reader = RangeReader::over(content, &table);
    Ok(decode_rice_slice(
        reader,
        content,
        flat,
        flat,
        whole_area(shape),
        &mut scratch,
        picture,
    ))
}

// A grey picture of one row.
fn row_picture(alloc: Global, row: &[u8]) -> Result<Option<Picture>, AllocError> {
    if row.len() > 1000 {
        return Ok(None);
    }
    let Some(shape) = Shape::of(row.len() as u32, 1, Chroma::Grey) else {
        return Ok(None);
    };
    let mut picture = Picture::zero(alloc, shape)?;
    if picture.shape().width() as usize != row.len() {
        return Ok(None);
    }
    picture.put_samples(0, 0, 0, row);
    Ok(Some(picture))
}

fn first_row(picture: &Picture) -> &[u8] {
    let _height = picture.shape().plane_height(0);
    picture.row(0, 0)
}

#[test]
#[rattlefmt::skip]
fn worked_rows(rt: HostRuntime) -> Result<(), Fail> {
    let mut samples = [0; 301];
    samples[300] = 5;
    // 300 samples 0 and a 5: 22 bits 1, 00010000 and 00100. 300 samples 0: 23 bits 1. The first byte is the range coder's.
    for (row, content) in [
        (samples.as_slice(), [0, 0xFF, 0xFF, 0xFC, 0x40, 0x80].as_slice()),
        (&samples[..300], [0, 0xFF, 0xFF, 0xFE].as_slice()),
    ] {
        let picture = row_picture(rt.alloc(), row)?.ok_or("a picture")?;
        assert!(rt; content.len() > 1 && content.len() < 10);
        assert_eq!(rt; written(rt.alloc(), &picture)?.as_slice(), &content[1..]);
        let mut found = Picture::blank(rt.alloc(), picture.shape())?;
        assert_eq!(rt; read(rt.alloc(), content, &mut found)?, Ok(()));
        assert_eq!(rt; first_row(&found), row);
    }
    Ok(())
}

#[test]
#[rattlefmt::skip]
fn worked_faults(rt: HostRuntime) -> Result<(), Fail> {
    for (content, fault) in [
        ([0, 0x00, 0x07, 0xF8].as_slice(), SliceFault::Symbol),
        ([0, 0x00, 0x00].as_slice(), SliceFault::Overrun),
    ] {
        assert!(rt; content.len() < 10);
        let mut picture = row_picture(rt.alloc(), &[0])?.ok_or("a picture")?;
        assert_eq!(rt; read(rt.alloc(), content, &mut picture)?, Err(fault));
    }
    Ok(())
}
