//! Worked headers and areas.

use ffv1_range::{RangeReader, RangeWriter, States, Transition};
use ffv1_slice::{Area, Grid, Header, HeaderFault, read_header};
use pic_planes::{Chroma, Shape};
use std::alloc::{AllocError, Global};
use std::test::Fail;

const GRID: Grid = Grid {
    columns: 2,
    rows: 3,
    table_sets: 2,
};

// What is read as a header from these numbers.
fn header_of(
    alloc: Global,
    table: &Transition,
    numbers: [u32; 9],
) -> Result<Result<Header, HeaderFault>, AllocError> {
    let mut writer = RangeWriter::start(alloc, table);
    let mut set = States::fresh();
    for number in numbers {
        writer.symbol(&mut set, i64::from(number), false)?;
    }
    let bytes = writer.finish(true)?;
    Ok(read_header(&mut RangeReader::over(bytes.as_slice(), table), GRID))
}

#[test]
#[rattlefmt::skip]
fn worked_headers(rt: HostRuntime) -> Result<(), Fail> {
    let table = Transition::of(&[128; 255]).ok_or("a table")?;
    let found = Header { x: 1, y: 0, columns: 1, rows: 3, luma_set: 0, chroma_set: 1 };
    for (numbers, expected) in [
        ([1, 0, 0, 2, 0, 1, 3, 4, 5], Ok(found)),
        ([1, 0, 1, 2, 0, 1, 3, 4, 5], Err(HeaderFault::Header)),
        ([1, 3, 0, 0, 9, 1, 3, 4, 5], Err(HeaderFault::Header)),
        ([1, 0, 0, 2, 0, 2, 3, 4, 5], Err(HeaderFault::TableIndex)),
    ] {
        assert_eq!(rt; header_of(rt.alloc(), &table, numbers)?, expected);
    }
    Ok(())
}

#[test]
#[rattlefmt::skip]
fn worked_areas(rt: HostRuntime) -> Result<(), Fail> {
    let shape = Shape::of(5, 4, Chroma::Shifts { h: 1, v: 1 }).ok_or("a shape")?;
    let header = Header { x: 1, y: 1, columns: 1, rows: 2, luma_set: 0, chroma_set: 0 };
    let areas = header.areas(GRID, shape);
    assert_eq!(rt; areas.luma, Area { plane: 0, x: 2, y: 1, width: 3, height: 3 });
    assert_eq!(rt; areas.chroma, Some(Area { plane: 1, x: 1, y: 0, width: 2, height: 2 }));
    Ok(())
}
