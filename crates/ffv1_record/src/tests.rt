//! Records on worked bytes, and records that ffmpeg made.

use super::{Coder, Record, RecordFault, default_record};
use crate::field_writer::FieldWriter;
use crate::record::put_parity;
use ffv1_range::Transition;
use pic_planes::{Chroma, Shape};
use std::alloc::{AllocError, Global};
use std::process::Abort;
use std::test::Fail;

// Two table sets, 4:2:0, a grid of 2 x 2, range coded by the default table.
#[rattlefmt::skip]
const RANGE: [u8; 42] = [
    0x56, 0x00, 0x30, 0x9C, 0x75, 0xDF, 0xF4, 0x60, 0xB4, 0x3A, 0x42, 0xD7, 0xD4, 0xD6, 0x86, 0x2F,
    0x74, 0x92, 0x4A, 0x72, 0xE6, 0x12, 0x9B, 0xF9, 0x2F, 0xBA, 0xD1, 0x40, 0x0F, 0x89, 0xAC, 0x8F,
    0xC7, 0x82, 0x07, 0xEE, 0xBC, 0x18, 0xC6, 0x1F, 0x6F, 0xC4,
];

// The same with a grid of 3 x 2, Golomb-Rice coded.
#[rattlefmt::skip]
const RICE: [u8; 42] = [
    0x56, 0x2B, 0x84, 0xDE, 0x42, 0x71, 0x73, 0x01, 0xD2, 0x7B, 0x60, 0xFE, 0xB5, 0x96, 0x54, 0x0A,
    0x26, 0xA1, 0x41, 0xFD, 0xFC, 0x10, 0x61, 0xFC, 0xBC, 0x1B, 0x49, 0x33, 0xAE, 0xEE, 0x9A, 0x77,
    0xED, 0x11, 0xF4, 0xA7, 0x7E, 0x88, 0x0A, 0xA3, 0x75, 0xA2,
];

// 4:2:2 without error correction, range coded by a table of its own.
#[rattlefmt::skip]
const DELTAS: [u8; 190] = [
    0x56, 0x06, 0x1E, 0x2F, 0xFD, 0xB8, 0x46, 0xD7, 0x70, 0x97, 0x30, 0x01, 0x86, 0x01, 0xEE, 0xE1,
    0x1C, 0xE6, 0xBD, 0x45, 0x4D, 0xB5, 0x38, 0x27, 0x74, 0xD8, 0x2E, 0x10, 0x7D, 0x75, 0xC5, 0xAA,
    0xE3, 0x3D, 0x60, 0x2C, 0xD8, 0x86, 0x83, 0xFE, 0x5B, 0x47, 0xB1, 0x0F, 0xC5, 0x5E, 0xF1, 0x7B,
    0xFF, 0x81, 0x78, 0xB5, 0x7D, 0xC1, 0x21, 0x22, 0x21, 0xBE, 0x19, 0xC6, 0x51, 0xD9, 0x31, 0x0F,
    0x08, 0xB6, 0x7F, 0x7A, 0xB2, 0xC9, 0xDC, 0xCA, 0x59, 0x9E, 0xC7, 0xDD, 0xFD, 0xE3, 0x33, 0x07,
    0xC7, 0x87, 0xDD, 0xEE, 0x74, 0x87, 0xE2, 0x65, 0xC4, 0xFB, 0xFC, 0xD4, 0xC0, 0x1C, 0xCD, 0x25,
    0xE4, 0x68, 0x4A, 0xD7, 0x0E, 0xDF, 0x1A, 0x52, 0x35, 0xBE, 0x56, 0x67, 0xFE, 0x30, 0x6F, 0xBE,
    0x96, 0xC5, 0x60, 0x02, 0x38, 0x4C, 0x2E, 0x17, 0xC2, 0x33, 0x4D, 0x3D, 0x63, 0xA0, 0x79, 0xD1,
    0x30, 0x0A, 0x50, 0x48, 0x9D, 0xBA, 0xB4, 0x6D, 0xDF, 0x20, 0x4C, 0xE3, 0x65, 0xA7, 0xA2, 0x21,
    0x9D, 0xE7, 0x99, 0x32, 0x1B, 0xDD, 0xC8, 0x24, 0x91, 0x75, 0x86, 0x2F, 0x66, 0x18, 0x31, 0x61,
    0x12, 0xE0, 0x78, 0x9E, 0x12, 0x8E, 0xC0, 0x62, 0xC5, 0x97, 0xD8, 0xE9, 0x2C, 0x8E, 0x34, 0x13,
    0x7A, 0x87, 0xD5, 0xEB, 0xD6, 0xA1, 0xFA, 0x28, 0xB1, 0x8C, 0xD1, 0x20, 0x10, 0x38,
];

#[test]
fn records_of_ffmpeg(rt: HostRuntime) -> Result<(), Fail> {
    let yuv420 = Chroma::Shifts { h: 1, v: 1 };
    let yuv422 = Chroma::Shifts { h: 1, v: 0 };
    let table = [
        (RANGE.as_slice(), Coder::Range, yuv420, 2, 2, true),
        (RICE.as_slice(), Coder::Rice, yuv420, 3, 2, true),
        (DELTAS.as_slice(), Coder::Range, yuv422, 2, 2, false),
    ];
    for (bytes, coder, chroma, columns, rows, ec) in table {
        let record = Record::read(rt.alloc(), bytes)?;
        assert_eq!(rt; record.coder(), coder);
        assert_eq!(rt; record.chroma(), chroma);
        assert_eq!(rt; (record.columns(), record.rows()), (columns, rows));
        assert_eq!(rt; record.ec(), ec);
        assert!(rt; has_contexts(&record, &[666, 7_563]));
        assert_eq!(rt; record.write(rt.alloc())?.as_slice(), bytes);
    }
    Ok(())
}

// Whether a record has a table set for each of these counts of contexts.
fn has_contexts(record: &Record, counts: &[u32]) -> bool {
    let sets = record.table_sets();
    for (set, count) in sets.iter().zip(counts) {
        if set.context_count() != *count {
            return false;
        }
    }
    sets.len() == counts.len()
}

#[test]
fn faults(rt: HostRuntime) -> Result<(), Fail> {
    let initial_states = record_of_fields(rt.alloc(), true)?;
    let transition = record_of_fields(rt.alloc(), false)?;
    let table = [
        ([0; 5].as_slice(), RecordFault::Short),
        ([0, 0, 0, 0, 0, 1].as_slice(), RecordFault::Parity),
        ([0; 6].as_slice(), RecordFault::Version),
        (initial_states.as_slice(), RecordFault::InitialStates),
        (transition.as_slice(), RecordFault::Transition),
    ];
    for (bytes, fault) in table {
        assert_eq!(rt; Record::read(rt.alloc(), bytes).err(), Some(fault));
    }
    Ok(())
}

// A default record whose set has initial states of its own, or the start of one with the coder type 2 whose first delta gives 0.
fn record_of_fields(alloc: Global, has_states: bool) -> Result<Vec<u8>, AllocError> {
    let default = Transition::default_table();
    let mut fields = FieldWriter::start(alloc, &default);
    if has_states {
        fields.coding(1, &default)?;
        fields.planes(Chroma::Grey)?;
        fields.grid(1, 1, 1)?;
        fields.sets(&[crate::default::default_set(alloc)?])?;
        fields.flag(true)?;
    } else {
        fields.number(3)?;
        fields.number(4)?;
        fields.number(2)?;
        fields.delta(0, 0)?;
    }
    let mut bytes = fields.finish()?;
    put_parity(&mut bytes)?;
    Ok(bytes)
}

#[test]
fn default_is_read_back(rt: HostRuntime) -> Result<(), Fail> {
    let grey = Shape::of(1, 1, Chroma::Grey).ok_or("a shape")?;
    let record = default_record(rt.alloc(), grey, Coder::Rice, 1, 1)?;
    is_read_back(&rt, rt.alloc(), &record)?;
    assert!(rt; record.suits(grey) && record.ec() && has_contexts(&record, &[365]));
    let yuv420 = Shape::of(1, 1, Chroma::Shifts { h: 1, v: 1 }).ok_or("a shape")?;
    let record = default_record(rt.alloc(), yuv420, Coder::Range, 1, 1)?.with_ec(false);
    is_read_back(&rt, rt.alloc(), &record)?;
    assert!(rt; record.suits(yuv420) && !record.ec());
    Ok(())
}

fn is_read_back(rt: &impl Abort, alloc: Global, record: &Record) -> Result<(), Fail> {
    let bytes = record.write(alloc)?;
    let again = Record::read(alloc, bytes.as_slice())?;
    assert_eq!(rt; again.coder(), record.coder());
    assert_eq!(rt; again.chroma(), record.chroma());
    assert_eq!(rt; again.ec(), record.ec());
    assert!(rt; has_contexts(&again, &[365]));
    assert_eq!(rt; again.write(alloc)?.as_slice(), bytes.as_slice());
    Ok(())
}

#[test]
fn grids_that_suit(rt: HostRuntime) -> Result<(), Fail> {
    let shape = Shape::of(5, 1, Chroma::Shifts { h: 1, v: 1 }).ok_or("a shape")?;
    for (columns, suits) in [(3, false), (2, true)] {
        let bytes = bytes_of_grid(rt.alloc(), columns)?;
        let record = Record::read(rt.alloc(), bytes.as_slice())?;
        assert_eq!(rt; record.suits(shape), suits, "{columns} columns");
    }
    Ok(())
}

// A record of 4:2:0 with a row of slices.
fn bytes_of_grid(alloc: Global, columns: u32) -> Result<Vec<u8>, AllocError> {
    let default = Transition::default_table();
    let mut fields = FieldWriter::start(alloc, &default);
    fields.coding(1, &default)?;
    fields.planes(Chroma::Shifts { h: 1, v: 1 })?;
    fields.grid(columns.max(1), 1, 1)?;
    fields.sets(&[crate::default::default_set(alloc)?])?;
    fields.ending(1, false, 1)?;
    let mut bytes = fields.finish()?;
    put_parity(&mut bytes)?;
    Ok(bytes)
}
