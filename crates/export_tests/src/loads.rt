//! Clips that are loaded beside another one: faulty records, grids that don't suit, and clips that differ in record, size or chroma.

use crate::clips::{file_of, file_with, library_beside};
use crate::damaged::HEAD;
use crate::exporting::{Cut, exported, frames};
use crate::tables::{
    CHANGED, CHROMA, CODED, FAULTY, OTHER, PACKET, RECORD, THREE_COLUMNS, TWO_COLUMNS,
};
use clip_store::{Library, LoadFault};
use ffv1_record::RecordFault;
use std::alloc::Global;
use std::process::Abort;
use std::test::Fail;
use tl_model::{Ending, Media, Side};

/// A record and a size of pictures, what the load answers, and where the clip is loaded whether it fits and whether its packets can be
/// copied.
#[derive(Clone, Copy)]
struct Row {
    record: &'static [u8],
    size: (u8, u8),
    answer: Result<u32, LoadFault>,
    seen: Option<(bool, bool)>,
}

/// Beside a grey clip of 2x2.
#[rattlefmt::skip]
fn rows() -> [Row; 9] {
    [
        Row { record: &RECORD, size: (2, 2), answer: Ok(1), seen: Some((true, true)) },
        Row { record: &OTHER, size: (2, 2), answer: Ok(1), seen: Some((true, false)) },
        Row { record: &CHANGED, size: (2, 2), answer: Err(LoadFault::Record(RecordFault::Parity)), seen: None },
        Row { record: &RECORD, size: (3, 2), answer: Ok(1), seen: Some((false, true)) },
        Row { record: &RECORD, size: (2, 3), answer: Ok(1), seen: Some((false, true)) },
        Row { record: &CHROMA, size: (2, 2), answer: Ok(1), seen: Some((false, false)) },
        // In 5x1 the last of three columns has the luma columns 3 and 4, and so the chroma column 1 of 0 to 2.
        Row { record: &TWO_COLUMNS, size: (5, 1), answer: Ok(1), seen: Some((false, false)) },
        Row { record: &THREE_COLUMNS, size: (5, 1), answer: Err(LoadFault::Slices), seen: None },
        Row { record: &THREE_COLUMNS, size: (2, 2), answer: Err(LoadFault::Slices), seen: None },
    ]
}

/// Whether the second clip fits, and whether its packets can be copied.
fn seen_of(library: &Library) -> Option<(bool, bool)> {
    if library.clips() < 2 {
        return None;
    }
    Some((library.fits(1), library.copies(1)))
}

/// Exports a frame of each clip: the packet of the second one is its own, or coded.
fn expect_packet(
    rt: &impl Abort,
    alloc: Global,
    library: &Library,
    packet: &[u8],
) -> Result<(), Fail> {
    let second = Cut(Side::Clip { clip: 1, frame: 0 }, 1, 0);
    let (ending, file) = exported(alloc, library, &[frames(0, 1), second], 0)?;
    assert_eq!(rt; ending, Ending::Done { frames: 2 });
    let at = HEAD + 22 + 23 + 13;
    assert!(rt; file.get(at..at + 10) == Some(packet));
    Ok(())
}

#[test]
fn clips_that_differ(rt: HostRuntime) -> Result<(), Fail> {
    let alloc = rt.alloc();
    for (number, row) in rows().iter().enumerate() {
        let other = file_of(alloc, row.record, row.size, &[PACKET.as_slice()])?;
        let first = file_with(alloc, 0, &PACKET)?;
        let (answer, library) = library_beside(alloc, first, other)?;
        assert_eq!(rt; answer, row.answer, "row {number}");
        assert_eq!(rt; seen_of(&library), row.seen, "row {number}");
        match row.seen {
            Some((true, true)) => expect_packet(&rt, alloc, &library, &PACKET)?,
            Some((true, false)) => expect_packet(&rt, alloc, &library, &CODED)?,
            _ => {}
        }
    }
    Ok(())
}

/// After each refusal the library is that of the first clip alone.
#[test]
fn faulty_records(rt: HostRuntime) -> Result<(), Fail> {
    let alloc = rt.alloc();
    for (record, fault) in FAULTY {
        let other = file_of(alloc, record, (2, 2), &[PACKET.as_slice()])?;
        let first = file_with(alloc, 0, &PACKET)?;
        let (answer, library) = library_beside(alloc, first, other)?;
        assert_eq!(rt; answer, Err(LoadFault::Record(fault)));
        assert_eq!(rt; library.clips(), 1, "after {fault:?}");
    }
    Ok(())
}
