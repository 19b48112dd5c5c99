//! Each edit and each of its refusals. What is made is undone, redone and undone again.

use crate::reading::{Words, words_of};
use crate::session::Session;
use std::alloc::{AllocError, Global};
use std::process::Abort;
use std::test::Fail;
use time_list::ListLane;
use tl_model::{Edit, Segment, Segments, Side};

/// Ten frames of the first clip, ten of the second, which dissolve in over four, and six of black.
const LINE: &str = "| 0 0 10 | 1 5 10 mix 0 10 0 4 4 | black 6";

/// Each edit of that timeline, and what it makes, or its refusal: each refusal of each.
#[rattlefmt::skip]
const EDITS: [&str; 62] = [
    "insert 5 0 12 3 = | 0 0 5 | 0 12 3 | 0 5 5 | 1 5 10 mix 0 10 0 4 4 | black 6",
    "insert 12 black 1 = | 0 0 10 | 1 5 2 mix 0 10 0 2 4 | black 1 | 1 7 8 mix 0 12 2 2 4 | black 6",
    "insert 26 1 0 20 = | 0 0 10 | 1 5 10 mix 0 10 0 4 4 | black 6 | 1 0 20",
    "insert 27 black 1 = refused PastEnd",
    "insert 27 4 0 1 = refused PastEnd",
    "insert 0 4 0 1 = refused NoClip",
    "insert 0 2 20 1 = refused ShapeDiffers",
    "insert 0 0 15 6 = refused OutsideClip",
    "insert 0 0 0 1000000 = refused OutsideClip",
    "insert 0 black 999975 = refused TooManyFrames",
    "extract 8 4 = | 0 0 8 | 1 7 8 mix 0 12 2 2 4 | black 6",
    "extract 0 26 = nothing",
    "extract 25 2 = refused PastEnd",
    "overwrite 22 1 0 5 = | 0 0 10 | 1 5 10 mix 0 10 0 4 4 | black 2 | 1 0 5",
    "overwrite 9 0 0 2 = | 0 0 9 | 0 0 2 | 1 6 9 mix 0 11 1 3 4 | black 6",
    "overwrite 25 black 999975 = | 0 0 10 | 1 5 10 mix 0 10 0 4 4 | black 5 | black 999975",
    "overwrite 27 black 1 = refused PastEnd",
    "overwrite 0 4 0 1 = refused NoClip",
    "overwrite 0 2 0 1 = refused ShapeDiffers",
    "overwrite 0 1 16 5 = refused OutsideClip",
    "overwrite 26 black 999975 = refused TooManyFrames",
    "lift 9 2 = | 0 0 9 | black 2 | 1 6 9 mix 0 11 1 3 4 | black 6",
    "lift 25 2 = refused PastEnd",
    "split 12 = | 0 0 10 | 1 5 2 mix 0 10 0 2 4 | 1 7 8 mix 0 12 2 2 4 | black 6",
    "split 10 = | 0 0 10 | 1 5 10 mix 0 10 0 4 4 | black 6",
    "split 26 = refused PastEnd",
    "trimin 19 3 = | 0 0 10 | 1 8 7 mix 0 13 3 1 4 | black 6",
    "trimin 12 4 = | 0 0 10 | 1 9 6 | black 6",
    "trimin 12 -2 = | 0 0 10 | 1 3 12 | black 6",
    "trimin 12 0 = | 0 0 10 | 1 5 10 mix 0 10 0 4 4 | black 6",
    "trimin 26 0 = refused PastEnd",
    "trimin 12 10 = refused PastEnd",
    "trimin 12 -6 = refused OutsideClip",
    "trimin 20 -999975 = refused TooManyFrames",
    "trimout 12 7 = | 0 0 10 | 1 5 3 mix 0 10 0 3 4 | black 6",
    "trimout 3 -2 = | 0 0 12 | 1 5 10 mix 0 10 0 4 4 | black 6",
    "trimout 26 0 = refused PastEnd",
    "trimout 12 10 = refused PastEnd",
    "trimout 12 -6 = refused OutsideClip",
    "trimout 25 -999975 = refused TooManyFrames",
    "slip 12 5 = | 0 0 10 | 1 10 10 mix 0 10 0 4 4 | black 6",
    "slip 12 -5 = | 0 0 10 | 1 0 10 mix 0 10 0 4 4 | black 6",
    "slip 26 0 = refused PastEnd",
    "slip 12 6 = refused OutsideClip",
    "slip 12 -6 = refused OutsideClip",
    "dissolve 10 2 = | 0 0 10 | 1 5 10 mix 0 10 0 2 2 | black 6",
    "dissolve 10 10 = | 0 0 10 | 1 5 10 mix 0 10 0 10 10 | black 6",
    "dissolve 20 5 = | 0 0 10 | 1 5 10 mix 0 10 0 4 4 | black 6 mix 1 15 0 5 5",
    "dissolve 10 0 = | 0 0 10 | 1 5 10 | black 6",
    "dissolve 26 1 = refused PastEnd",
    "dissolve 26 0 = refused PastEnd",
    "dissolve 0 4 = refused NoCut",
    "dissolve 5 0 = refused NoCut",
    "dissolve 20 6 = refused OutsideClip",
    "dissolve 20 7 = refused OutsideClip",
    "dissolve 10 11 = refused MixTooLong",
    "relink 12 0 10 = | 0 0 10 | 0 10 10 mix 0 10 0 4 4 | black 6",
    "relink 20 1 14 = | 0 0 10 | 1 5 10 mix 0 10 0 4 4 | 1 14 6",
    "relink 26 0 0 = refused PastEnd",
    "relink 0 4 0 = refused NoClip",
    "relink 0 2 0 = refused ShapeDiffers",
    "relink 12 0 11 = refused OutsideClip",
];

/// Segments in place of that timeline.
#[rattlefmt::skip]
const REPLACEMENTS: [&str; 11] = [
    "replace | 1 0 2 | 0 0 3 mix black 1 2 5 = | 1 0 2 | 0 0 3 mix black 1 2 5",
    "replace = nothing",
    "replace | black 1000000 = | black 1000000",
    "replace | 4 0 1 = refused NoClip",
    "replace | 1 0 4 mix 4 0 0 1 1 = refused NoClip",
    "replace | 2 0 1 = refused ShapeDiffers",
    "replace | 0 15 6 = refused OutsideClip",
    "replace | 1 0 4 mix 0 17 0 4 4 = refused OutsideClip",
    "replace | 1 0 3 mix 0 0 0 4 4 = refused MixTooLong",
    "replace | 1 0 3 mix 0 0 0 3 251 = refused MixTooLong",
    "replace | black 1000001 = refused TooManyFrames",
];

/// A timeline of as many frames as may be.
const LONG: &str = "| black 300 | black 999700";

/// What is too much there.
#[rattlefmt::skip]
const AT_THE_LAST_FRAME: [&str; 4] = [
    "dissolve 300 250 = | black 300 | black 999700 mix black 0 250 250",
    "dissolve 300 251 = refused MixTooLong",
    "insert 0 black 1 = refused TooManyFrames",
    "overwrite 1000000 black 1 = refused TooManyFrames",
];

/// What is too much for a timeline of as many segments as may be, of which the first has three frames.
#[rattlefmt::skip]
const AT_THE_LAST_SEGMENT: [&str; 5] = [
    "insert 0 black 1 = refused TooManySegments",
    "extract 1 1 = refused TooManySegments",
    "overwrite 1 black 1 = refused TooManySegments",
    "lift 1 1 = refused TooManySegments",
    "split 1 = refused TooManySegments",
];

/// So many segments: three frames of a clip, and single black ones.
fn many(alloc: Global, count: u32) -> Result<Segments, AllocError> {
    let first = Segment {
        first: Side::Clip { clip: 0, frame: 0 },
        len: 3,
        mix: None,
    };
    let mut items = vec![in alloc; first]?;
    for _ in 1..count {
        items.push(Segment {
            first: Side::Black,
            len: 1,
            mix: None,
        })?;
    }
    Ok(Segments::from_vec(items))
}

/// The segments of a text.
fn segments_of(rt: &impl Abort, alloc: Global, text: &str) -> Result<Segments, AllocError> {
    let words = words_of(alloc, text.as_bytes())?;
    Words {
        left: words.as_slice(),
    }
    .segments(rt, alloc)
}

/// The timeline has these segments.
fn expect_state(
    rt: &impl Abort,
    alloc: Global,
    session: &mut Session<ListLane>,
    wanted: &Segments,
    row: &str,
) -> Result<(), AllocError> {
    let found = session.state(rt, alloc)?;
    assert!(rt; found.as_slice() == wanted.as_slice(), "at {row}");
    Ok(())
}

/// Undoes an edit, redoes and undoes it.
fn take_back(
    rt: &impl Abort,
    alloc: Global,
    session: &mut Session<ListLane>,
    before: &Segments,
    row: &str,
    made: &Segments,
) -> Result<(), AllocError> {
    expect_state(rt, alloc, session, made, row)?;
    let _ = session.undo(alloc, 0)?;
    expect_state(rt, alloc, session, before, row)?;
    let _ = session.redo(alloc, 0)?;
    expect_state(rt, alloc, session, made, row)?;
    let _ = session.undo(alloc, 0)?;
    Ok(())
}

/// Makes the edit of a row on a timeline, which is there again at the end.
fn expect_edit(
    rt: &impl Abort,
    alloc: Global,
    session: &mut Session<ListLane>,
    before: &Segments,
    row: &str,
) -> Result<(), AllocError> {
    let (edit, made) = row
        .split_once(" = ")
        .expect(rt, "an edit and what it makes");
    let words = words_of(alloc, edit.as_bytes())?;
    let edit = Words {
        left: words.as_slice(),
    }
    .edit(rt, alloc)?;
    let told = session.edit(rt, alloc, 0, &edit)?;
    if made.starts_with("refused") {
        assert_eq!(rt; told.as_str(), made, "at {row}");
    } else {
        assert!(rt; told.as_str().starts_with("ok"), "at {row}");
        let segments = segments_of(rt, alloc, made)?;
        take_back(rt, alloc, session, before, row, &segments)?;
    }
    expect_state(rt, alloc, session, before, row)
}

/// Makes each edit of a table on a timeline.
fn make_all(
    rt: &impl Abort,
    alloc: Global,
    session: &mut Session<ListLane>,
    before: &Segments,
    rows: &[&str],
) -> Result<(), AllocError> {
    let start = Edit::Replace {
        segments: before.copy(alloc)?,
    };
    let told = session.edit(rt, alloc, 0, &start)?;
    assert!(rt; told.as_str().starts_with("ok"));
    for row in rows {
        expect_edit(rt, alloc, session, before, row)?;
    }
    Ok(())
}

/// The same in a session of its own.
fn play_edits(
    rt: &impl Abort,
    alloc: Global,
    before: &Segments,
    rows: &[&str],
) -> Result<(), AllocError> {
    let mut session: Session<ListLane> = Session::start(rt, alloc, 1, 10_000);
    let made = make_all(rt, alloc, &mut session, before, rows);
    session.end(rt);
    made
}

/// A replacement of one segment too many.
fn refuse_too_many(rt: &impl Abort, alloc: Global) -> Result<(), AllocError> {
    let segments = many(alloc, 100_001)?;
    let mut session: Session<ListLane> = Session::start(rt, alloc, 1, 100);
    let told = session.edit(rt, alloc, 0, &Edit::Replace { segments });
    session.end(rt);
    assert_eq!(rt; told?.as_str(), "refused TooManySegments");
    Ok(())
}

#[test]
fn each_edit_is_made_and_taken_back_or_refused(rt: HostRuntime) -> Result<(), Fail> {
    let alloc = rt.alloc();
    for rows in [EDITS.as_slice(), REPLACEMENTS.as_slice()] {
        play_edits(&rt, alloc, &segments_of(&rt, alloc, LINE)?, rows)?;
    }
    play_edits(
        &rt,
        alloc,
        &segments_of(&rt, alloc, LONG)?,
        &AT_THE_LAST_FRAME,
    )?;
    play_edits(&rt, alloc, &many(alloc, 100_000)?, &AT_THE_LAST_SEGMENT)?;
    refuse_too_many(&rt, alloc)?;
    Ok(())
}
