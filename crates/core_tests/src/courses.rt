//! Courses of edits and undos, with the timeline and the recipes that they make.

use crate::session::play;
use std::test::Fail;

/// A dissolve of four frames between ten and ten, of which an extraction takes two, and the undos.
#[rattlefmt::skip]
const DISSOLVED: [&str; 23] = [
    "0 edit insert 0 0 0 10 = ok 10",
    "0 edit insert 10 1 5 10 = ok 20",
    "0 edit dissolve 10 4 = ok 20",
    "0 line = | 0 0 10 | 1 5 10 mix 0 10 0 4 4",
    "0 play 9 = pending 0 9",
    "0 play 10 = pending mix 0 10 1 5 51",
    "0 play 11 = pending mix 0 11 1 6 102",
    "0 play 12 = pending mix 0 12 1 7 153",
    "0 play 13 = pending mix 0 13 1 8 204",
    "0 play 14 = pending 1 9",
    "0 edit extract 8 4 = ok 16",
    "0 play 8 = pending mix 0 12 1 7 153",
    "0 line = | 0 0 8 | 1 7 8 mix 0 12 2 2 4",
    "0 undo = ok 20",
    "0 play 10 = pending mix 0 10 1 5 51",
    "0 line = | 0 0 10 | 1 5 10 mix 0 10 0 4 4",
    "0 undo = ok 20",
    "0 line = | 0 0 10 | 1 5 10",
    "0 undo = ok 10",
    "0 undo = ok 0",
    "0 undo = refused NothingToUndo",
    "0 line = ",
    "0 redo = ok 10",
];

/// A shorter dissolve in place of a longer one leaves nothing of it; three frames have no cut at their start.
#[rattlefmt::skip]
const SHORTENED: [&str; 14] = [
    "0 edit insert 0 0 0 3 = ok 3",
    "0 edit dissolve 0 4 = refused NoCut",
    "0 edit insert 3 0 3 7 = ok 10",
    "0 edit insert 10 1 5 10 = ok 20",
    "0 edit dissolve 10 4 = ok 20",
    "0 edit dissolve 10 2 = ok 20",
    "0 play 10 = pending mix 0 10 1 5 85",
    "0 play 11 = pending mix 0 11 1 6 170",
    "0 play 12 = pending 1 7",
    "0 play 13 = pending 1 8",
    "0 undo = ok 20",
    "0 play 11 = pending mix 0 11 1 6 102",
    "0 redo = ok 20",
    "0 line = | 0 0 3 | 0 3 7 | 1 5 10 mix 0 10 0 2 2",
];

/// Trims, slips and relinks of one segment up to both ends of its clip, and the undos.
#[rattlefmt::skip]
const TRIMMED: [&str; 21] = [
    "0 edit insert 0 0 5 10 = ok 10",
    "0 edit trimin 0 2 = ok 8",
    "0 line = | 0 7 8",
    "0 edit trimin 3 -4 = ok 12",
    "0 line = | 0 3 12",
    "0 edit slip 0 -3 = ok 12",
    "0 line = | 0 0 12",
    "0 edit slip 0 -1 = refused OutsideClip",
    "0 edit trimout 0 12 = refused PastEnd",
    "0 edit relink 0 0 9 = refused OutsideClip",
    "0 edit relink 0 0 8 = ok 12",
    "0 line = | 0 8 12",
    "0 edit trimout 0 -1 = refused OutsideClip",
    "0 undo = ok 12",
    "0 line = | 0 0 12",
    "0 undo = ok 12",
    "0 undo = ok 8",
    "0 undo = ok 10",
    "0 line = | 0 5 10",
    "0 undo = ok 0",
    "0 undo = refused NothingToUndo",
];

#[test]
fn courses_lead_there_and_back(rt: HostRuntime) -> Result<(), Fail> {
    play(&rt, rt.alloc(), 4, 100, &DISSOLVED)?;
    play(&rt, rt.alloc(), 4, 100, &SHORTENED)?;
    play(&rt, rt.alloc(), 4, 100, &TRIMMED)?;
    Ok(())
}
