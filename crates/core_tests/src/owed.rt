//! Entries that are owed, the full journal, exports and the stop.

use crate::session::play;
use std::test::Fail;

/// Two held jobs and the stop are owed: of seven entries four stand, and a claim needs two more.
#[rattlefmt::skip]
const FULL: [&str; 7] = [
    "1 edit insert 0 0 0 10 = ok 10",
    "1 want 0 3 = wanted 3",
    "1 claim = claimed 1 0 0",
    "2 claim = claimed 2 0 1",
    "3 claim = full 4 3",
    "1 release = released",
    "2 release = released",
];

/// A board without jobs, before and after its stop.
#[rattlefmt::skip]
const IDLE: [&str; 3] = [
    "1 claim = idle 0",
    "0 stop = noted",
    "1 claim = stopped 1",
];

/// Exports have the timeline of their ask. Of 18 entries the take and the end of each export are owed.
#[rattlefmt::skip]
const EXPORTS: [&str; 19] = [
    "0 ask o.mkv = refused EmptyTimeline",
    "0 undo = refused NothingToUndo",
    "0 redo = refused NothingToRedo",
    "1 export sink = idle 3",
    "0 edit insert 0 0 0 10 = ok 10",
    "0 ask o.mkv = asked 1",
    "0 edit extract 0 4 = ok 6",
    "0 ask o.mkv = asked 2",
    "1 export 10 = taken 1 o.mkv | 0 0 10",
    "0 show 0 = render 0 4",
    "0 show 6 = past 6",
    "0 mark 3 = noted",
    "0 skip = noted",
    "0 undo = ok 10",
    "0 redo = ok 6",
    "0 stop = noted",
    "0 ask o.mkv = full 16 2",
    "1 export sink = taken 2 o.mkv | 0 4 6",
    "1 export sink = stopped 18",
];

#[test]
fn entries_are_owed_up_to_the_stop(rt: HostRuntime) -> Result<(), Fail> {
    play(&rt, rt.alloc(), 4, 7, &FULL)?;
    play(&rt, rt.alloc(), 4, 7, &IDLE)?;
    play(&rt, rt.alloc(), 4, 18, &EXPORTS)?;
    Ok(())
}

/// Replies of each call, with one filed result kept and 40 entries at most.
#[rattlefmt::skip]
const EACH_REPLY: [&str; 55] = [
    "0 claim = idle 0",
    "0 play 0 = past 0",
    "0 want 0 1 = past 0",
    "0 cancel 0 1 = past 0",
    "0 edit insert 1 black 1 = refused PastEnd",
    "0 edit insert 0 4 0 1 = refused NoClip",
    "0 edit insert 0 2 0 1 = refused ShapeDiffers",
    "0 edit insert 0 0 15 6 = refused OutsideClip",
    "0 edit insert 0 black 1000000 = ok 1000000",
    "0 edit insert 0 black 1 = refused TooManyFrames",
    "0 edit extract 0 1000000 = ok 0",
    "0 edit insert 0 0 0 10 = ok 10",
    "0 edit extract 9 2 = refused PastEnd",
    "0 want 0 3 = wanted 3",
    "0 want 0 4 = wanted 1",
    "0 play 0 = pending 0 0",
    "1 claim = claimed 1 0 0",
    "2 claim = claimed 2 0 1",
    "1 release = released",
    "1 claim = claimed 1 0 0",
    "1 file = filed",
    "0 play 0 = frame 0",
    "0 show 0 = frame 0",
    "0 want 0 1 = wanted 0",
    "0 cancel 1 2 = cancelled 2",
    "2 release = closed 24",
    "0 want 9 1 = wanted 1",
    "1 claim = claimed 4 0 3",
    "0 edit extract 3 1 = ok 9",
    "1 file = closed 28",
    "2 claim = claimed 5 0 9",
    "2 file = filed",
    "0 play 8 = fault 0 9 Empty",
    "0 show 8 = fault 0 9 Empty",
    "0 play 0 = pending 0 0",
    "0 play 9 = past 9",
    "0 want 0 2 = wanted 2",
    "1 claim = claimed 6 0 0",
    "2 claim = full 37 2",
    "0 play 1 = pending 0 1",
    "0 edit insert 0 black 1 = full 38 2",
    "0 undo = full 38 2",
    "0 redo = full 38 2",
    "0 want 0 1 = full 38 2",
    "0 cancel 0 1 = full 38 2",
    "0 play 0 = full 38 2",
    "0 show 0 = full 38 2",
    "0 ask o.mkv = full 38 2",
    "0 mark 1 = full 38 2",
    "0 skip = full 38 2",
    "2 claim = full 38 2",
    "1 release = released",
    "0 stop = noted",
    "1 claim = stopped 40",
    "0 play 0 = full 40 0",
];

#[test]
fn each_call_is_told_each_reply(rt: HostRuntime) -> Result<(), Fail> {
    play(&rt, rt.alloc(), 1, 40, &EACH_REPLY)?;
    Ok(())
}
