//! Jobs that are wanted, held, cancelled, filed and dropped.

use crate::session::play;
use std::test::Fail;

/// A wanted frame is cancelled while its job is held, and wanted again.
#[rattlefmt::skip]
const CANCELLED: [&str; 10] = [
    "1 edit insert 0 0 0 10 = ok 10",
    "1 want 5 1 = wanted 1",
    "1 claim = claimed 1 0 5",
    "1 cancel 5 1 = cancelled 1",
    "1 want 5 1 = wanted 1",
    "1 file = closed 4",
    "1 play 5 = pending 0 5",
    "1 claim = claimed 2 0 5",
    "1 file = filed",
    "1 play 5 = frame 5",
];

/// With one filed result kept, the latest stays.
#[rattlefmt::skip]
const ONE_FILED: [&str; 9] = [
    "1 edit insert 0 0 0 10 = ok 10",
    "1 want 0 2 = wanted 2",
    "1 claim = claimed 1 0 0",
    "1 file = filed",
    "1 claim = claimed 2 0 1",
    "1 file = filed",
    "1 play 0 = pending 0 0",
    "1 play 1 = frame 1",
    "1 play 10 = past 10",
];

/// A held job whose frame is taken out and comes back by an undo stays closed, and its frame gets a new job.
#[rattlefmt::skip]
const UNDONE: [&str; 11] = [
    "1 edit insert 0 0 0 10 = ok 10",
    "1 want 5 1 = wanted 1",
    "1 claim = claimed 1 0 5",
    "1 edit extract 5 1 = ok 9",
    "1 undo = ok 10",
    "1 want 5 1 = wanted 1",
    "1 file = closed 4",
    "1 claim = claimed 2 0 5",
    "1 release = released",
    "1 claim = claimed 2 0 5",
    "1 release = released",
];

/// After an undo and a redo a job that waited stays closed.
#[rattlefmt::skip]
const REDONE: [&str; 9] = [
    "0 edit insert 0 0 0 10 = ok 10",
    "0 want 5 1 = wanted 1",
    "0 undo = ok 0",
    "0 redo = ok 10",
    "1 claim = idle 4",
    "0 want 5 1 = wanted 1",
    "1 claim = claimed 2 0 5",
    "1 file = filed",
    "0 show 5 = frame 5",
];

/// After an undo and a redo a held job stays closed by the undo, whether it is filed or released.
#[rattlefmt::skip]
const HELD_AND_REDONE: [&str; 11] = [
    "0 edit insert 0 0 0 10 = ok 10",
    "0 want 5 1 = wanted 1",
    "1 claim = claimed 1 0 5",
    "0 undo = ok 0",
    "0 redo = ok 10",
    "0 want 5 1 = wanted 1",
    "1 file = closed 4",
    "1 claim = claimed 2 0 5",
    "0 undo = ok 0",
    "0 redo = ok 10",
    "1 release = closed 9",
];

#[test]
fn jobs_are_cancelled_filed_and_dropped(rt: HostRuntime) -> Result<(), Fail> {
    play(&rt, rt.alloc(), 4, 100, &CANCELLED)?;
    play(&rt, rt.alloc(), 1, 100, &ONE_FILED)?;
    play(&rt, rt.alloc(), 4, 100, &UNDONE)?;
    play(&rt, rt.alloc(), 4, 100, &REDONE)?;
    play(&rt, rt.alloc(), 4, 100, &HELD_AND_REDONE)?;
    Ok(())
}

/// A job that is held.
#[rattlefmt::skip]
const HELD: [&str; 3] = [
    "0 edit insert 0 0 0 10 = ok 10",
    "0 want 5 1 = wanted 1",
    "1 claim = claimed 1 0 5",
];

/// What comes while the job is held, as entry 4, and what its result and its release are then told.
#[rattlefmt::skip]
const LATE: [(&str, &str, &str); 11] = [
    ("0 cancel 5 1 = cancelled 1", "1 file = closed 4", "1 release = closed 4"),
    ("0 edit extract 5 1 = ok 9", "1 file = closed 4", "1 release = closed 4"),
    ("0 undo = ok 0", "1 file = closed 4", "1 release = closed 4"),
    ("0 edit lift 0 10 = ok 10", "1 file = closed 4", "1 release = closed 4"),
    ("0 edit extract 0 1 = ok 9", "1 file = filed", "1 release = released"),
    ("0 edit slip 0 0 = ok 10", "1 file = filed", "1 release = released"),
    ("0 edit split 5 = ok 10", "1 file = filed", "1 release = released"),
    ("0 edit relink 0 0 0 = ok 10", "1 file = filed", "1 release = released"),
    ("0 edit insert 11 0 0 1 = refused PastEnd", "1 file = filed", "1 release = released"),
    ("0 edit dissolve 0 4 = refused NoCut", "1 file = filed", "1 release = released"),
    ("0 cancel 10 1 = past 10", "1 file = filed", "1 release = released"),
];

#[test]
fn late_ends_are_told_what_closed_their_job(rt: HostRuntime) -> Result<(), Fail> {
    for (act, filed, released) in LATE {
        for end in [filed, released] {
            let [edit, want, claim] = HELD;
            play(&rt, rt.alloc(), 4, 100, &[edit, want, claim, act, end])?;
        }
    }
    Ok(())
}
