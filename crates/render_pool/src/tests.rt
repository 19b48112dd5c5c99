//! Workers over a board with one caller.

ghost use Rattle.std.specs.Prelude.{◌≡◌};
ghost use Rattle.tl_model.specs.Edit.{IsEdit};

use crate::end::WorkEnd;
use crate::work::work_until_stopped;
use edit_desk::{Alone, Desk};
use render_core::{Stopper, WantReply};
use std::alloc::Global;
use std::process::Abort;
use std::sync::Wait;
use test_media::Numbers;
use time_list::ListLane;
use tl_model::{Edit, EditReply, Journal, Side};
use tl_ports::OpenGate;

/// A board with two queued jobs, of two frames of a clip.
fn wanted(rt: &impl Abort, alloc: Global, limit: u64) -> (Alone<Numbers, ListLane>, Stopper) {
    assert!(rt; 1 <= limit && limit < 100);
    let started: (Alone<Numbers, ListLane>, Stopper) = Alone::start(
        alloc, Numbers, 4, limit,
    ).expect(rt, "memory");
    let (mut desk, stopper) = started;
    let edit = Edit::Insert {
        at: 0,
        take: Side::Clip { clip: 0, frame: 0 },
        len: 2,
    };
    assert!(rt; edit.is_well_formed());
    let edited = desk.edit(alloc, &edit).expect(rt, "room");
    assert_eq!(rt; edited, EditReply::Ok { len: 2 });
    let told = desk.want(0, 2).expect(rt, "room");
    assert_eq!(rt; told, WantReply::Wanted { count: 2 });
    (desk, stopper)
}

/// How a worker ends, and what the journal then is.
fn worked<R: Wait + Abort>(rt: &R, alloc: Global, limit: u64) -> (WorkEnd, Journal) {
    let (mut desk, stopper) = wanted(rt, alloc, limit);
    let end = work_until_stopped(rt, &mut desk, alloc, &OpenGate);
    assert!(rt; !desk.is_stopped());
    desk.stop(stopper);
    (end, desk.finish())
}

/// A limit of the journal, and how long the journal is at the claim that doesn't fit.
struct Row {
    limit: u64,
    len: u64,
}

/// A claim wants room for itself, its end, and the stop, which is owed. Behind the edit and the want there is none with 4 entries; with 5
/// and 6 there is for the first job. The worker ends at the first claim that doesn't fit, though its job is still queued: it tries no
/// other.
const ROWS: [Row; 3] = [
    Row { limit: 4, len: 2 },
    Row { limit: 5, len: 4 },
    Row { limit: 6, len: 4 },
];

#[test]
fn a_worker_ends_at_a_full_journal(rt: HostRuntime) {
    for row in &ROWS {
        let (end, journal) = worked(&rt, rt.alloc(), row.limit);
        assert_eq!(rt;
            end,
            WorkEnd::JournalFull {
                len: row.len,
                owed: 1
            }
        );
        assert_eq!(rt; journal.as_slice().len() as u64, row.len + 1);
    }
}

#[test]
fn a_worker_ends_where_the_session_was_stopped(rt: HostRuntime) {
    let (mut desk, stopper) = wanted(&rt, rt.alloc(), 99);
    assert!(rt; !desk.is_stopped());
    desk.stop(stopper);
    let end = work_until_stopped(&rt, &mut desk, rt.alloc(), &OpenGate);
    assert_eq!(rt; end, WorkEnd::Stopped { len: 3 });
    assert_eq!(rt; desk.finish().as_slice().len(), 3);
}
