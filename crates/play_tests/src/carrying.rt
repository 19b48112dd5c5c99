//! Exports of a board with one caller.

use edit_desk::{Alone, Desk};
use play_head::finish_exports;
use render_core::{AskReply, Stopper};
use std::alloc::Global;
use std::process::Abort;
use test_media::Blanks;
use time_list::ListLane;
use tl_model::{Act, Edit, EditReply, Ending, Entry, Journal, Name, Side};
use tl_ports::MemVault;

/// A board whose timeline is one black frame, of which an export is asked for.
fn asked(rt: &impl Abort, alloc: Global) -> (Alone<Blanks, ListLane>, Stopper) {
    let started: (Alone<Blanks, ListLane>, Stopper) = Alone::start(alloc, Blanks, 4, 100).expect(
        rt, "memory",
    );
    let (mut desk, stopper) = started;
    let edit = Edit::Insert {
        at: 0,
        take: Side::Black,
        len: 1,
    };
    assert!(rt; edit.is_well_formed());
    let edited = desk.edit(alloc, &edit).expect(rt, "room");
    assert_eq!(rt; edited, EditReply::Ok { len: 1 });
    let text = String::from_str(alloc, "o").expect(rt, "memory");
    let told = desk
        .ask_export(alloc, &Name::from_text(text))
        .expect(rt, "room");
    assert_eq!(rt; told, AskReply::Asked { export: 1 });
    (desk, stopper)
}

/// Carries the export out, to a vault of which the call of a number fails.
fn carried(rt: &impl Abort, alloc: Global, fail: u64) -> (Journal, MemVault) {
    let (mut desk, stopper) = asked(rt, alloc);
    let calls = vec![in alloc; fail].expect(rt, "memory");
    let mut vault = MemVault::start(alloc, calls);
    finish_exports(alloc, &mut desk, &mut vault, 25);
    assert!(rt; !desk.is_stopped());
    desk.stop(stopper);
    (desk.finish(), vault)
}

/// How the export ended, where the entry is its end.
fn ending_in(entry: &Entry) -> Option<Ending> {
    match &entry.act {
        Act::End { export: 1, ending } => Some(*ending),
        _ => None,
    }
}

/// A call that fails, how the export then ends, and how long the file is.
struct Row {
    fail: u64,
    ending: Ending,
    len: Option<usize>,
}

/// The first call begins the file, two start it, two put its Cluster, one the Cues, and the seventh ends it. 147 bytes stand
/// before the Cluster, 22 before its block, 13 before the packet, which is one byte, and 39 are the Cues.
#[rattlefmt::skip]
static ROWS: [Row; 3] = [
    Row { fail: 0, ending: Ending::Done { frames: 1 }, len: Some(222) },
    Row { fail: 1, ending: Ending::Sink, len: None },
    Row { fail: 7, ending: Ending::Sink, len: Some(222) },
];

/// The edit, the ask, the take, the end and the stop.
#[test]
fn exports_are_carried_out(rt: HostRuntime) {
    for row in &ROWS {
        let (journal, vault) = carried(&rt, rt.alloc(), row.fail);
        assert_eq!(rt; journal.as_slice().len(), 5);
        let end = journal.as_slice().get(3);
        assert_eq!(rt; end.and_then(ending_in), Some(row.ending));
        assert_eq!(rt; vault.file("o").map(|file| file.len()), row.len);
    }
}
