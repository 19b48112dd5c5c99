//! The calls of a roll, in order, and scripts that are played over a desk alone.

use crate::blacks::Blacks;
use edit_desk::{Alone, Desk};
use play_head::{Roll, Stop, play_script};
use render_core::Stopper;
use script_lang::read_script;
use std::alloc::Global;
use std::process::Abort;
use time_list::ListLane;
use tl_model::{Act, Clips};
use tl_ports::{MemSink, MemStore, OpenGate};

/// A call of a roll: what is wanted, or the frame that is played.
#[derive(Clone, Copy, Debug, PartialEq, Eq)]
enum Called {
    Want(u32, u32),
    Play(u32),
    Other,
}

fn told_as(act: &Act) -> Called {
    match act {
        Act::Want { first, len } => Called::Want(*first, *len),
        Act::Play { n } => Called::Play(*n),
        _ => Called::Other,
    }
}

fn expect_calls(rt: &impl Abort, mut roll: Roll, calls: &[Called]) {
    for call in calls {
        let next = roll.next().expect(rt, "a call");
        assert_eq!(rt; told_as(&next), *call);
    }
    assert!(rt; roll.next().is_none());
}

/// Three frames are wanted at once; of ten, the ninth and the tenth are wanted after the first and the second were played.
#[test]
#[rattlefmt::skip]
fn a_roll_wants_eight_frames_ahead(rt: HostRuntime) {
    use Called::{Play, Want};
    expect_calls(&rt, Roll::over(0, 3), &[Want(0, 3), Play(0), Play(1), Play(2)]);
    expect_calls(&rt, Roll::over(5, 10), &[
        Want(5, 8), Play(5), Want(13, 1), Play(6), Want(14, 1), Play(7), Play(8), Play(9), Play(10), Play(11), Play(12),
        Play(13), Play(14),
    ]);
}

/// Plays a script over the library of black pictures, to a screen whose first put fails.
fn expect_played(rt: &impl Abort, alloc: Global, text: &str, lines: &str, end: Result<(), Stop>) {
    let script = read_script(alloc, text.as_bytes()).expect(rt, "a script");
    let clips = Clips::from_vec(Vec::new(alloc));
    let mut store = MemStore::start(alloc, Vec::new(alloc));
    let fail = Vec::from_slice(alloc, &[1]).expect(rt, "memory");
    let mut screen = MemSink::start(alloc, fail);
    let mut out = MemSink::start(alloc, Vec::new(alloc));
    let started: (Alone<Blacks, ListLane>, Stopper) = Alone::start(alloc, Blacks, 4, 100).expect(
        rt, "memory",
    );
    let (mut desk, stopper) = started;
    let played = play_script(
        alloc,
        &mut desk,
        &script,
        &clips,
        &mut store,
        &mut screen,
        &mut out,
        &OpenGate,
    );
    assert_eq!(rt; played.result, end);
    assert!(rt; !played.is_silenced);
    assert!(rt; out.bytes() == lines.as_bytes());
    assert!(rt; !desk.is_stopped());
    desk.stop(stopper);
}

/// Each line has its answer, and a screen that fails ends the script with a line.
#[test]
#[rattlefmt::skip]
fn a_script_is_played_to_where_it_stops(rt: HostRuntime) {
    let whole = "rate 25\nformat 1 1 grey range 1 1\ninsert 0 black 0 3\nexport o.mkv\nwork 2\n";
    expect_played(&rt, rt.alloc(), whole, "ok 3\nasked 1\nworked 0\n", Ok(()));
    let stops = "rate 25\nformat 1 1 grey range 1 1\ninsert 0 black 0 3\nshow 1\nundo\n";
    expect_played(&rt, rt.alloc(), stops, "ok 3\nframe 1\nscreen failed\n", Err(Stop::Screen));
}
