//! Main, an exporter and two workers play one session at the same time.

use crate::gate::MeetingGate;
use crate::running::run_over;
use std::alloc::Global;
use std::process::Abort;
use std::sync::Wait;
use std::test::Fail;
use std::thread::Threads;
use test_runs::{Ended, NONE_FAILS, Outside, WHOLE, words_of};
use timeline_app::wants_threads;
use tl_model::{Act, Ending, Entry};

const SCRIPT: &str =
    "rate 25\nclip A a.mkv\nformat as A\ninsert 0 A 0 3\nwant 0 3\nexport o.mkv\nplay 0\nplay 1\n";

const ENDED: Ended = Ended {
    status: 0,
    lines: "ok 3\nwanted 3\nasked 1\npending 0\npending 1\nexport 1 done 3\n",
    exported: WHOLE,
    shown: &[],
};

const WORDS: [&str; 3] = ["s", "--workers", "2"];

/// How many entries of an exporter there are after an act, the take and the end of an export of three frames.
fn exporter_goes_on(made: u8, act: &Act) -> Option<u8> {
    match (made, act) {
        (0, Act::Take) => Some(1),
        (
            1,
            Act::End {
                export: 1,
                ending: Ending::Done { frames: 3 },
            },
        ) => Some(2),
        _ => None,
    }
}

/// Whether the entries of a pass are the take of the first export and its end, of three frames.
fn is_exporter(journal: &[Entry], pass: u32) -> bool {
    let mut made = 0;
    for entry in journal {
        if entry.pass == pass {
            match exporter_goes_on(made, &entry.act) {
                Some(count) => made = count,
                None => return false,
            }
        }
    }
    made == 2
}

/// The job of the claim and the file with which the entries of a pass begin.
fn first_job(journal: &[Entry], pass: u32) -> Option<u64> {
    let mut has_claimed = false;
    for entry in journal {
        if entry.pass == pass {
            match (has_claimed, &entry.act) {
                (false, Act::Claim) => has_claimed = true,
                (true, Act::File { job }) => return Some(*job),
                _ => return None,
            }
        }
    }
    None
}

/// Whether two workers have filed the jobs 1 and 2 first, the one the one and the other the other.
fn have_shared(journal: &[Entry]) -> bool {
    match (first_job(journal, 2), first_job(journal, 3)) {
        (Some(1), Some(2)) => true,
        (Some(2), Some(1)) => true,
        _ => false,
    }
}

fn expect_meeting<R: Threads + Wait + Abort + Sync>(rt: &R, alloc: Global) -> Result<(), Fail> {
    let gate = MeetingGate::new();
    let mut outside = Outside::start(alloc, SCRIPT, NONE_FAILS)?;
    let outcome = run_over(rt, alloc, &WORDS, &mut outside, &gate)?;
    assert!(rt; !gate.is_over());
    assert!(rt; outside.differs(outcome.status, ENDED).is_none());
    assert!(rt; is_exporter(outcome.journal.as_slice(), 1));
    assert!(rt; have_shared(outcome.journal.as_slice()));
    Ok(())
}

/// A frame is played while an export was taken and two workers each have rendered a job that isn't filed yet.
#[test]
fn parts_at_the_same_time(rt: HostRuntime) -> Result<(), Fail> {
    let words = words_of(rt.alloc(), &WORDS)?;
    assert!(rt; wants_threads(rt.alloc(), &words)?);
    expect_meeting(&rt, rt.alloc())
}
