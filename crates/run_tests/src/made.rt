//! Scripts that are made from a number.

use crate::running::run_over;
use std::alloc::Global;
use std::process::Abort;
use std::test::Fail;
use test_runs::{Failing, MADE, Made, NONE_FAILS, Outside};
use timeline_app::made_frames;

/// Compares what a run has left.
fn expect_left(rt: &impl Abort, outside: &Outside, made: Made) {
    assert!(rt; outside.has_lines(made.lines), "{}", made.name);
    assert!(rt; outside.has_file("gen.mkv", made.exported), "{}", made.name);
    assert!(rt; outside.has_shown(made.shown), "{}", made.name);
}

/// Runs over a store whose first fetch would fail.
fn expect_made(rt: &impl Abort, alloc: Global, made: Made) -> Result<(), Fail> {
    let failing = Failing {
        store: &[1],
        ..NONE_FAILS
    };
    let mut outside = Outside::start(alloc, "", failing)?;
    let outcome = run_over(alloc, &[made.name], &mut outside)?;
    assert_eq!(rt; outcome.status, 0, "{}", made.name);
    expect_left(rt, &outside, made);
    Ok(())
}

#[test]
fn each_made_script(rt: HostRuntime) -> Result<(), Fail> {
    for made in MADE {
        expect_made(&rt, rt.alloc(), made)?;
    }
    Ok(())
}

/// Names, and the number that is in them.
#[rattlefmt::skip]
const NAMES: [(&str, Option<u32>); 17] = [
    ("gen:1", Some(1)),
    ("gen:9", Some(9)),
    ("gen:10", Some(10)),
    ("gen:999", Some(999)),
    ("gen:1000", Some(1_000)),
    ("gen:0", None),
    ("gen:1001", None),
    ("gen:01", None),
    ("gen:00001", None),
    ("gen:", None),
    ("gen:x", None),
    ("gen:5x", None),
    ("gen:+5", None),
    ("gen: 5", None),
    ("GEN:5", None),
    ("gen5", None),
    ("s", None),
];

#[test]
fn each_name(rt: HostRuntime) {
    for (name, frames) in NAMES {
        assert_eq!(rt; made_frames(name), frames, "{name}");
    }
}
