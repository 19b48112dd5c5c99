//! Runs that end alike whether main plays them alone or beside an exporter and workers.

use crate::running::run_over;
use std::alloc::Global;
use std::process::Abort;
use std::sync::Wait;
use std::test::Fail;
use std::thread::Threads;
use test_runs::{COURSES, Ended, FAILING, Failing, LISTS, NONE_FAILS, Outside, WORDS};
use tl_ports::OpenGate;

/// Words for one worker and for two.
pub(crate) const CREWS: [&[&str]; 2] = [&["s", "--workers", "1"], &["s", "--workers", "2"]];

/// Runs a script with threads, and compares.
fn expect_run<R: Threads + Wait + Abort + Sync>(
    rt: &R,
    alloc: Global,
    words: &[&str],
    outside: (&str, Failing),
    ended: Ended,
) -> Result<(), Fail> {
    let (script, failing) = outside;
    let mut outside = Outside::start(alloc, script, failing)?;
    let outcome = run_over(rt, alloc, words, &mut outside, &OpenGate)?;
    assert_eq!(rt; outside.differs(outcome.status, ended), None, "{script}");
    Ok(())
}

#[test]
fn each_course(rt: HostRuntime) -> Result<(), Fail> {
    for words in CREWS {
        for (script, ended) in COURSES {
            expect_run(&rt, rt.alloc(), words, (script, NONE_FAILS), ended)?;
        }
    }
    Ok(())
}

#[test]
fn each_list(rt: HostRuntime) -> Result<(), Fail> {
    for words in CREWS {
        for (script, ended) in LISTS {
            expect_run(&rt, rt.alloc(), words, (script, NONE_FAILS), ended)?;
        }
    }
    Ok(())
}

#[test]
fn each_fault(rt: HostRuntime) -> Result<(), Fail> {
    for words in CREWS {
        for (script, failing, ended) in FAILING {
            expect_run(&rt, rt.alloc(), words, (script, failing), ended)?;
        }
    }
    Ok(())
}

#[test]
fn each_line_of_words(rt: HostRuntime) -> Result<(), Fail> {
    for (words, status, lines) in WORDS {
        let ended = Ended {
            status,
            lines,
            exported: None,
            shown: &[],
        };
        expect_run(&rt, rt.alloc(), words, ("", NONE_FAILS), ended)?;
    }
    Ok(())
}
