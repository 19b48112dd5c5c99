//! Runs whose plays and work depend on how far the workers have come: a play says `frame` or `pending`, and main works off what workers
//! have left.

use crate::alike::CREWS;
use crate::running::run_over;
use std::alloc::Global;
use std::process::Abort;
use std::sync::Wait;
use std::test::Fail;
use std::thread::Threads;
use test_runs::{Ended, MADE, Made, NONE_FAILS, Outside, PLAYED};
use tl_ports::{MemSink, OpenGate};

/// What a line says of a frame that was played, and its number.
fn played(line: &str) -> Option<&str> {
    match line.strip_prefix("frame ") {
        Some(number) => Some(number),
        None => line.strip_prefix("pending "),
    }
}

/// Whether a line is as it was to be: a play names its frame, and of work the number is at most that of main alone.
fn is_line(line: &str, alone: &str) -> bool {
    if let Some(number) = played(alone) {
        return played(line) == Some(number);
    }
    if let Some(number) = alone.strip_prefix("worked ") {
        let most = number.parse::<u32>().unwrap_or(0);
        return match line.strip_prefix("worked ") {
            Some(told) => told.parse::<u32>().is_ok_and(|turns| turns <= most),
            None => false,
        };
    }
    line == alone
}

/// Whether lines are as they were to be.
fn are_lines(told: &str, alone: &str) -> bool {
    let mut lines = told.split('\n');
    for wanted in alone.split('\n') {
        match lines.next() {
            Some(line) => {
                if !is_line(line, wanted) {
                    return false;
                }
            }
            None => return false,
        }
    }
    lines.next().is_none()
}

/// How many lines say that a frame was given.
fn frames_in(told: &str) -> usize {
    told.split('\n')
        .filter(|line| line.starts_with("frame "))
        .count()
}

/// Compares what was told, and how many samples were shown with how many frames were told.
fn expect_told(
    rt: &impl Abort,
    out: &MemSink,
    screen: &MemSink,
    alone: &str,
    samples: usize,
) -> Result<(), Fail> {
    let told = str::from_utf8(out.bytes()).map_err(|_| "the lines are text")?;
    assert!(rt; are_lines(told, alone), "{told}");
    assert_eq!(rt;
        screen.bytes().len(),
        samples.saturating_mul(frames_in(told)),
        "{told}"
    );
    Ok(())
}

/// Runs a script of the tables, and compares.
fn expect_played<R: Threads + Wait + Abort + Sync>(
    rt: &R,
    alloc: Global,
    words: &[&str],
    script: &str,
    alone: Ended,
) -> Result<(), Fail> {
    let mut outside = Outside::start(alloc, script, NONE_FAILS)?;
    let outcome = run_over(rt, alloc, words, &mut outside, &OpenGate)?;
    assert_eq!(rt; outcome.status, alone.status);
    assert_eq!(rt;
        outside.vault.file("o.mkv").map(|file| file.len()),
        alone.exported
    );
    expect_told(rt, &outside.out, &outside.screen, alone.lines, 4)
}

#[test]
fn each_played_script(rt: HostRuntime) -> Result<(), Fail> {
    for words in CREWS {
        for (script, ended) in PLAYED {
            expect_played(&rt, rt.alloc(), words, script, ended)?;
        }
    }
    Ok(())
}

/// Runs a script that is made from a number beside two workers, and compares.
fn expect_made<R: Threads + Wait + Abort + Sync>(
    rt: &R,
    alloc: Global,
    made: Made,
) -> Result<(), Fail> {
    let mut outside = Outside::start(alloc, "", NONE_FAILS)?;
    let outcome = run_over(rt, alloc, &[made.name], &mut outside, &OpenGate)?;
    assert_eq!(rt; outcome.status, 0);
    assert!(rt; outside.has_file("gen.mkv", made.exported), "{}", made.name);
    expect_told(rt, &outside.out, &outside.screen, made.lines, 4_608)
}

#[test]
fn each_made_script(rt: HostRuntime) -> Result<(), Fail> {
    for made in MADE {
        expect_made(&rt, rt.alloc(), made)?;
    }
    Ok(())
}
