//! Exports of three frames over a store and a vault that never fail.

use crate::alike::CREWS;
use std::alloc::{AllocError, Global};
use std::process::Abort;
use std::sync::Wait;
use std::test::Fail;
use std::thread::Threads;
use test_runs::{COURSES, Ended, grey, is_whole, words_of};
use timeline_app::run;
use tl_ports::{CleanStore, CleanVault, MemSink, OpenGate};

/// A store with a script and the clip.
fn store_of(alloc: Global, script: &str) -> Result<CleanStore, AllocError> {
    let mut store = CleanStore::start(alloc);
    store.add("s", Vec::from_slice(alloc, script.as_bytes())?)?;
    store.add("a.mkv", grey(alloc, 0x02)?)?;
    Ok(store)
}

/// Runs a script with threads, and compares its lines and the exported file.
fn expect_export<R: Threads + Wait + Abort + Sync>(
    rt: &R,
    alloc: Global,
    words: &[&str],
    script: &str,
    ended: Ended,
) -> Result<(), Fail> {
    let mut store = store_of(alloc, script)?;
    let mut vault = CleanVault::start(alloc);
    let mut screen = MemSink::start(alloc, Vec::new(alloc));
    let mut out = MemSink::start(alloc, Vec::new(alloc));
    let words = words_of(alloc, words)?;
    let outcome = run(
        rt,
        alloc,
        &words,
        &mut store,
        &mut vault,
        &mut screen,
        &mut out,
        &OpenGate,
    );
    assert_eq!(rt; outcome.status, ended.status);
    assert!(rt; out.bytes() == ended.lines.as_bytes());
    assert!(rt; is_whole(vault.file("o.mkv").ok_or("the file is there")?));
    Ok(())
}

/// The export alone, and with an edit after the ask, which changes nothing of the file.
#[test]
fn each_export(rt: HostRuntime) -> Result<(), Fail> {
    for words in CREWS {
        for (script, ended) in [COURSES[0], COURSES[1]] {
            expect_export(&rt, rt.alloc(), words, script, ended)?;
        }
    }
    Ok(())
}
