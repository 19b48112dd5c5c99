//! `timeline`: a nonlinear editor for lossless archive video, FFV1 in Matroska.
//!
//! `main` makes the real objects over the current folder and standard output and calls the top call: the one with threads where the words
//! ask for workers, and else the one that is alone.
#![tactic(auto)]

mod rest;

use rest::RestingGate;
use std::process::ExitCode;
use std::sync::Wait;
use std::thread::Threads;
use std::{env, io};
use timeline_app::{run, run_alone, wants_threads};
use tl_ports::{FileSink, FolderStore, FolderVault, OutSink};

/// The file that shown frames go to.
const SCREEN_FILE: &str = "screen.yuv";

/// The words after the program's name.
fn words_of(rt: &HostRuntime) -> io::Result<Vec<String>> {
    let mut words = Vec::new(rt.alloc());
    for word in env::args(rt)?.skip(1) {
        words.push(word)?;
    }
    Ok(words)
}

/// Runs over the current folder and standard output.
fn run_here<R: Threads + Wait + Sync>(
    rt: &HostRuntime,
    threads: &R,
    words: &[String],
) -> io::Result<u8> {
    let alloc = rt.alloc();
    let mut store = FolderStore::start(rt);
    let mut vault = FolderVault::start(rt);
    let mut screen = FileSink::start(rt, String::from_str(alloc, SCREEN_FILE)?);
    let mut out = OutSink::start(rt);
    let outcome = if wants_threads(alloc, words)? {
        let gate = RestingGate { clock: rt };
        run(
            threads,
            alloc,
            words,
            &mut store,
            &mut vault,
            &mut screen,
            &mut out,
            &gate,
        )
    } else {
        run_alone(alloc, words, &mut store, &mut vault, &mut screen, &mut out)
    };
    Ok(outcome.status)
}

/// Words that can't be read are wrong words.
fn run_words<R: Threads + Wait + Sync>(rt: &HostRuntime, threads: &R) -> io::Result<u8> {
    match words_of(rt) {
        Ok(words) => run_here(rt, threads, &words),
        Err(error) if error.kind() == io::ErrorKind::OutOfMemory => Err(error),
        Err(_) => run_here(rt, threads, &[]),
    }
}

fn main(rt: HostRuntime) -> ExitCode {
    ExitCode::from(run_words(&rt, &rt).unwrap_or(5))
}
