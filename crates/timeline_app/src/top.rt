//! The top calls.

ghost use Rattle.std.specs.Prelude.{◌≡◌, None, map, string_bytes};
ghost use Rattle.timeline_app.specs.Runs.{Runs, manned, nobody};

use crate::early::{end_wanting, misuse};
use crate::made::made_store;
use crate::outcome::Outcome;
use crate::way::{play_alone, play_manned};
use crate::words::{made_frames, read_words};
use std::alloc::Global;
use std::sync::Wait;
use std::thread::Threads;
use tl_ports::{Gate, Sink, Store, Vault};

/// Does what the words of a command line ask for, alone on one thread, and always returns.
///
/// The words are SCRIPT and up to three options with numbers: how many workers there are, to which it pays no heed, how many results
/// are kept, and how many entries the journal may have. The script and the files of its clips are fetched from `store`; for `gen:N` they
/// are made, and `store` isn't asked. The script is played: each call's line goes to `out` in one `put`, the rows of each picture that is
/// given to `screen`, and each export that was asked for to `vault`, after the stop that ends the session. What stops a session has a
/// line, and so has each export's end. After a put to `out` that isn't `Ok` no other is made to it.
pub fn run_alone<T: Store, V: Vault, S: Sink, O: Sink>(
    alloc: Global,
    words: &[String],
    store: &mut T,
    vault: &mut V,
    screen: &mut S,
    out: &mut O,
) -> Outcome
    requires idle { (V.seen vault.old).begun ≡ None }
    ensures { Runs nobody (map string_bytes words.now)
        (record {
          old = record { store = T.seen store.old; vault = V.seen vault.old; screen = S.seen screen.old; out = O.seen out.old };
          new = record { store = T.seen store.new; vault = V.seen vault.new; screen = S.seen screen.new; out = O.seen out.new };
          tells = record { store = T.tells; vault = V.tells; screen = S.tells; out = O.tells };
        })
        result }
{
    match read_words(alloc, words) {
        Ok(Some(asked)) => match made_frames(asked.script) {
            None => play_alone(alloc, asked, store, vault, screen, out),
            Some(frames) => match made_store(alloc, asked.script, frames) {
                Ok(mut made) => play_alone(alloc, asked, &mut made, vault, screen, out),
                Err(_) => end_wanting(alloc, out),
            },
        },
        Ok(None) => misuse(alloc, out),
        Err(_) => end_wanting(alloc, out),
    }
}

/// Does what the words of a command line ask for as [`run_alone`] does, but with threads: while main plays the script, an exporter writes
/// the exports that were asked for, and as many workers as the words say render the frames that are wanted. All of them make their calls
/// with passes of one studio, whose journal the outcome has: main's entries are of pass 0, the exporter's of pass 1, the workers' of 2 and
/// up. The gate is called at each point of [`Gate`]. It waits for its threads; nothing says when they get on.
///
/// What the journal holds of each caller, and what `out`, `screen` and `vault` then have of it, is the same as alone, in whatever order the
/// threads come to make their calls. A play says `pending` where the result that it asks for isn't kept then.
pub fn run<R: Threads + Wait + Sync, T: Store, V: Vault + Send, S: Sink, O: Sink, G: Gate + Sync>(
    rt: &R,
    alloc: Global,
    words: &[String],
    store: &mut T,
    vault: &mut V,
    screen: &mut S,
    out: &mut O,
    gate: &G,
) -> Outcome
    requires idle { (V.seen vault.old).begun ≡ None }
    ensures { Runs manned (map string_bytes words.now)
        (record {
          old = record { store = T.seen store.old; vault = V.seen vault.old; screen = S.seen screen.old; out = O.seen out.old };
          new = record { store = T.seen store.new; vault = V.seen vault.new; screen = S.seen screen.new; out = O.seen out.new };
          tells = record { store = T.tells; vault = V.tells; screen = S.tells; out = O.tells };
        })
        result }
{
    match read_words(alloc, words) {
        Ok(Some(asked)) => match made_frames(asked.script) {
            None => play_manned(rt, alloc, asked, store, vault, screen, out, gate),
            Some(frames) => match made_store(alloc, asked.script, frames) {
                Ok(mut made) => play_manned(rt, alloc, asked, &mut made, vault, screen, out, gate),
                Err(_) => end_wanting(alloc, out),
            },
        },
        Ok(None) => misuse(alloc, out),
        Err(_) => end_wanting(alloc, out),
    }
}
