//! The session that the words ask for is opened, begun, and played to its end: by main alone, or beside a crew in threads of their own.

ghost use Rattle.std.specs.Prelude.{◌≡◌, ◌≤◌, None};
ghost use Rattle.tl_limits.specs.Limits.{IsJournalLimit, max_workers};
ghost use Rattle.timeline_app.specs.Runs.{RunsAsked, manned};

use crate::early::{end_early, end_wanting};
use crate::opening::open_library;
use crate::outcome::Outcome;
use crate::play::run_desk;
use crate::together::run_together;
use crate::words::Asked;
use edit_desk::Alone;
use std::alloc::Global;
use std::sync::Wait;
use std::thread::Threads;
use studio::Studio;
use tl_ports::{Gate, Sink, Store, Vault};

/// Opens the session that the words ask for, and main plays it alone.
pub fn play_alone<T: Store, V: Vault, S: Sink, O: Sink>(
    alloc: Global,
    asked: Asked,
    store: &mut T,
    vault: &mut V,
    screen: &mut S,
    out: &mut O,
) -> Outcome
    requires idle { (V.seen vault.old).begun ≡ None }
    requires cache { 1 ≤ asked.cache }
    requires journal { IsJournalLimit asked.journal }
    ensures { RunsAsked 0 asked.entry
        (record {
          old = record { store = T.seen store.old; vault = V.seen vault.old; screen = S.seen screen.old; out = O.seen out.old };
          new = record { store = T.seen store.new; vault = V.seen vault.new; screen = S.seen screen.new; out = O.seen out.new };
          tells = record { store = T.tells; vault = V.tells; screen = S.tells; out = O.tells };
        })
        result }
{
    match open_library(alloc, store, asked.script) {
        Ok(opening) => match Alone::start(alloc, opening.library, asked.cache, asked.journal) {
            Ok((desk, stopper)) => run_desk(
                alloc,
                desk,
                stopper,
                &opening.script,
                &opening.clips,
                store,
                vault,
                screen,
                out,
            ),
            Err(_) => end_wanting(alloc, out),
        },
        Err(why) => end_early(alloc, out, &why),
    }
}

/// Opens the session that the words ask for, and main plays it beside an exporter and the workers that were asked for, each in a thread of
/// its own.
pub fn play_manned<
    R: Threads + Wait + Sync,
    T: Store,
    V: Vault + Send,
    S: Sink,
    O: Sink,
    G: Gate + Sync,
>(
    rt: &R,
    alloc: Global,
    asked: Asked,
    store: &mut T,
    vault: &mut V,
    screen: &mut S,
    out: &mut O,
    gate: &G,
) -> Outcome
    requires idle { (V.seen vault.old).begun ≡ None }
    requires workers { asked.workers ≤ max_workers }
    requires cache { 1 ≤ asked.cache }
    requires journal { IsJournalLimit asked.journal }
    ensures { RunsAsked (manned asked.entry.workers) asked.entry
        (record {
          old = record { store = T.seen store.old; vault = V.seen vault.old; screen = S.seen screen.old; out = O.seen out.old };
          new = record { store = T.seen store.new; vault = V.seen vault.new; screen = S.seen screen.new; out = O.seen out.new };
          tells = record { store = T.tells; vault = V.tells; screen = S.tells; out = O.tells };
        })
        result }
{
    match open_library(alloc, store, asked.script) {
        Ok(opening) => match Studio::start(alloc, opening.library, asked.cache, asked.journal) {
            Ok((studio, main, stopper)) => run_together(
                rt,
                alloc,
                studio,
                main,
                stopper,
                &opening.script,
                &opening.clips,
                asked.workers,
                gate,
                store,
                vault,
                screen,
                out,
            ),
            Err(_) => end_wanting(alloc, out),
        },
        Err(why) => end_early(alloc, out, &why),
    }
}
