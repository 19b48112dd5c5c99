//! A run with threads over objects in memory.

ghost use Rattle.std.specs.Prelude.{◌≡◌, None};

use std::alloc::{AllocError, Global};
use std::sync::Wait;
use std::thread::Threads;
use test_runs::{Outside, words_of};
use timeline_app::{Outcome, run};
use tl_ports::{Gate, MemVault, Vault};

/// Runs by these words, with this gate.
pub(crate) fn run_over<R: Threads + Wait + Sync, G: Gate + Sync>(
    rt: &R,
    alloc: Global,
    words: &[&str],
    outside: &mut Outside,
    gate: &G,
) -> Result<Outcome, AllocError>
    requires idle { (⟦<MemVault as Vault>⟧.seen outside.old.vault).begun ≡ None }
{
    let words = words_of(alloc, words)?;
    let Outside {
        store,
        vault,
        screen,
        out,
    } = outside;
    Ok(run(rt, alloc, &words, store, vault, screen, out, gate))
}
