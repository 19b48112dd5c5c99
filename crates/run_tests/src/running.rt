//! A run alone over objects in memory.

ghost use Rattle.std.specs.Prelude.{◌≡◌, None};

use std::alloc::{AllocError, Global};
use std::process::Abort;
use std::test::Fail;
use test_runs::{Ended, Failing, Outside, words_of};
use timeline_app::{Outcome, run_alone};
use tl_ports::{MemVault, Vault};

/// Runs by these words.
pub(crate) fn run_over(
    alloc: Global,
    words: &[&str],
    outside: &mut Outside,
) -> Result<Outcome, AllocError>
    requires idle { (⟦<MemVault as Vault>⟧.seen outside.old.vault).begun ≡ None }
{
    let words = words_of(alloc, words)?;
    let Outside {
        store,
        vault,
        screen,
        out,
    } = outside;
    Ok(run_alone(alloc, &words, store, vault, screen, out))
}

/// Runs a script by these words, where these calls fail, and compares.
pub(crate) fn expect_run(
    rt: &impl Abort,
    alloc: Global,
    words: &[&str],
    outside: (&str, Failing),
    ended: Ended,
) -> Result<(), Fail> {
    let (script, failing) = outside;
    let mut outside = Outside::start(alloc, script, failing)?;
    let outcome = run_over(alloc, words, &mut outside)?;
    assert_eq!(rt; outside.differs(outcome.status, ended), None, "{script}");
    Ok(())
}
