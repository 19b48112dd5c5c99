//! Runs in which a part of the outside fails.

use crate::running::expect_run;
use std::test::Fail;
use test_runs::FAILING;

#[test]
fn each_fault(rt: HostRuntime) -> Result<(), Fail> {
    for (script, failing, ended) in FAILING {
        expect_run(&rt, rt.alloc(), &["s"], (script, failing), ended)?;
    }
    Ok(())
}
