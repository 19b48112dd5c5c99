//! Scripts that are played where nothing outside fails.

use crate::running::{expect_run, run_over};
use std::test::Fail;
use test_runs::{COURSES, LISTS, NONE_FAILS, Outside, PLAYED, is_whole};

#[test]
fn each_course(rt: HostRuntime) -> Result<(), Fail> {
    for (script, ended) in COURSES {
        expect_run(&rt, rt.alloc(), &["s"], (script, NONE_FAILS), ended)?;
    }
    Ok(())
}

#[test]
fn each_played_script(rt: HostRuntime) -> Result<(), Fail> {
    for (script, ended) in PLAYED {
        expect_run(&rt, rt.alloc(), &["s"], (script, NONE_FAILS), ended)?;
    }
    Ok(())
}

#[test]
fn each_list(rt: HostRuntime) -> Result<(), Fail> {
    for (script, ended) in LISTS {
        expect_run(&rt, rt.alloc(), &["s"], (script, NONE_FAILS), ended)?;
    }
    Ok(())
}

/// The exported file of three packets, also where two of the frames are taken out after the ask.
#[test]
fn exported_bytes(rt: HostRuntime) -> Result<(), Fail> {
    let alloc = rt.alloc();
    for (script, _) in [COURSES[0], COURSES[1]] {
        let mut outside = Outside::start(alloc, script, NONE_FAILS)?;
        run_over(alloc, &["s"], &mut outside)?;
        let file = outside.vault.file("o.mkv").ok_or("the file is there")?;
        assert!(rt; is_whole(file), "{script}");
    }
    Ok(())
}

/// A dissolve of one frame from samples 0 to black, 16, has the weight 128: its samples are 8. Then comes black.
#[test]
fn dissolved_samples(rt: HostRuntime) -> Result<(), Fail> {
    let alloc = rt.alloc();
    let script =
        "rate 25\nclip A a.mkv\nformat as A\ninsert 0 A 0 1\ninsert 1 black 0 2\ndissolve 1 1\nshow 1\nshow 2\n";
    let mut outside = Outside::start(alloc, script, NONE_FAILS)?;
    run_over(alloc, &["s"], &mut outside)?;
    assert!(rt; outside.out.bytes() == b"ok 1\nok 3\nok 3\nframe 1\nframe 2\n".as_slice());
    assert!(rt; outside.screen.bytes() == [8, 8, 8, 8, 16, 16, 16, 16].as_slice());
    Ok(())
}
