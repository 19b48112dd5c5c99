//! The words of the command line.

use crate::running::expect_run;
use std::test::Fail;
use test_runs::{Ended, NONE_FAILS, WHOLE, WORDS, words_of};
use timeline_app::{Asked, read_words, wants_threads};

const WORKED: &str =
    "rate 25\nclip A a.mkv\nformat as A\ninsert 0 A 0 3\nwant 0 2\nwork 2\nplay 0\nplay 1\n";

/// An export and twelve undos. A journal of 16 has room for the three calls of the stop, the take and the end of the export, and so for 13.
const UNDONE: &str = "rate 25\nclip A a.mkv\nformat as A\ninsert 0 A 0 3\nexport o.mkv\n\
    undo\nundo\nundo\nundo\nundo\nundo\nundo\nundo\nundo\nundo\nundo\nundo\n";

/// Eleven calls and a line of work, which is one more. After the first turn, of two calls, there is no room for a second one.
const WORKED_OFF: &str = "rate 25\nclip A a.mkv\nformat as A\ninsert 0 A 0 3\nwant 0 3\n\
    redo\nredo\nredo\nredo\nredo\nredo\nredo\nredo\nredo\nwork 3\nexport o.mkv\n";

/// Words for a script, and how its run ends.
#[rattlefmt::skip]
const SESSIONS: [(&[&str], &str, Ended); 5] = [
    (&["s"], WORKED, Ended { status: 0, lines: "ok 3\nwanted 2\nworked 2\nframe 0\nframe 1\n", exported: None, shown: &[0; 8] }),
    // The workers make no difference.
    (&["s", "--workers", "16"], WORKED,
        Ended { status: 0, lines: "ok 3\nwanted 2\nworked 2\nframe 0\nframe 1\n", exported: None, shown: &[0; 8] }),
    // One result is kept.
    (&["s", "--cache", "1"], WORKED,
        Ended { status: 0, lines: "ok 3\nwanted 2\nworked 2\npending 0\nframe 1\n", exported: None, shown: &[0; 4] }),
    // The journal is full.
    (&["s", "--journal", "16"], UNDONE,
        Ended { status: 6, lines: "ok 3\nasked 1\nok 0\n\
            refused NothingToUndo\nrefused NothingToUndo\nrefused NothingToUndo\nrefused NothingToUndo\nrefused NothingToUndo\n\
            refused NothingToUndo\nrefused NothingToUndo\nrefused NothingToUndo\nrefused NothingToUndo\nrefused NothingToUndo\n\
            journal full 13 3\nexport 1 done 3\n", exported: WHOLE, shown: &[] }),
    (&["s", "--journal", "16"], WORKED_OFF,
        Ended { status: 6, lines: "ok 3\nwanted 3\n\
            refused NothingToRedo\nrefused NothingToRedo\nrefused NothingToRedo\nrefused NothingToRedo\nrefused NothingToRedo\n\
            refused NothingToRedo\nrefused NothingToRedo\nrefused NothingToRedo\nrefused NothingToRedo\n\
            worked 1\njournal full 14 1\n", exported: None, shown: &[] }),
];

#[test]
fn each_line_of_words(rt: HostRuntime) -> Result<(), Fail> {
    for (words, status, lines) in WORDS {
        let ended = Ended {
            status,
            lines,
            exported: None,
            shown: &[],
        };
        expect_run(&rt, rt.alloc(), words, (WORKED, NONE_FAILS), ended)?;
    }
    for (words, script, ended) in SESSIONS {
        expect_run(&rt, rt.alloc(), words, (script, NONE_FAILS), ended)?;
    }
    Ok(())
}

/// Words, the script, workers, results and entries that they ask for, and whether that is a session with workers.
#[rattlefmt::skip]
const NUMBERS: [(&[&str], Option<(&str, u32, u32, u64)>, bool); 9] = [
    (&["s"], Some(("s", 2, 64, 1_000_000)), true),
    (&["s", "--workers", "0", "--journal=16"], Some(("s", 0, 64, 16)), false),
    (&["--cache", "4096", "s", "--workers", "1"], Some(("s", 1, 4_096, 1_000_000)), true),
    (&[], None, false),
    (&["s", "--workers", "17"], None, false),
    (&["gen:1000"], Some(("gen:1000", 2, 64, 1_000_000)), true),
    (&["gen:1", "--workers", "0"], Some(("gen:1", 0, 64, 1_000_000)), false),
    (&["gen:5x"], None, false),
    (&["gen:1001"], None, false),
];

#[test]
fn what_words_ask_for(rt: HostRuntime) -> Result<(), Fail> {
    let alloc = rt.alloc();
    for (words, numbers, threads) in NUMBERS {
        let words = words_of(alloc, words)?;
        let asked = numbers.map(|(script, workers, cache, journal)| Asked {
            script,
            workers,
            cache,
            journal,
        });
        assert_eq!(rt; read_words(alloc, words.as_slice())?, asked);
        assert_eq!(rt; wants_threads(alloc, words.as_slice())?, threads);
    }
    Ok(())
}
