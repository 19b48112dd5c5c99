//! Runs in which a part of the outside fails.

use crate::clips::WHOLE;
use crate::outside::{Ended, Failing, NONE_FAILS};

const THREE: &str = "rate 25\nclip A a.mkv\nformat as A\ninsert 0 A 0 3\nexport o.mkv\n";

const SHOWN: &str =
    "rate 25\nclip A a.mkv\nformat as A\ninsert 0 A 0 3\nexport o.mkv\nshow 1\nundo\n";

/// Scripts, which calls fail, and how their runs end, whether main plays them alone or beside others.
#[rattlefmt::skip]
pub const FAILING: [(&str, Failing, Ended); 16] = [
    // The store, at the script and at the clip.
    (THREE, Failing { store: &[1], ..NONE_FAILS }, Ended { status: 4, lines: "store s Failed\n", exported: None, shown: &[] }),
    (THREE, Failing { store: &[2], ..NONE_FAILS }, Ended { status: 4, lines: "store a.mkv Failed\n", exported: None, shown: &[] }),
    // Where two clips have one name, none is fetched.
    ("rate 25\nclip A a.mkv\nclip A b.mkv\nformat as A\ninsert 0 A 0 3\nexport o.mkv\n", Failing { store: &[2], ..NONE_FAILS },
        Ended { status: 3, lines: "fault line 3 SameName\n", exported: None, shown: &[] }),
    // The vault, at the begin; at each piece, half of which is there: the head of 52 bytes, Info and Tracks, the Cluster's head, its
    // blocks, the Cues; and at the end, when the file is whole.
    (THREE, Failing { vault: &[1], ..NONE_FAILS },
        Ended { status: 4, lines: "ok 3\nasked 1\nexport 1 sink\n", exported: None, shown: &[] }),
    (THREE, Failing { vault: &[2], ..NONE_FAILS },
        Ended { status: 4, lines: "ok 3\nasked 1\nexport 1 sink\n", exported: Some(52 / 2), shown: &[] }),
    (THREE, Failing { vault: &[3], ..NONE_FAILS },
        Ended { status: 4, lines: "ok 3\nasked 1\nexport 1 sink\n", exported: Some(52 + 117 / 2), shown: &[] }),
    (THREE, Failing { vault: &[4], ..NONE_FAILS },
        Ended { status: 4, lines: "ok 3\nasked 1\nexport 1 sink\n", exported: Some(169 + 22 / 2), shown: &[] }),
    (THREE, Failing { vault: &[5], ..NONE_FAILS },
        Ended { status: 4, lines: "ok 3\nasked 1\nexport 1 sink\n", exported: Some(191 + 54 / 2), shown: &[] }),
    (THREE, Failing { vault: &[6], ..NONE_FAILS },
        Ended { status: 4, lines: "ok 3\nasked 1\nexport 1 sink\n", exported: Some(245 + 39 / 2), shown: &[] }),
    (THREE, Failing { vault: &[7], ..NONE_FAILS },
        Ended { status: 4, lines: "ok 3\nasked 1\nexport 1 sink\n", exported: WHOLE, shown: &[] }),
    // `out`, of whose line half is there. What was asked for is exported all the same, and nothing more is put.
    (THREE, Failing { out: &[1], ..NONE_FAILS }, Ended { status: 4, lines: "ok", exported: None, shown: &[] }),
    (THREE, Failing { out: &[2], ..NONE_FAILS }, Ended { status: 4, lines: "ok 3\naske", exported: WHOLE, shown: &[] }),
    (THREE, Failing { out: &[3], ..NONE_FAILS }, Ended { status: 4, lines: "ok 3\nasked 1\nexport 1", exported: WHOLE, shown: &[] }),
    // The screen, of whose row half is there. It stops the session, and what was asked for is exported.
    (SHOWN, Failing { screen: &[1], ..NONE_FAILS },
        Ended { status: 4, lines: "ok 3\nasked 1\nframe 1\nscreen failed\nexport 1 done 3\n", exported: WHOLE, shown: &[0] }),
    (SHOWN, Failing { out: &[3], ..NONE_FAILS }, Ended { status: 4, lines: "ok 3\nasked 1\nfram", exported: WHOLE, shown: &[] }),
    // A damaged frame and a sink that fails: the sink comes first.
    ("rate 25\nclip A b.mkv\nformat as A\ninsert 0 A 0 3\nexport o.mkv\nexport p.mkv\n", Failing { vault: &[1], ..NONE_FAILS },
        Ended { status: 4, lines: "ok 3\nasked 1\nasked 2\nexport 1 sink\nexport 2 fault 2 A 2 Chain\n", exported: None, shown: &[] }),
];
