//! Scripts that play edit lists.

use crate::clips::WHOLE;
use crate::outside::Ended;

/// Scripts whose runs end alike whether main plays them alone or beside others.
#[rattlefmt::skip]
pub const LISTS: [(&str, Ended); 4] = [
    // Two frames, three of black, two frames. The list is played when its line is.
    ("rate 25\nclip A a.mkv\nformat as A\nedl cut.edl\nshow 0\nshow 2\nshow 6\nplay 7\nundo\n",
        Ended { status: 0, lines: "ok 7\nframe 0\nframe 2\nframe 6\npast 7\nok 0\n", exported: None,
            shown: &[0, 0, 0, 0, 16, 16, 16, 16, 0, 0, 0, 0] }),
    // A dissolve over 25 frames from samples 0 into 255: its first frame has the weight 9, and its last one 246.
    ("rate 25\nclip a.mov zeros.mkv\nclip b.mov whites.mkv\nformat as a.mov\nedl reel.edl\nshow 99\nshow 100\nshow 124\nshow 125\n",
        Ended { status: 0, lines: "ok 225\nframe 99\nframe 100\nframe 124\nframe 125\n", exported: None,
            shown: &[0, 0, 0, 0, 9, 9, 9, 9, 245, 245, 245, 245, 255, 255, 255, 255] }),
    // A faulty list has its line, and the script goes on.
    ("rate 25\nclip A a.mkv\nformat as A\nedl bad.edl\ninsert 0 A 0 3\nexport o.mkv\n",
        Ended { status: 0, lines: "edl line 2 Speed\nok 3\nasked 1\nexport 1 done 3\n", exported: WHOLE, shown: &[] }),
    // A list that isn't there stops the script where its line stands; what was asked for is exported.
    ("rate 25\nclip A a.mkv\nformat as A\ninsert 0 A 0 3\nexport o.mkv\nedl no.edl\nundo\n",
        Ended { status: 4, lines: "ok 3\nasked 1\nstore no.edl Missing\nexport 1 done 3\n", exported: WHOLE, shown: &[] }),
];
