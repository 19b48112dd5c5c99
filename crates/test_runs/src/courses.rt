//! Scripts that are played where nothing outside fails.

use crate::clips::{RECORD_LEN, WHOLE};
use crate::outside::Ended;

/// Scripts whose runs end alike whether main plays them alone or beside others.
#[rattlefmt::skip]
pub const COURSES: [(&str, Ended); 16] = [
    ("rate 25\nclip A a.mkv\nformat as A\ninsert 0 A 0 3\nexport o.mkv\n",
        Ended { status: 0, lines: "ok 3\nasked 1\nexport 1 done 3\n", exported: WHOLE, shown: &[] }),
    // What comes after the ask changes nothing of the export.
    ("rate 25\nclip A a.mkv\nformat as A\ninsert 0 A 0 3\nexport o.mkv\nextract 0 2\n",
        Ended { status: 0, lines: "ok 3\nasked 1\nok 1\nexport 1 done 3\n", exported: WHOLE, shown: &[] }),
    // Refused edits have their lines, and the status stays 0.
    ("rate 25\nclip A a.mkv\nformat as A\ninsert 0 A 0 4\nexport o.mkv\n",
        Ended { status: 0, lines: "refused OutsideClip\nrefused EmptyTimeline\n", exported: None, shown: &[] }),
    ("rate 25\nclip A a.mkv\nformat as A\ninsert 0 B 0 1\nexport o.mkv\n",
        Ended { status: 0, lines: "refused NoClip\nrefused EmptyTimeline\n", exported: None, shown: &[] }),
    ("rate 25\nclip A a.mkv\nformat as A\nundo\nredo\ninsert 0 A 0 3\nundo\n",
        Ended { status: 0, lines: "refused NothingToUndo\nrefused NothingToRedo\nok 3\nok 0\n", exported: None, shown: &[] }),
    // A faulty script ends before anything is done.
    ("rate 25\nclip A a.mkv\nformat as A\ninsert 0 A 0 0\nexport o.mkv\n",
        Ended { status: 3, lines: "fault line 4 Number\n", exported: None, shown: &[] }),
    ("rate 25\nclip A a.mkv\nclip A b.mkv\nformat as A\n",
        Ended { status: 3, lines: "fault line 3 SameName\n", exported: None, shown: &[] }),
    ("rate 25\nclip A a.mkv\nformat as A\ninsert 0 A 0 3\nexport a.mkv\n",
        Ended { status: 3, lines: "fault line 5 SameExport\n", exported: None, shown: &[] }),
    ("", Ended { status: 3, lines: "fault line 1 Order\n", exported: None, shown: &[] }),
    ("rate 25\nclip A c.mkv\nformat as A\n", Ended { status: 4, lines: "store c.mkv Missing\n", exported: None, shown: &[] }),
    ("rate 25\nclip A cut.edl\nformat as A\n", Ended { status: 3, lines: "fault line 2 clip Ebml\n", exported: None, shown: &[] }),
    // A format of its own, whose record is as long: a clip of its shape fits, and is coded anew with parities; another doesn't fit.
    ("rate 25\nclip A a.mkv\nformat 2 2 grey range 1 1\ninsert 0 A 0 3\nexport o.mkv\n",
        Ended { status: 0, lines: "ok 3\nasked 1\nexport 1 done 3\n", exported: Some(276 + RECORD_LEN), shown: &[] }),
    ("rate 25\nclip A a.mkv\nformat 4 2 grey range 1 1\ninsert 0 A 0 3\nexport o.mkv\n",
        Ended { status: 0, lines: "refused ShapeDiffers\nrefused EmptyTimeline\n", exported: None, shown: &[] }),
    ("rate 25\nclip A a.mkv\nformat 2 2 grey range 1 1\ninsert 0 A 0 3\nshow 2\n",
        Ended { status: 0, lines: "ok 3\nframe 2\n", exported: None, shown: &[0; 4] }),
    ("rate 25\nclip A a.mkv\nformat 4 2 grey range 1 1\ninsert 0 A 0 3\ninsert 0 black 0 1\nshow 0\n",
        Ended { status: 0, lines: "refused ShapeDiffers\nok 1\nframe 0\n", exported: None, shown: &[16; 8] }),
    // The third packet is damaged: its frame can't be shown, and an export ends there.
    ("rate 25\nclip A b.mkv\nformat as A\ninsert 0 A 0 3\nshow 1\nshow 2\nexport o.mkv\n",
        Ended { status: 7, lines: "ok 3\nframe 1\nfault 2 Chain\nasked 1\nexport 1 fault 2 A 2 Chain\n",
            exported: Some(52 + 94 + RECORD_LEN), shown: &[0; 4] }),
];

/// Scripts whose plays and work find what main alone has rendered.
#[rattlefmt::skip]
pub const PLAYED: [(&str, Ended); 3] = [
    // A shown frame goes to the screen, and a roll wants and plays.
    ("rate 25\nclip A a.mkv\nformat as A\ninsert 0 A 0 3\nshow 1\nroll 0 3\nexport o.mkv\n",
        Ended { status: 0, lines: "ok 3\nframe 1\nwanted 3\npending 0\npending 1\npending 2\nasked 1\nexport 1 done 3\n",
            exported: WHOLE, shown: &[0; 4] }),
    // Work renders what was wanted, and then it is played.
    ("rate 25\nclip A a.mkv\nformat as A\ninsert 0 A 0 3\nwant 0 3\nwork 5\nplay 2\nexport o.mkv\n",
        Ended { status: 0, lines: "ok 3\nwanted 3\nworked 3\nframe 2\nasked 1\nexport 1 done 3\n", exported: WHOLE, shown: &[0; 4] }),
    ("rate 25\nclip A a.mkv\nformat as A\ninsert 0 A 0 3\nwant 0 3\nwork 2\nplay 1\nplay 2\nplay 3\n",
        Ended { status: 0, lines: "ok 3\nwanted 3\nworked 2\nframe 1\npending 2\npast 3\n", exported: None, shown: &[0; 4] }),
];
