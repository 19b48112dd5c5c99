//! Dissolves: what is coded, and which side's fault is told.

ghost use Rattle.std.specs.Prelude.{◌≤◌, length};

use crate::clips::{file_of, library_of};
use crate::damaged::HEAD;
use crate::exporting::{Cut, exported};
use crate::tables::{BLACK, DAMAGED, RECORD, STEPS, WHITE};
use std::alloc::Global;
use std::process::Abort;
use std::test::Fail;
use tl_model::{Ending, FrameFault, RenderFault, Side};

const GOING: RenderFault = RenderFault {
    clip: 0,
    frame: 3,
    kind: FrameFault::Chain,
};

const COMING: RenderFault = RenderFault {
    clip: 0,
    frame: 4,
    kind: FrameFault::NotKey,
};

/// A black frame, and the clip's third one.
const BEFORE: Cut = Cut(Side::Black, 1, 0);

const THIRD: Cut = Cut(Side::Clip { clip: 0, frame: 2 }, 1, 0);

/// Two cuts, and how their export ends. The frames 3 and 4 of the clip are damaged, as `Chain` and as `NotKey`; the others are white.
#[rattlefmt::skip]
static ROWS: [([Cut; 2], Ending); 4] = [
    ([BEFORE, Cut(Side::Clip { clip: 0, frame: 0 }, 3, 3)], Ending::Done { frames: 4 }),
    // Only the side that comes, only the one that goes, and both: then the one that goes is told.
    ([BEFORE, Cut(Side::Clip { clip: 0, frame: 4 }, 1, 1)], Ending::ClipFault { at: 1, fault: COMING }),
    ([THIRD, Cut(Side::Clip { clip: 0, frame: 5 }, 1, 1)], Ending::ClipFault { at: 1, fault: GOING }),
    ([THIRD, Cut(Side::Clip { clip: 0, frame: 4 }, 1, 1)], Ending::ClipFault { at: 1, fault: GOING }),
];

/// Whether the first blocks of the file's Cluster have a packet of 11 bytes and then packets of 12.
fn has_packets(file: &[u8], first: &[u8], others: &[&[u8]]) -> bool
    requires { length others.now ≤ 100 }
{
    let at = HEAD + 22 + 13;
    if file.get(at..at + 11) != Some(first) {
        return false;
    }
    for (number, packet) in others.iter().enumerate() {
        let from = at + 11 + 13 + 25 * number;
        if file.get(from..from + 12) != Some(*packet) {
            return false;
        }
    }
    true
}

fn expect_ending(rt: &impl Abort, alloc: Global, cuts: &[Cut], wanted: Ending) -> Result<(), Fail> {
    let white = WHITE.as_slice();
    let packets = [white, white, white, DAMAGED[1].0, DAMAGED[3].0, white];
    let library = library_of(alloc, file_of(alloc, &RECORD, (2, 2), &packets)?)?;
    let (ending, file) = exported(alloc, &library, cuts, 0)?;
    assert_eq!(rt; ending, wanted);
    match ending {
        Ending::Done { frames: _ } => assert!(rt; has_packets(&file, &BLACK, &STEPS)),
        _ => assert_eq!(rt; file.len(), HEAD),
    }
    Ok(())
}

#[test]
fn dissolves(rt: HostRuntime) -> Result<(), Fail> {
    for (cuts, ending) in ROWS {
        expect_ending(&rt, rt.alloc(), cuts.as_slice(), ending)?;
    }
    Ok(())
}
