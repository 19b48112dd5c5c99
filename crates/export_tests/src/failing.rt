//! A vault that fails at each call in turn, alone and beside a damaged packet.

use crate::clips::{FRAMES, file_with, library_of};
use crate::damaged::{FULL, HEAD};
use crate::exporting::{exported, frames};
use crate::tables::{PACKET, WHOLE};
use std::test::Fail;
use tl_model::{Ending, FrameFault, RenderFault};

/// The call that fails, the frame whose packet is lacking, how the export ends, and how many bytes were put.
struct Row {
    fail: u64,
    lacking: Option<u32>,
    ending: Ending,
    len: usize,
}

const THE_25TH: RenderFault = RenderFault {
    clip: 0,
    frame: 24,
    kind: FrameFault::Empty,
};

const THE_LAST: RenderFault = RenderFault {
    clip: 0,
    frame: 50,
    kind: FrameFault::Empty,
};

/// How the clip of 51 frames is written: the first call begins the file; two start it, by 52 bytes and by the rest before the first
/// Cluster; two put each Cluster, its first 22 bytes and its blocks, which come with its last packet or with the end; and one puts the
/// Cues, 12 bytes and 27 for each Cluster. A call that fails puts the first half of its piece.
#[rattlefmt::skip]
static ROWS: [Row; 14] = [
    Row { fail: 0, lacking: None, ending: Ending::Done { frames: 51 }, len: HEAD + 2 * FULL + 45 + 93 },
    Row { fail: 2, lacking: None, ending: Ending::Sink, len: 52 / 2 },
    Row { fail: 3, lacking: None, ending: Ending::Sink, len: 52 + (HEAD - 52) / 2 },
    Row { fail: 4, lacking: None, ending: Ending::Sink, len: HEAD + 22 / 2 },
    Row { fail: 5, lacking: None, ending: Ending::Sink, len: HEAD + 22 + (FULL - 22) / 2 },
    Row { fail: 6, lacking: None, ending: Ending::Sink, len: HEAD + FULL + 22 / 2 },
    Row { fail: 7, lacking: None, ending: Ending::Sink, len: HEAD + FULL + 22 + (FULL - 22) / 2 },
    Row { fail: 8, lacking: None, ending: Ending::Sink, len: HEAD + 2 * FULL + 22 / 2 },
    Row { fail: 9, lacking: None, ending: Ending::Sink, len: HEAD + 2 * FULL + 22 + 23 / 2 },
    Row { fail: 10, lacking: None, ending: Ending::Sink, len: HEAD + 2 * FULL + 45 + 93 / 2 },
    // The 25th packet puts the first Cluster: where it is lacking the vault isn't called, and where the 26th is it has failed before.
    Row { fail: 4, lacking: Some(24), ending: Ending::ClipFault { at: 24, fault: THE_25TH }, len: HEAD },
    Row { fail: 4, lacking: Some(25), ending: Ending::Sink, len: HEAD + 22 / 2 },
    Row { fail: 8, lacking: Some(50), ending: Ending::ClipFault { at: 50, fault: THE_LAST }, len: HEAD + 2 * FULL },
    Row { fail: 2, lacking: Some(0), ending: Ending::Sink, len: 52 / 2 },
];

#[test]
fn failing_calls(rt: HostRuntime) -> Result<(), Fail> {
    let alloc = rt.alloc();
    for row in &ROWS {
        let file = match row.lacking {
            Some(frame) => file_with(alloc, frame as usize, &[])?,
            None => file_with(alloc, 0, &PACKET)?,
        };
        let library = library_of(alloc, file)?;
        let (ending, file) = exported(alloc, &library, &[frames(0, FRAMES as u32)], row.fail)?;
        assert_eq!(rt; ending, row.ending, "call {}", row.fail);
        assert!(rt;
            WHOLE.get(..row.len) == Some(file.as_slice()),
            "call {}",
            row.fail
        );
    }
    Ok(())
}
