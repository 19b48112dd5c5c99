//! A packet damaged in each way, at each place that matters.

use crate::clips::{FRAMES, file_with, library_of};
use crate::exporting::{exported, frames};
use crate::tables::{DAMAGED, WHOLE};
use std::alloc::Global;
use std::process::Abort;
use std::test::Fail;
use tl_model::{Ending, FrameFault, RenderFault};

/// How many bytes stand before the first Cluster: 146, and the record.
pub(crate) const HEAD: usize = 169;

/// A full Cluster: 22 bytes, and 25 blocks of 13 bytes and a packet of 10.
pub(crate) const FULL: usize = 597;

/// The frames that are damaged in turn: the first, the 24th, the 25th, the 26th and the last. And how many full Clusters are before it.
const PLACES: [(u32, usize); 5] = [(0, 0), (23, 0), (24, 0), (25, 1), (50, 2)];

/// Exports the clip with a damaged packet, which ends at its frame. The full Clusters before it were put, and no more.
fn expect_fault(
    rt: &impl Abort,
    alloc: Global,
    damaged: (&[u8], FrameFault),
    frame: u32,
    clusters: usize,
) -> Result<(), Fail> {
    let (packet, kind) = damaged;
    let library = library_of(alloc, file_with(alloc, frame as usize, packet)?)?;
    let (ending, file) = exported(alloc, &library, &[frames(0, FRAMES as u32)], 0)?;
    let fault = RenderFault {
        clip: 0,
        frame,
        kind,
    };
    assert_eq!(rt; ending, Ending::ClipFault { at: frame, fault });
    let put = WHOLE.get(..HEAD + clusters.min(2) * FULL);
    assert!(rt;
        put == Some(file.as_slice()),
        "what was put before frame {frame}"
    );
    Ok(())
}

#[test]
fn damaged_packets(rt: HostRuntime) -> Result<(), Fail> {
    for damaged in DAMAGED {
        for (frame, clusters) in PLACES {
            expect_fault(&rt, rt.alloc(), damaged, frame, clusters)?;
        }
    }
    Ok(())
}
