//! The file that an export of the clip's three frames writes.

ghost use Rattle.std.specs.Prelude.{◌≡◌, ◌<◌, IsTrue, length};

use crate::clips::{PACKET, RECORD_LEN};

/// Where the cluster begins: behind the EBML header, and behind the Segment's head and its tracks.
const CLUSTER_AT: usize = 52 + 94 + RECORD_LEN;

/// The cluster's id and its unwritten size.
const CLUSTER: [u8; 12] = [0x1F, 0x43, 0xB6, 0x75, 1, 0, 0, 0, 0, 0, 0, 0x40];

/// Whether a block has this time in milliseconds, and the clip's own packet.
fn is_block(file: &[u8], index: usize, time: u8) -> bool
    requires whole { length file.now ≡ 284 }
    requires index { index < 3 }
{
    let at = CLUSTER_AT + 12 + 10 + 18 * index;
    let head = &file[at + 9..at + 13];
    let packet = &file[at + 13..at + 18];
    head == [0x81, 0, time, 0x80].as_slice() && packet == PACKET.as_slice()
}

/// Whether a file is the export of the clip's three frames: its size, where its cluster begins, its first bytes, and the times and packets
/// of its blocks.
pub fn is_whole(file: &[u8]) -> bool
    ensures { IsTrue result → length file.now ≡ 284 }
{
    if file.len() != 284 {
        return false;
    }
    let head = &file[CLUSTER_AT..CLUSTER_AT + 12];
    if head != CLUSTER.as_slice() {
        return false;
    }
    is_block(file, 0, 0) && is_block(file, 1, 40) && is_block(file, 2, 80)
}
