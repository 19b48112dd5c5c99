//! Every limit of the editor, once: its number, and the word for what keeps it.
//!
//! Sizes are counted in samples, lengths in frames, files in bytes.
#![tactic(auto)]

ghost use Rattle.tl_limits.specs.Stated.{AreStated};

/// The most samples of a picture's width or height.
pub const MAX_SIDE: u32 = 8_192;

/// The most slices of a picture.
pub const MAX_SLICES: u32 = 1_024;

/// The most bytes of a configuration record.
pub const MAX_RECORD_BYTES: u32 = 65_536;

/// The most bytes of a slice's content, which its size in 24 bits can say.
pub const MAX_SLICE_BYTES: u32 = 16_777_215;

/// The most bytes of a packet that is written.
pub const MAX_PACKET_BYTES: u64 = 1_099_511_627_776;

/// The most bytes of a clip's file.
pub const MAX_CLIP_BYTES: u64 = 2_147_483_648;

/// The most bytes of all clips' files together.
pub const MAX_TOTAL_BYTES: u64 = 4_294_967_296;

/// The most clips of a session.
pub const MAX_CLIPS: u32 = 1_000;

/// The most frames of a clip and of a timeline, and the largest number of an edit or a script.
pub const MAX_FRAMES: u32 = 1_000_000;

/// The most segments of a timeline.
pub const MAX_SEGMENTS: u32 = 100_000;

/// The most frames of a dissolve.
pub const MAX_MIX: u32 = 250;

/// What each frame number of a timecode is below.
pub const TIMECODE_FRAMES: u32 = 33_554_432;

/// The most frames a second.
pub const MAX_RATE: u32 = 240;

/// The frames of a full Cluster.
pub const CLUSTER_FRAMES: u32 = 25;

/// The most bytes of a script or an edit list.
pub const MAX_TEXT_BYTES: u64 = 16_777_216;

/// The most lines of a script.
pub const MAX_LINES: u32 = 100_000;

/// The most worker threads, and how many there are where none are named.
pub const MAX_WORKERS: u32 = 16;

pub const USUAL_WORKERS: u32 = 2;

/// The most filed results, and how many are kept where none are named.
pub const MAX_CACHE: u32 = 4_096;

pub const USUAL_CACHE: u32 = 64;

/// The least and the most entries of a journal that a command line names, and how many it takes where none are named.
pub const MIN_JOURNAL: u64 = 16;

pub const MAX_JOURNAL: u64 = 4_000_000;

pub const USUAL_JOURNAL: u64 = 1_000_000;

/// The most entries of a journal of the library.
pub const MAX_ENTRIES: u64 = 1_099_511_627_776;

/// Tells, in a proof, that each limit is the stated number. It does nothing.
pub fn limits_are_stated()
    ensures { AreStated }
{}

#[cfg(test)]
mod tests;
