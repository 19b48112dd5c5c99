//! The writer: packets in, a Matroska file out, a Cluster at a time.

ghost use Rattle.std.specs.Prelude.{IsTrue, ◌≡◌, ℕ, ◌+◌, ◌%◌, ◌<◌, ◌≤◌, ◌^◌, ◌++◌, ◌∷◌, [], List, length, IsSome, IfOk, OnOk, OnErr};
ghost use Rattle.tl_limits.specs.Limits.{IsSide, IsRecordLength, IsRate, max_frames, max_packet_bytes, cluster_frames};
ghost use Rattle.tl_ports.specs.Outside.{KeepsBegun};
ghost use Rattle.mkv_write.specs.File.{mkv, head, clusters, cue_points, cluster_count};
ghost use Rattle.mkv_write.specs.Keeping.{lead_length, points_of};
ghost use Rattle.mkv_write.specs.Writing.{Writing, nothing_yet, with_packet, put_of, file_of, Puts, IsPrefix, WriteHasCause};

use crate::cluster::{block_time, cluster_time, put_block, put_cluster, put_full_cluster};
use crate::cue::{Cue, cues};
use crate::fault::WriteFault;
use crate::head::{lead, preamble};
use crate::history::History;
use crate::put::{put, put_both};
use std::alloc::{AllocError, Global};
use std::marker::Model;
use tl_limits::CLUSTER_FRAMES;
use tl_ports::Vault;

/// What stands before the blocks in a Cluster: its number of bytes.
const CLUSTER_HEAD: u64 = 22;

/// Writes the packets of one FFV1 track as a Matroska file (RFC 9559) into the begun file of a vault.
///
/// It streams: it keeps the blocks of the open Cluster and 16 bytes for each full one, and no more. A contract sees it
/// as a `Writing`: the configuration record, the size of the picture, the rate, and the packets that were given.
///
/// Each call answers `Sink` only where the vault's count of faults rose in that call, and `NoMemory` where memory ran
/// out; with every answer but `Sink` the count is as it was. After a fault the file is given up: its caller ends it.
/// What was put is then a prefix of the file over the packets that were given, a refused one among them, and after a
/// fault of `start` or `frame` over any that would follow too. Whatever the answer, the file stays begun, and no other
/// file changes.
#[derive(Drop)]
pub struct MkvWriter {
    alloc: Global,
    history: History,
    rate: u32,
    frames: u32,
    /// The blocks of the open Cluster.
    gathered: Vec<u8>,
    /// The full Clusters.
    cues: Vec<Cue>,
    /// Where the open Cluster will begin in the Segment's content.
    place: u64,
}

impl Model for MkvWriter {
    ghost use Rattle.mkv_write.specs.Writing.{Writing};

    ghost Value = { Writing };

    ghost use Rattle.mkv_write.specs.History.{writing_of};
    ghost use Rattle.mkv_write.specs.Keeping.{Keeps};

    ghost view = { λ w. writing_of w.history w.rate };

    ghost invariant = { λ w. Keeps (writing_of w.history w.rate) w.frames w.place w.gathered.items w.cues.items };
}

impl MkvWriter {
    /// Starts a file in the begun one, which is empty, and puts all that stands before its first Cluster. The size of
    /// the picture is in pixels, `private` is the configuration record (RFC 9043 section 4.2), and the rate is in frames
    /// a second. After a fault a prefix of that was put.
    pub fn start<V: Vault>(
        alloc: Global,
        vault: &mut V,
        width: u32,
        height: u32,
        private: &[u8],
        rate: u32,
    ) -> Result<MkvWriter, WriteFault>
        requires begun { IsSome (V.seen vault.old).begun }
        requires empty { IsTrue V.tells → (V.seen vault.old).held ≡ [] }
        requires width { IsSide width }
        requires height { IsSide height }
        requires private { IsRecordLength (length private.now) }
        requires rate { IsRate rate }
        ensures started { IfOk result (λ writer. writer ≡ nothing_yet private.now width height rate) }
        ensures put { Puts V.tells (V.seen vault.new).held (put_of (nothing_yet private.now width height rate)) result }
        ensures kept { KeepsBegun V.tells (V.seen vault.old) (V.seen vault.new) }
        ensures cause { WriteHasCause (V.seen vault.old).faults (V.seen vault.new).faults result }
    {
        let history = History::new(alloc, private, width, height)?;
        let preamble = preamble(alloc)?;
        let lead = lead(alloc, private, width, height)?;
        put_both(vault, &preamble, &lead)?;
        Ok(MkvWriter {
            alloc,
            history,
            rate,
            frames: 0,
            gathered: Vec::new(alloc),
            cues: Vec::new(alloc),
            place: lead.len() as u64,
        })
    }

    /// Adds the packet of the next frame. A Cluster is put when its last packet, the 25th, comes. After a fault the
    /// writer is as before. What was put is then a prefix of the file over the earlier packets, this one, and any that
    /// would follow.
    pub fn frame<V: Vault>(&mut self, vault: &mut V, packet: &[u8]) -> Result<(), WriteFault>
        requires begun { IsSome (V.seen vault.old).begun }
        requires held { IsTrue V.tells → (V.seen vault.old).held ≡ put_of self.old }
        requires frames { length self.old.packets < max_frames }
        requires size { length packet.now ≤ max_packet_bytes }
        ensures added { OnOk result (self.new ≡ with_packet self.old packet.now) }
        ensures same { OnErr result (self.new ≡ self.old) }
        ensures put { Puts V.tells (V.seen vault.new).held (put_of (with_packet self.old packet.now)) result }
        ensures kept { KeepsBegun V.tells (V.seen vault.old) (V.seen vault.new) }
        ensures cause { WriteHasCause (V.seen vault.old).faults (V.seen vault.new).faults result }
    {
        if self.frames % CLUSTER_FRAMES == CLUSTER_FRAMES - 1 {
            self.end_cluster(vault, packet)?;
            Ok(())
        } else {
            self.gather(packet)?;
            Ok(())
        }
    }

    /// Keeps a packet that isn't the last of its Cluster.
    fn gather(&mut self, packet: &[u8]) -> Result<(), AllocError>
        requires frames { length self.old.packets < max_frames }
        requires size { length packet.now ≤ max_packet_bytes }
        requires early { length self.old.packets % cluster_frames + 1 < cluster_frames }
        ensures added { OnOk result (self.new ≡ with_packet self.old packet.now) }
        ensures same { OnErr result (self.new ≡ self.old) }
    {
        self.history.packets.reserve(1)?;
        let time = block_time(self.rate, self.frames);
        let given = put_block(&mut self.gathered, time, packet)?;
        self.history.packets.push_reserved(given);
        self.frames += 1;
        Ok(())
    }

    /// Puts the open Cluster, of which this packet is the last.
    fn end_cluster<V: Vault>(&mut self, vault: &mut V, packet: &[u8]) -> Result<(), WriteFault>
        requires begun { IsSome (V.seen vault.old).begun }
        requires held { IsTrue V.tells → (V.seen vault.old).held ≡ put_of self.old }
        requires frames { length self.old.packets < max_frames }
        requires size { length packet.now ≤ max_packet_bytes }
        requires last { length self.old.packets % cluster_frames + 1 ≡ cluster_frames }
        ensures added { OnOk result (self.new ≡ with_packet self.old packet.now) }
        ensures same { OnErr result (self.new ≡ self.old) }
        ensures put { Puts V.tells (V.seen vault.new).held (put_of (with_packet self.old packet.now)) result }
        ensures kept { KeepsBegun V.tells (V.seen vault.old) (V.seen vault.new) }
        ensures cause { WriteHasCause (V.seen vault.old).faults (V.seen vault.new).faults result }
    {
        self.history.packets.reserve(1)?;
        self.cues.reserve(1)?;
        let time = cluster_time(self.rate, self.frames);
        let block_time = block_time(self.rate, self.frames);
        let given = put_full_cluster(
            self.alloc,
            vault,
            time,
            &mut self.gathered,
            block_time,
            packet,
        )?;
        self.cues.push_reserved(Cue {
            time,
            place: self.place,
        });
        self.place += CLUSTER_HEAD + self.gathered.len() as u64;
        self.gathered.clear();
        self.history.packets.push_reserved(given);
        self.frames += 1;
        Ok(())
    }

    /// Puts the rest of the file, the Cluster that isn't full and the Cues, and answers how many frames it has. After a
    /// fault a prefix of the file was put.
    pub fn finish<V: Vault>(self, vault: &mut V) -> Result<u32, WriteFault>
        requires begun { IsSome (V.seen vault.old).begun }
        requires held { IsTrue V.tells → (V.seen vault.old).held ≡ put_of self }
        requires frames { 1 ≤ length self.packets }
        ensures frames { IfOk result (λ frames. frames ≡ length self.packets) }
        ensures put { Puts V.tells (V.seen vault.new).held (file_of self) result }
        ensures kept { KeepsBegun V.tells (V.seen vault.old) (V.seen vault.new) }
        ensures cause { WriteHasCause (V.seen vault.old).faults (V.seen vault.new).faults result }
    {
        let alloc = self.alloc;
        let frames = self.frames;
        let all = self.put_last(vault)?;
        let bytes = cues(alloc, &all)?;
        put(vault, &bytes)?;
        Ok(frames)
    }

    /// Puts the Cluster that isn't full, if there is one. Answers the Cues of all Clusters.
    fn put_last<V: Vault>(self, vault: &mut V) -> Result<Vec<Cue>, WriteFault>
        requires begun { IsSome (V.seen vault.old).begun }
        requires held { IsTrue V.tells → (V.seen vault.old).held ≡ put_of self }
        ensures cues { IfOk result (λ cues. points_of cues.items
            ≡ cue_points (lead_length self) self.rate self.packets (cluster_count (length self.packets))) }
        ensures put { Puts V.tells (V.seen vault.new).held
            (head self.private self.width self.height
            ++ clusters self.rate self.packets (cluster_count (length self.packets))) result }
        ensures kept { KeepsBegun V.tells (V.seen vault.old) (V.seen vault.new) }
        ensures cause { WriteHasCause (V.seen vault.old).faults (V.seen vault.new).faults result }
    {
        if self.frames % CLUSTER_FRAMES == 0 {
            return Ok(self.cues);
        }
        let time = cluster_time(self.rate, self.frames);
        put_cluster(self.alloc, vault, time, &self.gathered)?;
        let mut cues = self.cues;
        cues.push(Cue {
            time,
            place: self.place,
        })?;
        Ok(cues)
    }
}

/// What was put is a prefix of the file over any packets that go on from those that were given.
pub fn put_is_prefix()
    ensures { (w : Writing) (more : List (List ℕ)) → IsPrefix (put_of w) (file_of (record w { packets = w.packets ++ more })) }
{}
