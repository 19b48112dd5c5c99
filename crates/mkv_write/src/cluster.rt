//! Clusters, and the blocks in them.

ghost use Rattle.std.specs.Prelude.{◌≡◌, ◌++◌, ◌+◌, ◌-◌, ◌*◌, ◌/◌, ◌<◌, ◌≤◌, ◌^◌, length, OnOk, OnErr, IfOk, IsSome};
ghost use Rattle.tl_limits.specs.Limits.{max_packet_bytes, cluster_frames};
ghost use Rattle.tl_ports.specs.Outside.{KeepsBegun};
ghost use Rattle.mkv_write.specs.File.{frame_time, simple_block, cluster_of};
ghost use Rattle.mkv_write.specs.History.{packet_of};
ghost use Rattle.mkv_write.specs.Writing.{Appends, IsPrefix, WriteHasCause};

use crate::element::{put_id, put_number, put_size};
use crate::fault::WriteFault;
use crate::history::Given;
use crate::put::put_both;
use mkv_elements::{CLUSTER, SIMPLE_BLOCK, TIMESTAMP};
use std::alloc::{AllocError, Global};
use std::snapshot::Snapshot;
use tl_limits::CLUSTER_FRAMES;
use tl_ports::Vault;

/// What stands before the packet in a block: its number of bytes.
const BLOCK_HEAD: usize = 13;

/// The number of the one track, 1, as it stands in a block (RFC 8794 section 4).
const TRACK: u8 = 0x81;

/// The flags of a block: a key frame, without lacing (RFC 9559 section 10.2).
const KEY_FRAME: u8 = 0x80;

/// The time of a frame in milliseconds, the nearest to its own.
#[tactic(auto, unfolding(crate::specs::File::frame_time))]
pub(crate) fn frame_time(rate: u32, frame: u32) -> u64
    requires { 1 ≤ rate }
    ensures { result ≡ frame_time rate frame }
{
    (1000 * u64::from(frame) + u64::from(rate / 2)) / u64::from(rate)
}

/// The time of the Cluster that a frame is in.
pub(crate) fn cluster_time(rate: u32, frame: u32) -> u64
    requires { 1 ≤ rate }
    ensures { result ≡ frame_time rate (cluster_frames * (frame / cluster_frames)) }
{
    frame_time(rate, CLUSTER_FRAMES * (frame / CLUSTER_FRAMES))
}

/// The time of a frame after its Cluster's.
pub(crate) fn block_time(rate: u32, frame: u32) -> u16
    requires { 1 ≤ rate }
    ensures { result ≡ frame_time rate frame - frame_time rate (cluster_frames * (frame / cluster_frames)) }
{
    (frame_time(rate, frame) - cluster_time(rate, frame)) as u16
}

/// Appends a SimpleBlock of track 1, a key frame: the time after its Cluster's, and the packet. After a refusal
/// the buffer is as before.
pub(crate) fn put_block(out: &mut Vec<u8>, time: u16, packet: &[u8]) -> Result<Given, AllocError>
    requires { length packet.now ≤ max_packet_bytes }
    ensures ok { OnOk result (out.new.items ≡ out.old.items ++ simple_block time packet.now) }
    ensures given { IfOk result (λ given. packet_of given ≡ packet.now) }
    ensures err { OnErr result (out.new.items ≡ out.old.items) }
{
    out.reserve(BLOCK_HEAD + packet.len())?;
    let before = out.len();
    match put_parts(out, time, packet) {
        Ok(given) => Ok(given),
        Err(error) => {
            out.truncate(before);
            Err(error)
        }
    }
}

/// The parts of the block. After a refusal some of them may have been appended.
#[tactic(auto, unfolding(crate::specs::File::simple_block, crate::specs::File::element))]
fn put_parts(out: &mut Vec<u8>, time: u16, packet: &[u8]) -> Result<Given, AllocError>
    requires { length packet.now ≤ max_packet_bytes }
    ensures ok { OnOk result (out.new.items ≡ out.old.items ++ simple_block time packet.now) }
    ensures given { IfOk result (λ given. packet_of given ≡ packet.now) }
    ensures err { OnErr result (IsPrefix out.old.items out.new.items) }
{
    let [high, low] = time.to_be_bytes();
    put_id(out, 1, SIMPLE_BLOCK)?;
    put_size(out, 8, packet.len() as u64 + 4)?;
    out.extend_from_slice(&[TRACK, high, low, KEY_FRAME])?;
    let before = Snapshot::of(out);
    out.extend_from_slice(packet)?;
    let after = Snapshot::of(out);
    Ok(Given { before, after })
}

/// What stands before the blocks in a Cluster.
#[tactic(auto, using(crate::proofs::Clusters::cluster_of_parts))]
fn cluster_head(alloc: Global, time: u64, blocks: &[u8]) -> Result<Vec<u8>, AllocError>
    requires { length blocks.now < 2 ^ 62 }
    ensures { IfOk result (λ head. head.items ++ blocks.now ≡ cluster_of time blocks.now) }
{
    let mut head = Vec::new(alloc);
    put_id(&mut head, 4, CLUSTER)?;
    put_size(&mut head, 8, blocks.len() as u64 + 10)?;
    put_number(&mut head, 1, TIMESTAMP, 8, time)?;
    Ok(head)
}

/// Puts a Cluster of these blocks.
pub(crate) fn put_cluster<V: Vault>(
    alloc: Global,
    vault: &mut V,
    time: u64,
    blocks: &[u8],
) -> Result<(), WriteFault>
    requires begun { IsSome (V.seen vault.old).begun }
    requires fits { length blocks.now < 2 ^ 62 }
    ensures put { Appends V.tells (V.seen vault.old).held (V.seen vault.new).held (cluster_of time blocks.now) result }
    ensures kept { KeepsBegun V.tells (V.seen vault.old) (V.seen vault.new) }
    ensures cause { WriteHasCause (V.seen vault.old).faults (V.seen vault.new).faults result }
{
    let head = cluster_head(alloc, time, blocks)?;
    put_both(vault, &head, blocks)?;
    Ok(())
}

/// Puts a Cluster of these blocks and one more, which is then appended to them. After a refusal they are as before.
pub(crate) fn put_full_cluster<V: Vault>(
    alloc: Global,
    vault: &mut V,
    time: u64,
    blocks: &mut Vec<u8>,
    block_time: u16,
    packet: &[u8],
) -> Result<Given, WriteFault>
    requires begun { IsSome (V.seen vault.old).begun }
    requires fits { length blocks.old.items < 2 ^ 61 }
    requires size { length packet.now ≤ max_packet_bytes }
    ensures ok { OnOk result (blocks.new.items ≡ blocks.old.items ++ simple_block block_time packet.now) }
    ensures given { IfOk result (λ given. packet_of given ≡ packet.now) }
    ensures err { OnErr result (blocks.new.items ≡ blocks.old.items) }
    ensures put { Appends V.tells (V.seen vault.old).held (V.seen vault.new).held
        (cluster_of time (blocks.old.items ++ simple_block block_time packet.now)) result }
    ensures kept { KeepsBegun V.tells (V.seen vault.old) (V.seen vault.new) }
    ensures cause { WriteHasCause (V.seen vault.old).faults (V.seen vault.new).faults result }
{
    let before = blocks.len();
    let given = put_block(blocks, block_time, packet)?;
    match put_cluster(alloc, vault, time, blocks) {
        Ok(()) => Ok(given),
        Err(fault) => {
            blocks.truncate(before);
            Err(fault)
        }
    }
}
