ghost use Rattle.std.specs.Prelude.{◌≡◌, ◌^◌, ◌<◌, ◌+◌, ◌≤◌, length, ℕ, Ok, Some, None, OnOk, IfSome};
ghost use Rattle.mkv_read.specs.Plain.{LiesBefore};
ghost use Rattle.mkv_read.specs.Elements.{content_of, LiesWithin};
ghost use Rattle.mkv_read.specs.Faults.{signed_plus_32768, head_at};
ghost use Rattle.mkv_read.specs.Blocks.{block_of, block_fault};
ghost use Rattle.mkv_read.specs.Taking.{Gives, Lie, taken_of, nothing_taken, counted, kept, take, take_all};

use crate::clip::{MAX_FRAMES, Place};
use crate::element::content;
use crate::fault::ClipFault;
use ebml_core::{Element, Size, vint_size};
use std::alloc::Global;

/// The bits of a block's flags that tell how it is laced (RFC 9559 section 10.2).
const LACING: u8 = 6;

/// What stands before a block's packet (RFC 9559 section 10.1).
#[derive(Clone, Copy)]
pub struct Head {
    /// The number of its track.
    pub track: u64,
    /// Its time relative to its Cluster, plus 32,768.
    pub time: u16,
    pub flags: u8,
    pub packet: Place,
}

/// The blocks of a track that were read, in file order.
#[derive(Drop)]
pub struct Blocks {
    /// How many there are, and at most one more than a clip may have.
    pub count: usize,
    /// The packets before the first fault, at most so many as a clip may have.
    pub packets: Vec<Place>,
    /// The time of the last, plus 32,768; 0 where there is none.
    pub last: u128,
    /// The fault of the first block that is laced, or earlier than the one before.
    pub fault: Option<ClipFault>,
}

impl Blocks {
    /// No blocks.
    pub fn none(alloc: Global) -> Blocks
        ensures { taken_of result ≡ nothing_taken }
    {
        Blocks {
            count: 0,
            packets: Vec::new(alloc),
            last: 0,
            fault: None,
        }
    }
}

/// A block's time relative to its Cluster, plus 32,768.
fn relative_time(high: u8, low: u8) -> u16
    ensures { result ≡ signed_plus_32768 high low }
{
    u16::from_be_bytes([high, low]).wrapping_add(0x8000)
}

/// The head of a block whose content lies at a place; none where it is too short, or the number of its
/// track is badly spelled or the unknown size.
#[tactic(auto, unfolding(crate::specs::Faults::head_at))]
pub fn head_at(place: u64, content: &[u8]) -> Option<Head>
    requires { place + length content.now < 2 ^ 64 }
    ensures exact { result ≡ head_at place content.now }
    ensures lies { IfSome result (λ head. LiesBefore (place + length content.now) head.packet) }
{
    let Ok((Size::Known(track), octets)) = vint_size(content) else {
        return None;
    };
    match &content[octets as usize..] {
        [high, low, flags, packet @ ..] => Some(Head {
            track,
            time: relative_time(*high, *low),
            flags: *flags,
            packet: Place {
                from: place + u64::from(octets) + 3,
                len: packet.len() as u64,
            },
        }),
        _ => None,
    }
}

/// A block of the track.
#[derive(Clone, Copy)]
pub struct Block {
    /// Where its element starts.
    pub at: u64,
    /// Its time plus 32,768, in the file's timestamps.
    pub time: u128,
    pub laced: bool,
    pub packet: Place,
}

/// What is wrong with a block where the one before has this time.
#[tactic(auto, unfolding(crate::specs::Blocks::block_fault))]
fn block_fault(last: u128, block: Block) -> Option<ClipFault>
    ensures { result ≡ block_fault last block }
{
    if block.laced {
        return Some(ClipFault::Laced { at: block.at });
    }
    if block.time < last {
        return Some(ClipFault::TimeOrder { at: block.at });
    }
    None
}

/// One more, up to one more than a clip may have.
fn counted(count: usize) -> usize
    ensures { result ≡ counted count }
{
    if count <= MAX_FRAMES {
        count + 1
    } else {
        count
    }
}

/// Keeps a packet, unless there are as many as a clip may have.
fn keep(packets: &mut Vec<Place>, packet: Place) -> Result<(), ClipFault>
    ensures exact { Gives (λ done. packets.new.items) result (Ok (kept packets.old.items packet)) }
    ensures lie { (limit : ℕ) → OnOk result (Lie limit packets.old.items → LiesBefore limit packet → Lie limit packets.new.items) }
{
    if packets.len() < MAX_FRAMES {
        packets.push(packet)?;
    }
    Ok(())
}

/// Takes a block behind those before it.
#[tactic(auto, unfolding(crate::specs::Taking::take))]
fn take(blocks: &mut Blocks, block: Block) -> Result<(), ClipFault>
    ensures exact { Gives (λ done. taken_of blocks.new) result (Ok (take block (taken_of blocks.old))) }
    ensures lie { (limit : ℕ) → OnOk result
        (Lie limit blocks.old.packets.items → LiesBefore limit block.packet → Lie limit blocks.new.packets.items) }
{
    blocks.count = counted(blocks.count);
    if blocks.fault.is_some() {
        return Ok(());
    }
    if let Some(fault) = block_fault(blocks.last, block) {
        blocks.fault = Some(fault);
        return Ok(());
    }
    keep(&mut blocks.packets, block.packet)?;
    blocks.last = block.time;
    Ok(())
}

/// Takes an element that is a block, if it is one of this track.
pub fn take_block(
    bytes: &[u8],
    track: Option<u64>,
    time: u64,
    element: Element,
    blocks: &mut Blocks,
) -> Result<(), ClipFault>
    requires { LiesWithin (length bytes.now) element }
    ensures exact { Gives (λ done. taken_of blocks.new) result
        (Ok (take_all (block_of track time element (head_at element.content (content_of bytes.now element))) (taken_of blocks.old))) }
    ensures lie { OnOk result (Lie (length bytes.now) blocks.old.packets.items → Lie (length bytes.now) blocks.new.packets.items) }
{
    let Some(head) = head_at(element.content, content(bytes, element)) else {
        return Ok(());
    };
    let Some(number) = track else {
        return Ok(());
    };
    if head.track != number {
        return Ok(());
    }
    let block = Block {
        at: element.start,
        time: u128::from(time) + u128::from(head.time),
        laced: head.flags & LACING != 0,
        packet: head.packet,
    };
    take(blocks, block)?;
    Ok(())
}
