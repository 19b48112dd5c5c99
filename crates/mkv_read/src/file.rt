ghost use Rattle.std.specs.Prelude.{◌≡◌, ◌≤◌, length, IfOk, IfSome};
ghost use Rattle.std.specs.List.{AllByRecursion};
ghost use Rattle.mkv_elements.specs.declared.TheConstants.{EBML};
ghost use Rattle.mkv_read.specs.Plain.{LiesBefore};
ghost use Rattle.mkv_read.specs.Elements.{elements};
ghost use Rattle.mkv_read.specs.Taking.{Gives, taken_of, finished, number_in, read};
ghost use Rattle.mkv_read.specs.Clip.{begins_with, is_matroska, end_or, IsWithinLimits, clip_of};

use crate::block::Blocks;
use crate::clip::{ClipIndex, MAX_FRAMES, Places};
use crate::element::{child, element_at, first, is_text};
use crate::fault::{ClipFault, Which};
use crate::track::{Track, track_of};
use crate::visit::{Inside, LEVELS, visit};
use ebml_core::Element;
use mkv_elements::{DOC_TYPE, EBML, FILE, SEGMENT};
use std::alloc::Global;

/// Whether the file's first element is an EBML header.
fn begins_with_header(bytes: &[u8]) -> bool
    ensures { result ≡ begins_with EBML (elements bytes.now 0 (length bytes.now)) }
{
    match element_at(bytes, 0, bytes.len() as u64) {
        Ok(Some(element)) => element.id == EBML,
        Ok(None) => false,
        Err(_) => false,
    }
}

/// Whether the EBML header says that the file is Matroska.
#[tactic(auto, unfolding(crate::specs::Clip::is_matroska))]
fn is_matroska(bytes: &[u8]) -> bool
    ensures { result ≡ is_matroska bytes.now }
{
    match first(bytes, 0, bytes.len() as u64, EBML) {
        None => false,
        Some(header) => is_text(bytes, child(bytes, header, DOC_TYPE), b"matroska"),
    }
}

/// The clip of a track with the blocks that were taken.
fn finish(track: Track, blocks: Blocks) -> Result<ClipIndex, ClipFault>
    ensures exact { Gives (λ clip. clip) result (finished track (taken_of blocks)) }
    ensures places { IfOk result (λ clip. (clip.private ≡ track.private) × (clip.packets ≡ blocks.packets.items)) }
{
    if blocks.count > MAX_FRAMES {
        return Err(ClipFault::Limit {
            which: Which::Frames,
        });
    }
    if let Some(fault) = blocks.fault {
        return Err(fault);
    }
    if blocks.packets.is_empty() {
        return Err(ClipFault::NoFrames);
    }
    Ok(ClipIndex {
        width: track.width,
        height: track.height,
        private: track.private,
        packets: Places::from_vec(blocks.packets),
    })
}

/// Where what is read of the file ends: with its first Segment.
fn end_or(end: u64, segment: Option<Element>) -> u64
    ensures { result ≡ end_or end segment }
{
    match segment {
        None => end,
        Some(segment) => segment.end,
    }
}

/// The number of the blocks that are taken.
fn number_in(track: Result<Track, ClipFault>) -> Option<u64>
    ensures { result ≡ number_in track }
{
    match track {
        Ok(track) => Some(track.number),
        Err(_) => None,
    }
}

/// Reads the file once over, and then judges what was found.
#[tactic(auto, unfolding(crate::specs::Taking::read, crate::specs::Clip::segment_of, crate::specs::Clip::file_of))]
fn read(alloc: Global, bytes: &[u8]) -> Result<ClipIndex, ClipFault>
    ensures exact { Gives (λ clip. clip) result (read bytes.now) }
    ensures within { IfOk result (λ clip. LiesBefore (length bytes.now) clip.private
        × AllByRecursion (LiesBefore (length bytes.now)) clip.packets) }
{
    if !begins_with_header(bytes) {
        return Err(ClipFault::Ebml { at: 0 });
    }
    let len = bytes.len() as u64;
    let segment = first(bytes, 0, len, SEGMENT);
    let track = track_of(bytes, segment);
    let mut blocks = Blocks::none(alloc);
    let inside = Inside {
        levels: LEVELS,
        parent: FILE,
        time: 0,
    };
    visit(
        bytes,
        number_in(track),
        inside,
        0,
        end_or(len, segment),
        &mut blocks,
    )?;
    if !is_matroska(bytes) {
        return Err(ClipFault::DocType);
    }
    let track = track?;
    let clip = finish(track, blocks)?;
    Ok(clip)
}

/// The clip of a Matroska file: the size of its pictures, and where its configuration record and its
/// packets lie, in file order.
///
/// It goes once over the headers of the elements that are read and touches no packet. A few more times,
/// whatever the file, it goes over what stands before the Segment, in it before the first Tracks, and in
/// EBML, Tracks, the TrackEntries and Video; and once more over what stands before a Cluster's Timestamp,
/// and over a Cluster of unknown size for its end. It keeps 16 bytes for each packet.
///
/// Of several faults the first in the order of `ClipFault` is answered, of `Laced` and `TimeOrder` the one
/// of the first such block.
pub fn read_clip(alloc: Global, bytes: &[u8]) -> Result<ClipIndex, ClipFault>
    ensures exact { Gives (λ clip. clip) result (clip_of bytes.now) }
    ensures limits { IfOk result IsWithinLimits }
    ensures within { IfOk result (λ clip. LiesBefore (length bytes.now) clip.private
        × AllByRecursion (LiesBefore (length bytes.now)) clip.packets) }
{
    read(alloc, bytes)
}
