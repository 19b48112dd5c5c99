//! The frames of a timeline, one after the other.

ghost use Rattle.std.specs.Prelude.{IsTrue, ◌≡◌, ◌+◌, ◌<◌, ◌≤◌, [], length, IsSome};
ghost use Rattle.tl_limits.specs.Limits.{IsRate, max_frames};
ghost use Rattle.tl_ports.specs.Outside.{KeepsBegun, Rose};
ghost use Rattle.tl_model.specs.Cells.{cells_of, cells, recipes};
ghost use Rattle.tl_model.specs.Segment.{IsPiece, ArePieces};
ghost use Rattle.tl_model.specs.Sound.{AreSound, IsSound};
ghost use Rattle.mkv_write.specs.Writing.{put_of};
ghost use Rattle.smart_export.specs.Rendered.{HavePackets};
ghost use Rattle.smart_export.specs.Ends.{all_frames, Ends, EndingHasCause, IsDoneOrNoMemory};
ghost use Rattle.smart_export.specs.Stop.{ending_of};
ghost use Rattle.smart_export.specs.Puts.{frames_on, PutsFrames, PutsHasCause};

use crate::frame::put_frame;
use mkv_write::{MkvWriter, WriteFault};
use std::alloc::Global;
use tl_model::{Ending, Media, Segment, Segments};
use tl_ports::Vault;

/// Gives the writer the packets of a segment, whose first frame has this place in the timeline.
fn put_segment<M: Media, V: Vault>(
    alloc: Global,
    media: &M,
    segment: &Segment,
    first: u32,
    vault: &mut V,
    writer: &mut MkvWriter,
) -> Result<(), Ending>
    requires begun { IsSome (V.seen vault.old).begun }
    requires held { IsTrue V.tells → (V.seen vault.old).held ≡ put_of writer.old }
    requires piece { IsPiece segment.now }
    requires sound { AreSound (M.library media.now) (cells_of segment.now) }
    requires first { first ≡ length writer.old.packets }
    requires room { first + segment.now.len ≤ max_frames }
    ensures put { PutsFrames V.tells (V.seen vault.new).held
        (frames_on (M.library media.now) (recipes (cells_of segment.now)) writer.old) writer.new result }
    ensures kept { KeepsBegun V.tells (V.seen vault.old) (V.seen vault.new) }
    ensures cause { PutsHasCause (V.seen vault.old).faults (V.seen vault.new).faults result }
{
    for i in 0..segment.len {
        match put_frame(alloc, media, segment.recipe_at(i), vault, writer) {
            Ok(()) => {}
            Err(stop) => return Err(stop.ending_at(first + i)),
        }
    }
    Ok(())
}

/// Gives the writer, which has none yet, the packets of a timeline.
fn put_segments<M: Media, V: Vault>(
    alloc: Global,
    media: &M,
    segments: &[Segment],
    vault: &mut V,
    writer: &mut MkvWriter,
) -> Result<(), Ending>
    requires begun { IsSome (V.seen vault.old).begun }
    requires held { IsTrue V.tells → (V.seen vault.old).held ≡ put_of writer.old }
    requires pieces { ArePieces segments.now }
    requires sound { IsSound (M.library media.now) (cells segments.now) }
    requires fresh { length writer.old.packets ≡ 0 }
    ensures put { PutsFrames V.tells (V.seen vault.new).held
        (frames_on (M.library media.now) (recipes (cells segments.now)) writer.old) writer.new result }
    ensures kept { KeepsBegun V.tells (V.seen vault.old) (V.seen vault.new) }
    ensures cause { PutsHasCause (V.seen vault.old).faults (V.seen vault.new).faults result }
{
    let mut place = 0;
    for segment in segments {
        match put_segment(alloc, media, segment, place, vault, writer) {
            Ok(()) => place += segment.len,
            Err(ending) => return Err(ending),
        }
    }
    Ok(())
}

/// How an export ends whose file couldn't be started or finished.
fn ending_of(fault: WriteFault) -> Ending
    ensures { result ≡ ending_of fault }
{
    match fault {
        WriteFault::Sink => Ending::Sink,
        WriteFault::NoMemory => Ending::NoMemory,
    }
}

/// Writes the frames and the end of a file that was started.
fn write_started<M: Media, V: Vault>(
    alloc: Global,
    media: &M,
    segments: &[Segment],
    vault: &mut V,
    mut writer: MkvWriter,
) -> Ending
    requires begun { IsSome (V.seen vault.old).begun }
    requires held { IsTrue V.tells → (V.seen vault.old).held ≡ put_of writer }
    requires pieces { ArePieces segments.now }
    requires sound { IsSound (M.library media.now) (cells segments.now) }
    requires some { 1 ≤ length (cells segments.now) }
    requires fresh { length writer.packets ≡ 0 }
    ensures ended { Ends V.tells (V.seen vault.new).held
        (frames_on (M.library media.now) (recipes (cells segments.now)) writer) result }
    ensures kept { KeepsBegun V.tells (V.seen vault.old) (V.seen vault.new) }
    ensures cause { EndingHasCause (V.seen vault.old).faults (V.seen vault.new).faults result }
{
    match put_segments(alloc, media, segments, vault, &mut writer) {
        Ok(()) => match writer.finish(vault) {
            Ok(frames) => Ending::Done { frames },
            Err(fault) => ending_of(fault),
        },
        Err(ending) => ending,
    }
}

/// Writes a timeline into the begun file of a vault, which is empty, at this rate in frames a second.
///
/// A frame that a clip shows as it is, in a clip whose record bytes are the output's, gets the clip's own packet, after it
/// was decoded; any other frame is rendered and coded. One picture and one packet are held at a time.
///
/// `Done` tells the number of frames. `ClipFault` and `SliceTooLong` name the first frame that couldn't be rendered, or
/// whose packet is too long (RFC 9043 section 4.9.1). `Sink` comes only where the vault's count of faults rose in this
/// call. Whatever the ending, what was written is a prefix of the file over the packets of the frames before it, the file
/// stays begun, and no other file changes.
pub fn export<M: Media, V: Vault>(
    alloc: Global,
    state: &Segments,
    media: &M,
    vault: &mut V,
    rate: u32,
) -> Ending
    requires begun { IsSome (V.seen vault.old).begun }
    requires empty { IsTrue V.tells → (V.seen vault.old).held ≡ [] }
    requires pieces { ArePieces state.now }
    requires sound { IsSound (M.library media.now) (cells state.now) }
    requires some { 1 ≤ length (cells state.now) }
    requires rate { IsRate rate }
    ensures ended { Ends V.tells (V.seen vault.new).held (all_frames (M.library media.now) (cells state.now) rate) result }
    ensures cause { EndingHasCause (V.seen vault.old).faults (V.seen vault.new).faults result }
    ensures complete { HavePackets (M.library media.now) (recipes (cells state.now))
        → (Rose (V.seen vault.old).faults (V.seen vault.new).faults → ⊥) → IsDoneOrNoMemory result }
    ensures kept { KeepsBegun V.tells (V.seen vault.old) (V.seen vault.new) }
{
    let (width, height) = media.size();
    match MkvWriter::start(alloc, vault, width, height, media.private(), rate) {
        Ok(writer) => write_started(alloc, media, state.as_slice(), vault, writer),
        Err(fault) => ending_of(fault),
    }
}
