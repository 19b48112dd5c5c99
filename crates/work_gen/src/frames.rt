//! The frames of the clip, one after the other. The vault is one that never fails, so what stops a writer is want of memory.
ghost use Rattle.std.specs.Prelude.{IsTrue, ◌≡◌, ◌<◌, ◌≤◌, [], IsSome, OnOk, IfOk, length, vec_len};
ghost use Rattle.tl_limits.specs.Limits.{max_packet_bytes};
ghost use Rattle.mkv_write.specs.Writing.{put_of};
ghost use Rattle.work_gen.specs.Picture.{clip_shape};
ghost use Rattle.work_gen.specs.Clip.{clip_record, IsPacket, IsClip};
ghost use Rattle.work_gen.specs.Answer.{IsCount, max_generated};
ghost use Rattle.work_gen.specs.Given.{IsGiven, AddsFrame};

use crate::clip::clip_shape;
use crate::pictures::draw;
use ffv1_frame::encode_frame;
use ffv1_record::Record;
use mkv_write::MkvWriter;
use pic_planes::Picture;
use std::alloc::{AllocError, Global};
use tl_model::EncodeFault;
use tl_ports::Vault;

/// Writes the clip of so many frames into the begun file, which is empty.
pub(crate) fn write_clip<V: Vault>(
    alloc: Global,
    coding: &Record,
    frames: u32,
    vault: &mut V,
) -> Result<(), AllocError>
    requires coding { coding.now ≡ clip_record }
    requires frames { IsCount frames }
    requires begun { IsSome (V.seen vault.old).begun }
    requires empty { IsTrue V.tells → (V.seen vault.old).held ≡ [] }
    ensures clip { OnOk result (IsTrue V.tells → IsClip frames (V.seen vault.new).held) }
    ensures begun { (V.seen vault.new).begun ≡ (V.seen vault.old).begun }
{
    let private = coding.write(alloc)?;
    match MkvWriter::start(alloc, vault, 64, 48, private.as_slice(), 25) {
        Ok(writer) => write_started(alloc, coding, frames, vault, writer),
        Err(_) => Err(AllocError),
    }
}

// Writes the frames and the end of a file that was started.
fn write_started<V: Vault>(
    alloc: Global,
    coding: &Record,
    frames: u32,
    vault: &mut V,
    mut writer: MkvWriter,
) -> Result<(), AllocError>
    requires coding { coding.now ≡ clip_record }
    requires frames { IsCount frames }
    requires begun { IsSome (V.seen vault.old).begun }
    requires held { IsTrue V.tells → (V.seen vault.old).held ≡ put_of writer }
    requires given { IsGiven 0 writer }
    ensures clip { OnOk result (IsTrue V.tells → IsClip frames (V.seen vault.new).held) }
    ensures begun { (V.seen vault.new).begun ≡ (V.seen vault.old).begun }
{
    put_frames(alloc, coding, frames, vault, &mut writer)?;
    match writer.finish(vault) {
        Ok(_) => Ok(()),
        Err(_) => Err(AllocError),
    }
}

// Gives a writer that has none yet the packets of so many frames. One picture and one packet are held at a time.
fn put_frames<V: Vault>(
    alloc: Global,
    coding: &Record,
    frames: u32,
    vault: &mut V,
    writer: &mut MkvWriter,
) -> Result<(), AllocError>
    requires coding { coding.now ≡ clip_record }
    requires frames { IsCount frames }
    requires begun { IsSome (V.seen vault.old).begun }
    requires held { IsTrue V.tells → (V.seen vault.old).held ≡ put_of writer.old }
    requires given { IsGiven 0 writer.old }
    ensures given { OnOk result (IsGiven frames writer.new) }
    ensures held { OnOk result (IsTrue V.tells → (V.seen vault.new).held ≡ put_of writer.new) }
    ensures begun { (V.seen vault.new).begun ≡ (V.seen vault.old).begun }
{
    let mut picture = Picture::zero(alloc, clip_shape())?;
    for frame in 0..frames {
        put_frame(alloc, coding, &mut picture, frame, vault, writer)?;
    }
    Ok(())
}

// Gives the writer the packet of the next frame.
fn put_frame<V: Vault>(
    alloc: Global,
    coding: &Record,
    picture: &mut Picture,
    frame: u32,
    vault: &mut V,
    writer: &mut MkvWriter,
) -> Result<(), AllocError>
    requires coding { coding.now ≡ clip_record }
    requires shape { picture.old.shape ≡ clip_shape }
    requires frame { frame < max_generated }
    requires next { length writer.old.packets ≡ frame }
    requires begun { IsSome (V.seen vault.old).begun }
    requires held { IsTrue V.tells → (V.seen vault.old).held ≡ put_of writer.old }
    ensures shape { picture.new.shape ≡ clip_shape }
    ensures added { OnOk result (AddsFrame frame writer.old writer.new) }
    ensures held { OnOk result (IsTrue V.tells → (V.seen vault.new).held ≡ put_of writer.new) }
    ensures begun { (V.seen vault.new).begun ≡ (V.seen vault.old).begun }
{
    let packet = packet_of(alloc, coding, picture, frame)?;
    match writer.frame(vault, packet.as_slice()) {
        Ok(()) => Ok(()),
        Err(_) => Err(AllocError),
    }
}

// Draws the picture of a frame, and codes it. No slice of it is too long.
#[tactic(auto, using(crate::proofs::Giving::suits, crate::proofs::Short::never_long))]
fn packet_of(
    alloc: Global,
    coding: &Record,
    picture: &mut Picture,
    frame: u32,
) -> Result<Vec<u8>, AllocError>
    requires coding { coding.now ≡ clip_record }
    requires shape { picture.old.shape ≡ clip_shape }
    requires frame { frame < max_generated }
    ensures shape { picture.new.shape ≡ clip_shape }
    ensures packet { IfOk result (λ packet. IsPacket frame packet.items) }
    ensures few { IfOk result (λ packet. vec_len packet ≤ max_packet_bytes) }
{
    draw(picture, frame);
    match encode_frame(alloc, coding, picture) {
        Ok(packet) => Ok(packet),
        Err(EncodeFault::SliceTooLong) => unreachable!(),
        Err(EncodeFault::NoMemory) => Err(AllocError),
    }
}
