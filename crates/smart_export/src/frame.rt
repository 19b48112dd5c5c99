//! One frame of an export.

ghost use Rattle.std.specs.Prelude.{IsTrue, ◌≡◌, ◌<◌, ◌≤◌, length, IsSome, IfSome};
ghost use Rattle.std.specs.Option.{option_copied};
ghost use Rattle.tl_limits.specs.Limits.{max_frames, max_packet_bytes};
ghost use Rattle.tl_ports.specs.Outside.{KeepsBegun};
ghost use Rattle.tl_model.specs.Media.{CanRender};
ghost use Rattle.mkv_write.specs.Writing.{put_of};
ghost use Rattle.smart_export.specs.Rendered.{own_packet};
ghost use Rattle.smart_export.specs.Stop.{placed};
ghost use Rattle.smart_export.specs.Puts.{one_frame, PutsFrames, PutsHasCause};

use crate::stop::Stop;
use mkv_write::MkvWriter;
use std::alloc::Global;
use tl_model::{Media, Picked, Recipe};
use tl_ports::Vault;

/// The clip's own packet, where the frame is one of a clip as it is and the clip has the output's record bytes.
fn own_packet<M: Media>(media: &M, recipe: Recipe) -> Option<&[u8]>
    requires { CanRender (M.library media.now) recipe }
    ensures bytes { option_copied result ≡ own_packet (M.library media.now) recipe }
    ensures bound { IfSome result (λ packet. length packet.now ≤ max_packet_bytes) }
{
    match recipe {
        Recipe::Source { clip, frame } => {
            if media.copies(clip) {
                Some(media.packet(clip, frame))
            } else {
                None
            }
        }
        Recipe::Black | Recipe::Mix { .. } => None,
    }
}

/// Gives the writer the packet of a frame. The frame is rendered first, whichever packet it has: a packet is copied only
/// where it decodes.
pub(crate) fn put_frame<M: Media, V: Vault>(
    alloc: Global,
    media: &M,
    recipe: Recipe,
    vault: &mut V,
    writer: &mut MkvWriter,
) -> Result<(), Stop>
    requires begun { IsSome (V.seen vault.old).begun }
    requires held { IsTrue V.tells → (V.seen vault.old).held ≡ put_of writer.old }
    requires frames { length writer.old.packets < max_frames }
    requires recipe { CanRender (M.library media.now) recipe }
    ensures put { PutsFrames V.tells (V.seen vault.new).held (one_frame (M.library media.now) recipe writer.old) writer.new
        (placed result (length writer.old.packets)) }
    ensures kept { KeepsBegun V.tells (V.seen vault.old) (V.seen vault.new) }
    ensures cause { PutsHasCause (V.seen vault.old).faults (V.seen vault.new).faults (placed result (length writer.old.packets)) }
{
    media.lawful();
    let frame = match media.render(alloc, recipe)? {
        Picked::Frame(frame) => frame,
        Picked::Fault(fault) => return Err(Stop::Fault(fault)),
    };
    if let Some(packet) = own_packet(media, recipe) {
        drop(frame);
        writer.frame(vault, packet)?;
        return Ok(());
    }
    let packet = media.encode(alloc, &frame)?;
    drop(frame);
    writer.frame(vault, &packet)?;
    Ok(())
}
