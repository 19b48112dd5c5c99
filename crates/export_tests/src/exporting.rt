//! Timelines of a few cuts, exported to a vault in memory.

ghost use Rattle.std.specs.Prelude.{◌≡◌, ◌≤◌, length};
ghost use Rattle.tl_model.specs.Sound.{IsSound};

use smart_export::export;
use std::alloc::Global;
use std::test::Fail;
use time_list::{Lane, ListLane, keeps_sound};
use tl_model::{Edit, Ending, Media, Side};
use tl_ports::{MemVault, Vault};

/// Frames from a side on, and how many of them are dissolved into.
#[derive(Clone, Copy)]
pub(crate) struct Cut(pub Side, pub u32, pub u32);

/// Frames of the first clip.
pub(crate) const fn frames(frame: u32, len: u32) -> Cut {
    Cut(Side::Clip { clip: 0, frame }, len, 0)
}

/// Makes an edit.
fn make<M: Media>(alloc: Global, media: &M, lane: &mut ListLane, edit: &Edit) -> Result<(), Fail>
    requires { IsSound (M.library media.now) lane.old }
    ensures { IsSound (M.library media.now) lane.new }
{
    if !edit.is_well_formed() {
        return Err("the edit isn't well formed")?;
    }
    keeps_sound(media, edit);
    lane.apply(alloc, media, edit)?;
    Ok(())
}

/// Puts a cut behind the others.
fn put_cut<M: Media>(alloc: Global, media: &M, lane: &mut ListLane, cut: Cut) -> Result<(), Fail>
    requires { IsSound (M.library media.now) lane.old }
    ensures { IsSound (M.library media.now) lane.new }
{
    let Cut(take, len, mix) = cut;
    let at = lane.frames();
    make(alloc, media, lane, &Edit::Insert { at, take, len })?;
    if mix > 0 {
        make(alloc, media, lane, &Edit::Dissolve { at, len: mix })?;
    }
    Ok(())
}

/// Exports some cuts at 25 frames a second to a vault of which the call of a number fails. Answers how that ended, and what was written.
pub(crate) fn exported<M: Media>(
    alloc: Global,
    media: &M,
    cuts: &[Cut],
    fail: u64,
) -> Result<(Ending, Vec<u8>), Fail> {
    let mut lane = ListLane::blank(alloc);
    for cut in cuts {
        put_cut(alloc, media, &mut lane, *cut)?;
    }
    if lane.frames() == 0 {
        return Err("the timeline has no frames")?;
    }
    let state = lane.snapshot(alloc)?;
    let mut vault = MemVault::start(alloc, vec![in alloc; fail]?);
    vault.begin("o")?;
    let ending = export(alloc, &state, media, &mut vault, 25);
    let file = vault.file("o").ok_or("the vault has the file")?;
    Ok((ending, Vec::from_slice(alloc, file)?))
}
