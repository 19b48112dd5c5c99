//! The file of the clip.
ghost use Rattle.std.specs.Prelude.{◌≡◌, [], IsTrue, Some, IfOk, codes};
ghost use Rattle.work_gen.specs.Picture.{clip_shape};
ghost use Rattle.work_gen.specs.Clip.{clip_record, IsClip};
ghost use Rattle.work_gen.specs.Answer.{IsCount};

use crate::frames::write_clip;
use ffv1_record::{Coder, Record, default_record};
use pic_planes::{Chroma, Shape};
use std::alloc::{AllocError, Global};
use tl_ports::{CleanVault, Vault};

/// The file of the clip of so many frames.
pub(crate) fn clip_file(alloc: Global, frames: u32) -> Result<Vec<u8>, AllocError>
    requires { IsCount frames }
    ensures { IfOk result (λ bytes. IsClip frames bytes.items) }
{
    let coding = coding(alloc)?;
    let mut vault = CleanVault::start(alloc);
    match vault.begin(name()) {
        Ok(()) => begun_file(alloc, &coding, frames, &mut vault),
        Err(_) => Err(AllocError),
    }
}

// Writes the begun file, which is empty, and gives its bytes.
fn begun_file(
    alloc: Global,
    coding: &Record,
    frames: u32,
    vault: &mut CleanVault,
) -> Result<Vec<u8>, AllocError>
    requires coding { coding.now ≡ clip_record }
    requires frames { IsCount frames }
    requires begun { (⟦<CleanVault as Vault>⟧.seen vault.old).begun ≡ Some (codes "g.mkv") }
    requires file { (⟦<CleanVault as Vault>⟧.seen vault.old).file (codes "g.mkv") ≡ Some [] }
    ensures { IfOk result (λ bytes. IsClip frames bytes.items) }
{
    holds(vault, name());
    write_clip(alloc, coding, frames, vault)?;
    holds(vault, name());
    let bytes = vault.file(name()).unwrap();
    let copy = Vec::from_slice(alloc, bytes)?;
    Ok(copy)
}

// Tells, in a proof, that the bytes of a begun file are those of the file of its name. It does nothing.
fn holds<V: Vault>(vault: &V, name: &str)
    requires { (V.seen vault.now).begun ≡ Some name.now }
    ensures { IsTrue V.tells → (V.seen vault.now).file name.now ≡ Some (V.seen vault.now).held }
{}

// The name of the clip's file.
fn name() -> &'static str
    ensures { result.now ≡ codes "g.mkv" }
{
    "g.mkv"
}

// The record by which the pictures are coded.
fn coding(alloc: Global) -> Result<Record, AllocError>
    ensures { IfOk result (λ coding. coding ≡ clip_record) }
{
    default_record(alloc, clip_shape(), Coder::Range, 2, 2)
}

/// The shape of the pictures.
pub(crate) fn clip_shape() -> Shape
    ensures { result ≡ clip_shape }
{
    Shape::of(64, 48, Chroma::Shifts { h: 1, v: 1 }).unwrap()
}
