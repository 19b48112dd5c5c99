//! The clips that were loaded.
ghost use Rattle.std.specs.Prelude.{◌≡◌, ◌+◌, ◌≤◌, [], length};
ghost use Rattle.tl_limits.specs.Limits.{max_total_bytes};
ghost use Rattle.clip_store.specs.Clip.{file_of, IsClip};
ghost use Rattle.clip_store.specs.Loading.{has_name, total, Puts, Loads, AreClips};
ghost use Rattle.clip_store.specs.Readying.{IsFormat, Readies};

use crate::clip::Clip;
use crate::fault::LoadFault;
use crate::format::{Format, Output};
use crate::library::Library;
use std::alloc::{AllocError, Global};
use std::marker::Model;
use tl_limits::MAX_TOTAL_BYTES;

/// Clips, each under a name of its own, numbered from 0. Their files have at most 2 to the power 32 bytes together.
#[derive(Drop)]
pub struct Shelf {
    clips: Vec<Clip>,
    total: u64,
}

// Clauses see the list of clips.
impl Model for Shelf {
    ghost use Rattle.std.specs.Prelude.{◌≡◌, List};
    ghost use Rattle.clip_store.specs.Clip.{ClipOf};
    ghost use Rattle.clip_store.specs.Loading as loading;

    ghost Value = { List ClipOf };

    ghost view = { λ s. s.clips.items };

    ghost invariant = { λ s. loading.AreClips s.clips.items × (s.total ≡ loading.total s.clips.items) };
}

impl Shelf {
    /// A shelf without a clip.
    pub fn start(alloc: Global) -> Shelf
        ensures { result ≡ [] }
    {
        Shelf {
            clips: Vec::new(alloc),
            total: 0,
        }
    }

    /// Loads a file: its clip's number, which is the number of clips before. After a refusal the shelf is as before, and the bytes
    /// are dropped.
    ///
    /// `SameName` comes where a clip of that name is loaded, `Total` where all files together would have over 2 to the power 32 bytes,
    /// `Clip` and `Record` with the first fault of the file and of its record, and `Slices` where the record doesn't suit pictures of
    /// the clip's size: the first of them in this order.
    #[tactic(auto, using(crate::proofs::Gaining::loads_put))]
    pub fn load(
        &mut self,
        alloc: Global,
        name: &str,
        start: u32,
        bytes: Vec<u8>,
    ) -> Result<u32, LoadFault>
        ensures { Loads self.old (file_of name.now start bytes.items) result self.new }
    {
        if has_name(self.clips.as_slice(), name) {
            return Err(LoadFault::SameName);
        }
        if bytes.len() as u64 > MAX_TOTAL_BYTES - self.total {
            return Err(LoadFault::Total);
        }
        let clip = Clip::of_file(alloc, name, start, bytes)?;
        self.put(clip)
    }

    /// The library of the clips in their order, with the output of a format: `As` asks for the number of a loaded clip, and `Own` for a
    /// grid of at most 1,024 slices that isn't larger than the shape, and whose slices reach the ends of the planes. Where memory is
    /// wanting the shelf comes back.
    pub fn ready(self, alloc: Global, format: Format) -> Result<Library, (Shelf, AllocError)>
        requires { IsFormat self format }
        ensures { Readies self format result }
    {
        match Output::of_format(alloc, self.clips.as_slice(), format) {
            Ok(output) => {
                let Shelf { clips, total: _ } = self;
                Ok(Library { clips, output })
            }
            Err(error) => Err((self, error)),
        }
    }

    // Puts a clip behind the others: its number.
    fn put(&mut self, clip: Clip) -> Result<u32, LoadFault>
        requires clip { IsClip clip }
        requires room { total self.old + length clip.bytes ≤ max_total_bytes }
        ensures { Puts self.old clip result self.new }
    {
        let number = self.clips.len() as u32;
        let len = clip.bytes.len() as u64;
        self.clips.push(clip)?;
        self.total += len;
        Ok(number)
    }
}

fn has_name(clips: &[Clip], name: &str) -> bool
    ensures { result ≡ has_name clips.now name.now }
{
    clips.iter().any(|clip| clip.name.as_str() == name)
}
