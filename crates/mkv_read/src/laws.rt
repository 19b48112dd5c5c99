//! What holds of the clips of files, whatever the bytes are.

ghost use Rattle.std.specs.Prelude.{◌≡◌, ℕ, ◌+◌, List, Option, Ok};
ghost use Rattle.ebml_core.specs.Listing.{Listing};
ghost use Rattle.mkv_elements.specs.declared.table.TheConstants.{FILE};
ghost use Rattle.mkv_read.specs.declared.clip.ClipIndex.{ClipIndex};
ghost use Rattle.mkv_read.specs.Elements.{ListsFrom, elements};
ghost use Rattle.mkv_read.specs.Faults.{fault_in};
ghost use Rattle.mkv_read.specs.Blocks.{blocks_in};
ghost use Rattle.mkv_read.specs.Limits.{depth};
ghost use Rattle.mkv_read.specs.Plain.{IsPlainFile};
ghost use Rattle.mkv_read.specs.Clip.{clip_of};

/// The elements from one place of a file up to another are what the bytes between them list, which is one thing.
pub fn elements_are_listed()
    ensures listed { (bytes : List ℕ) (from to : ℕ) → ListsFrom bytes from to (elements bytes from to) }
    ensures only { (bytes : List ℕ) (from to : ℕ) (listing : Listing) → ListsFrom bytes from to listing
        → listing ≡ elements bytes from to }
{}

/// A file is plain with one clip at most.
pub fn one_clip()
    ensures { (bytes : List ℕ) (a b : ClipIndex) → IsPlainFile bytes a → IsPlainFile bytes b → a ≡ b }
{}

/// The clip of a plain file is its clip as a whole Matroska file.
pub fn plain_is_whole()
    ensures { (bytes : List ℕ) (clip : ClipIndex) → IsPlainFile bytes clip → clip_of bytes ≡ Ok clip }
{}

/// The masters that are read stand in one another at most as deep as is read: more levels would tell no other fault, and no other block.
pub fn depth_is_enough()
    ensures fault { (more : ℕ) (bytes : List ℕ) (es : Listing)
        → fault_in (depth + more) bytes FILE es ≡ fault_in depth bytes FILE es }
    ensures blocks { (more : ℕ) (bytes : List ℕ) (track : Option ℕ) (time : ℕ) (es : Listing)
        → blocks_in (depth + more) bytes track FILE time es ≡ blocks_in depth bytes track FILE time es }
{}
