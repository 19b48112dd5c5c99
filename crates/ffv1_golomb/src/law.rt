//! The laws of Golomb-Rice slices, about their definitions alone.
ghost use Rattle.ffv1_golomb.specs.Law.{PacksBits, ReadsSlices, ReadsPacked, FindsBits};

/// The bytes that a writer of bits gives are those of the definition.
pub fn packs_bits()
    ensures { PacksBits }
{}

/// A slice that was written is read back, into any picture.
pub fn reads_slices()
    ensures spelled { ReadsSlices }
    ensures packed { ReadsPacked }
{}

/// Behind the part of the range coder the samples' bytes are found.
pub fn finds_bits()
    ensures { FindsBits }
{}
