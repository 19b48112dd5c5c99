//! The samples of a slice, read by the range coder. RFC 9043 sections 4.7 and 4.8.
ghost use Rattle.std.specs.Prelude.{◌≡◌, ◌+◌, ◌<◌, ◌≤◌, ◌^◌, [], ◌∷◌, IfOk, OnErr, length, replicate};
ghost use Rattle.ffv1_range.specs.Transition.{AllKept};
ghost use Rattle.ffv1_slice.specs.Slice.{standing, slice_of, ReadsSlice, TooLongInSlice, Gives, IsReady, CanHold};

use crate::area::{Area, Areas};
use crate::fault::SliceFault;
use crate::range_part::decode_part;
use crate::scratch::Scratch;
use ffv1_range::{RangeReader, TooLong};
use pic_planes::Picture;

/// Five quantization tables, and how many contexts they give.
#[derive(Clone, Copy)]
pub struct Quantization<'a> {
    pub tables: &'a [[i16; 256]; 5],
    pub context_count: usize,
}

// Reads the samples of a slice into its areas of a picture.
fn decode_samples<'a>(
    reader: RangeReader<'a>,
    luma: Quantization<'_>,
    chroma: Quantization<'_>,
    areas: Areas,
    scratch: &mut Scratch,
    picture: &mut Picture,
) -> Result<RangeReader<'a>, TooLong>
    requires luma { IsReady luma scratch.old }
    requires chroma { IsReady chroma scratch.old }
    requires areas { CanHold picture.old.shape scratch.old areas }
    requires fresh { AllKept reader.table (replicate 32 128) }
    ensures ok { IfOk result (λ after. ReadsSlice (slice_of luma.entry chroma.entry areas)
        (standing reader.entry picture.old) (standing after picture.new)) }
    ensures too_long { OnErr result (TooLongInSlice (slice_of luma.entry chroma.entry areas) (standing reader.entry picture.old)) }
    ensures shape { picture.new.shape ≡ picture.old.shape }
    ensures room { scratch.new ≡ scratch.old }
{
    let first = [areas.luma];
    let between = decode_part(reader, luma, &first, scratch, picture)?;
    let cb = match areas.chroma {
        None => return Ok(between),
        Some(cb) => cb,
    };
    let others = [cb, Area { plane: 2, ..cb }];
    let after = decode_part(between, chroma, &others, scratch, picture)?;
    Ok(after)
}

/// Reads the samples of a slice into its areas of a picture, from a content of so many bytes, whose header was read.
pub fn decode_slice(
    reader: RangeReader,
    content: u64,
    luma: Quantization,
    chroma: Quantization,
    areas: Areas,
    scratch: &mut Scratch,
    picture: &mut Picture,
) -> Result<(), SliceFault>
    requires luma { IsReady luma scratch.old }
    requires chroma { IsReady chroma scratch.old }
    requires areas { CanHold picture.old.shape scratch.old areas }
    requires fresh { AllKept reader.table (replicate 32 128) }
    requires content { content < 2 ^ 60 }
    ensures gives { Gives (slice_of luma.entry chroma.entry areas) content (standing reader.entry picture.old) picture.new result }
    ensures shape { picture.new.shape ≡ picture.old.shape }
    ensures room { scratch.new ≡ scratch.old }
{
    let Ok(after) = decode_samples(reader, luma, chroma, areas, scratch, picture) else {
        return Err(SliceFault::Symbol);
    };
    if after.taken() > content + 2 {
        return Err(SliceFault::Overrun);
    }
    Ok(())
}
