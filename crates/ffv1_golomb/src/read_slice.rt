//! The samples of a slice, read in Golomb-Rice mode. RFC 9043 sections 3.8.2, 4.7 and 4.8.
ghost use Rattle.std.specs.Prelude.{◌≡◌, ◌+◌, ◌-◌, ◌*◌, ◌<◌, ◌≤◌, ◌^◌, [], ◌∷◌, IfOk, OnErr, length, drop};
ghost use Rattle.ffv1_range.specs.Transition.{IsKept};
ghost use Rattle.ffv1_rice.specs.Bits.{opened};
ghost use Rattle.ffv1_slice.specs.Slice.{slice_of, IsReady, CanHold};
ghost use Rattle.ffv1_golomb.specs.Slice.{standing, sample_bytes, ReadsSlice, OutOfRangeInSlice, Gives};

use crate::read_part::decode_part;
use crate::scratch::RiceScratch;
use ffv1_range::RangeReader;
use ffv1_rice::{BitReader, OutOfRange};
use ffv1_slice::{Area, Areas, Quantization, SliceFault};
use pic_planes::Picture;

/// Reads the samples of a slice into its areas of a picture, from a content whose header was read: `reader` stands behind the
/// header, and the bits of the samples stand where it is after one more bit. `Symbol` comes exactly at the first residual that is out
/// of range, and else `Overrun` where the samples take more bits than the content has. RFC 9043 section 3.8.1.1.1.
pub fn decode_rice_slice(
    reader: RangeReader,
    content: &[u8],
    luma: Quantization,
    chroma: Quantization,
    areas: Areas,
    scratch: &mut RiceScratch,
    picture: &mut Picture,
) -> Result<(), SliceFault>
    requires luma { IsReady luma scratch.old }
    requires chroma { IsReady chroma scratch.old }
    requires areas { CanHold picture.old.shape scratch.old areas }
    requires kept { IsKept reader.table 129 }
    requires content { length content.now < 2 ^ 60 }
    ensures gives { Gives (slice_of luma.entry chroma.entry areas) (sample_bytes content.now reader.entry) picture.old picture.new result }
    ensures shape { picture.new.shape ≡ picture.old.shape }
    ensures room { scratch.new ≡ scratch.old }
{
    decode_bytes(
        samples_behind(reader, content),
        luma,
        chroma,
        areas,
        scratch,
        picture,
    )
}

// The bytes of a content in which the samples stand.
fn samples_behind<'a>(mut reader: RangeReader<'_>, content: &'a [u8]) -> &'a [u8]
    requires { IsKept reader.table 129 }
    ensures bytes { result.now ≡ sample_bytes content.now reader.entry }
    ensures few { length result.now ≤ length content.now }
{
    let mut state = 129;
    let _sentinel = reader.bit(&mut state);
    let from = reader.taken().saturating_sub(1).min(content.len() as u64) as usize;
    &content[from..]
}

// Reads the samples of a slice from the bytes in which they stand.
fn decode_bytes(
    bytes: &[u8],
    luma: Quantization,
    chroma: Quantization,
    areas: Areas,
    scratch: &mut RiceScratch,
    picture: &mut Picture,
) -> Result<(), SliceFault>
    requires luma { IsReady luma scratch.old }
    requires chroma { IsReady chroma scratch.old }
    requires areas { CanHold picture.old.shape scratch.old areas }
    requires bytes { length bytes.now < 2 ^ 60 }
    ensures gives { Gives (slice_of luma.entry chroma.entry areas) bytes.now picture.old picture.new result }
    ensures shape { picture.new.shape ≡ picture.old.shape }
    ensures room { scratch.new ≡ scratch.old }
{
    let bits = BitReader::over(bytes);
    let Ok(after) = decode_samples(bits, luma, chroma, areas, scratch, picture) else {
        return Err(SliceFault::Symbol);
    };
    if after.taken() > 8 * bytes.len() as u64 {
        return Err(SliceFault::Overrun);
    }
    Ok(())
}

// Reads the samples of a slice into its areas of a picture.
fn decode_samples<'a>(
    bits: BitReader<'a>,
    luma: Quantization<'_>,
    chroma: Quantization<'_>,
    areas: Areas,
    scratch: &mut RiceScratch,
    picture: &mut Picture,
) -> Result<BitReader<'a>, OutOfRange>
    requires luma { IsReady luma scratch.old }
    requires chroma { IsReady chroma scratch.old }
    requires areas { CanHold picture.old.shape scratch.old areas }
    ensures ok { IfOk result (λ after. ReadsSlice (slice_of luma.entry chroma.entry areas)
        (standing bits.entry picture.old) (standing after picture.new)) }
    ensures out_of_range { OnErr result (OutOfRangeInSlice (slice_of luma.entry chroma.entry areas) (standing bits.entry picture.old)) }
    ensures shape { picture.new.shape ≡ picture.old.shape }
    ensures room { scratch.new ≡ scratch.old }
{
    let first = [areas.luma];
    let between = decode_part(bits, luma, &first, scratch, picture)?;
    let cb = match areas.chroma {
        None => return Ok(between),
        Some(cb) => cb,
    };
    let others = [cb, Area { plane: 2, ..cb }];
    let after = decode_part(between, chroma, &others, scratch, picture)?;
    Ok(after)
}
