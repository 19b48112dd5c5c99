//! Passes over recorded bits. One is the number of its state, of 16,384, and the bit below that.
ghost use Rattle.std.specs.Prelude.{◌≡◌, ◌<◌, ◌≤◌, ℕ, length, slice_index};
ghost use Rattle.ffv1_range.specs.Transition.{IsKept};

use ffv1_range::{RangeReader, RangeWriter, Transition};
use std::alloc::{AllocError, Global};

const STATES: usize = 16_384;

/// Reads the recorded bits, each with its state, and counts those that are read as another bit.
#[unsafe(no_mangle)]
pub extern "C" fn codec_c_read_bits(bytes: &[u8], recorded: &[u16]) -> u64 {
    let table = Transition::default_table();
    let mut reader = RangeReader::over(bytes, &table);
    let mut states = fresh();
    let mut wrong = 0u64;
    for coded in recorded {
        let bit = read_at(&mut reader, &mut states, place_of(*coded));
        wrong = wrong.wrapping_add(u64::from(bit != bit_of(*coded)));
    }
    wrong
}

/// Writes the recorded bits, each with its state, with no closing bit, to the front of `out`. The number of bytes, or 0 where
/// memory or room is wanting.
#[unsafe(no_mangle)]
pub extern "C" fn codec_c_write_bits(alloc: Global, recorded: &[u16], out: &mut [u8]) -> usize {
    match written(alloc, recorded) {
        Ok(bytes) => put(bytes.as_slice(), out),
        Err(_) => 0,
    }
}

fn written(alloc: Global, recorded: &[u16]) -> Result<Vec<u8>, AllocError> {
    let table = Transition::default_table();
    let mut writer = RangeWriter::start(alloc, &table);
    let mut states = fresh();
    for coded in recorded {
        write_at(&mut writer, &mut states, place_of(*coded), bit_of(*coded))?;
    }
    writer.finish(false)
}

/// Puts bytes to the front of `out`. Their number, or 0 where they don't fit.
pub(crate) fn put(bytes: &[u8], out: &mut [u8]) -> usize {
    if bytes.len() > out.len() {
        return 0;
    }
    out[..bytes.len()].copy_from_slice(bytes);
    bytes.len()
}

fn fresh() -> [u8; STATES]
    ensures { (k : ℕ) → k < STATES → slice_index result k ≡ 128 }
{
    [128; STATES]
}

#[inline(always)]
fn place_of(coded: u16) -> usize
    ensures { result < STATES }
{
    (coded / 2 % 16_384) as usize
}

#[inline(always)]
fn bit_of(coded: u16) -> bool {
    coded % 2 == 1
}

#[inline(always)]
fn read_at(reader: &mut RangeReader, states: &mut [u8; STATES], place: usize) -> bool
    requires place { place < STATES }
    requires kept { (k : ℕ) → k < STATES → IsKept reader.old.table (slice_index states.old k) }
    ensures kept { (k : ℕ) → k < STATES → IsKept reader.new.table (slice_index states.new k) }
{
    let mut state = states[place];
    let bit = reader.bit(&mut state);
    states[place] = state;
    bit
}

#[inline(always)]
fn write_at(
    writer: &mut RangeWriter,
    states: &mut [u8; STATES],
    place: usize,
    bit: bool,
) -> Result<(), AllocError>
    requires place { place < STATES }
    requires kept { (k : ℕ) → k < STATES → IsKept writer.old.table (slice_index states.old k) }
    ensures kept { (k : ℕ) → k < STATES → IsKept writer.new.table (slice_index states.new k) }
{
    let mut state = states[place];
    writer.bit(&mut state, bit)?;
    states[place] = state;
    Ok(())
}
