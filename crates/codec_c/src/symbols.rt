//! Passes over recorded symbols: signed values, each with the number of its set, of 512.
ghost use Rattle.std.specs.Prelude.{◌≡◌, ◌<◌, ◌≤◌, ℕ, All, length, replicate, IfOk};
ghost use Rattle.ffv1_range.specs.Transition.{AllKept};

use crate::bits::put;
use ffv1_range::{RangeReader, RangeWriter, States, Transition};
use std::alloc::{AllocError, Global};

const SETS: usize = 512;

/// A signed value, and the set that its symbol is coded with.
#[repr(C)]
#[derive(Clone, Copy)]
pub struct Recorded {
    pub value: i16,
    pub set: u16,
}

/// Reads the recorded symbols, each with its set, and counts those that are read as another value. Where memory is wanting it
/// counts them all.
#[unsafe(no_mangle)]
pub extern "C" fn codec_c_read_symbols(alloc: Global, bytes: &[u8], recorded: &[Recorded]) -> u64 {
    match fresh(alloc) {
        Ok(mut sets) => read(bytes, recorded, sets.as_mut_slice()),
        Err(_) => recorded.len() as u64,
    }
}

fn read(bytes: &[u8], recorded: &[Recorded], sets: &mut [States]) -> u64
    requires len { length sets.old ≡ SETS }
    requires fresh { All (λ states. states ≡ replicate 32 128) sets.old }
{
    let table = Transition::default_table();
    let mut reader = RangeReader::over(bytes, &table);
    let mut wrong = 0u64;
    for coded in recorded {
        let value = read_with(&mut reader, sets, set_of(*coded));
        wrong = wrong.wrapping_add(u64::from(value != Some(i64::from(coded.value))));
    }
    wrong
}

/// Writes the recorded symbols, each with its set, with no closing bit, to the front of `out`. The number of bytes, or 0 where
/// memory or room is wanting.
#[unsafe(no_mangle)]
pub extern "C" fn codec_c_write_symbols(
    alloc: Global,
    recorded: &[Recorded],
    out: &mut [u8],
) -> usize {
    match written(alloc, recorded) {
        Ok(bytes) => put(bytes.as_slice(), out),
        Err(_) => 0,
    }
}

fn written(alloc: Global, recorded: &[Recorded]) -> Result<Vec<u8>, AllocError> {
    let mut sets = fresh(alloc)?;
    written_with(alloc, recorded, sets.as_mut_slice())
}

fn written_with(
    alloc: Global,
    recorded: &[Recorded],
    sets: &mut [States],
) -> Result<Vec<u8>, AllocError>
    requires len { length sets.old ≡ SETS }
    requires fresh { All (λ states. states ≡ replicate 32 128) sets.old }
{
    let table = Transition::default_table();
    let mut writer = RangeWriter::start(alloc, &table);
    for coded in recorded {
        write_with(&mut writer, sets, set_of(*coded), coded.value)?;
    }
    writer.finish(false)
}

fn fresh(alloc: Global) -> Result<Vec<States>, AllocError>
    ensures len { IfOk result (λ sets. length sets.items ≡ SETS) }
    ensures each { IfOk result (λ sets. All (λ states. states ≡ replicate 32 128) sets.items) }
{
    Vec::from_elem(alloc, States::fresh(), SETS)
}

#[inline(always)]
fn set_of(coded: Recorded) -> usize
    ensures { result < SETS }
{
    (coded.set % 512) as usize
}

#[inline(always)]
fn read_with(reader: &mut RangeReader, sets: &mut [States], set: usize) -> Option<i64>
    requires set { set < length sets.old }
    requires kept { All (λ states. AllKept reader.old.table states) sets.old }
    ensures kept { All (λ states. AllKept reader.new.table states) sets.new }
    ensures len { length sets.new ≡ length sets.old }
{
    reader.symbol(&mut sets[set], true).ok()
}

#[inline(always)]
fn write_with(
    writer: &mut RangeWriter,
    sets: &mut [States],
    set: usize,
    value: i16,
) -> Result<(), AllocError>
    requires set { set < length sets.old }
    requires kept { All (λ states. AllKept writer.old.table states) sets.old }
    ensures kept { All (λ states. AllKept writer.new.table states) sets.new }
    ensures len { length sets.new ≡ length sets.old }
{
    writer.symbol(&mut sets[set], i64::from(value), true)?;
    Ok(())
}
