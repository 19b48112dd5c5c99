//! The samples of one slice, by its header. RFC 9043 sections 4.7 and 4.8.
ghost use Rattle.std.specs.Prelude.{◌≡◌, ◌≢◌, ℕ, ◌<◌, ◌≤◌, ◌^◌, length, replicate, map, slice_index};
ghost use Rattle.ffv1_range.specs.Transition.{AllKept, IsKept};
ghost use Rattle.ffv1_record.specs.Parameters.{tables_of, context_count_of};
ghost use Rattle.ffv1_record.specs.Tables.{set_of};
ghost use Rattle.ffv1_slice.specs.Cells.{IsInGrid, areas_of};
ghost use Rattle.ffv1_slice.specs.Reading.{ContextsFit};
ghost use Rattle.ffv1_slice.specs.Room.{Room};
ghost use Rattle.ffv1_slice.specs.Slice as slices;
ghost use Rattle.ffv1_frame.specs.Frame.{grid_of, slice_by, SamplesGive, HasRoom};

use crate::frame::grid_of;
use ffv1_golomb::{RiceScratch, decode_rice_slice};
use ffv1_range::RangeReader;
use ffv1_record::{Record, TableSet, Tables};
use ffv1_slice::{Areas, Header, Quantization, Scratch, SliceFault, decode_slice};
use pic_planes::{Picture, Shape};

/// The entries of the tables of a set.
pub(crate) fn tables_of(record: &Record, set: u32) -> Tables
    requires { set < length record.now.sets }
    ensures { result ≡ tables_of record.now set }
{
    let mut tables = Tables::zero();
    record.fill(set as usize, &mut tables);
    tables
}

// How many contexts the tables of a set give.
fn context_count(record: &Record, set: u32) -> usize
    requires { set < length record.now.sets }
    ensures { result ≡ context_count_of record.now set }
{
    record.table_sets()[set as usize].context_count() as usize
}

/// How many contexts the tables of the first set give.
pub(crate) fn first_contexts(record: &Record) -> usize
    ensures count { result ≡ context_count_of record.now 0 }
    ensures few { result ≤ 2 ^ 16 }
{
    record.lawful();
    context_count(record, 0)
}

/// The most contexts that the tables of a set give.
pub(crate) fn most_contexts(record: &Record) -> usize
    ensures { (set : ℕ) → set < length record.now.sets → context_count_of record.now set ≤ result }
{
    most_of(record.table_sets())
}

fn most_of(sets: &[TableSet]) -> usize
    ensures { (set : ℕ) → set < length sets.now → slice_index (map (λ s. s.context_count) (map set_of sets.now)) set ≤ result }
{
    let mut most = 0;
    for set in sets {
        most = larger(set.context_count(), most);
    }
    most as usize
}

fn larger(a: u32, b: u32) -> u32
    ensures first { a ≤ result }
    ensures second { b ≤ result }
{
    if a < b { b } else { a }
}

/// The tables of a set, to code by.
pub(crate) fn quantization<'a>(record: &Record, set: u32, tables: &'a Tables) -> Quantization<'a>
    requires set { set < length record.now.sets }
    requires tables { tables.now ≡ tables_of record.now set }
    ensures tables { result.tables.now ≡ tables_of record.now set }
    ensures count { result.context_count ≡ context_count_of record.now set }
    ensures fits { ContextsFit result.tables.now result.context_count }
{
    record.lawful();
    Quantization {
        tables: tables.arrays(),
        context_count: context_count(record, set),
    }
}

// The tables of a slice's header, to code by, and the areas of its cells.
fn parts<'a>(
    record: &Record,
    header: Header,
    shape: Shape,
    luma: &'a Tables,
    chroma: &'a Tables,
) -> (Quantization<'a>, Quantization<'a>, Areas)
    requires grid { IsInGrid (grid_of record.now) shape header }
    requires luma { header.luma_set < length record.now.sets }
    requires chroma { header.chroma_set < length record.now.sets }
    requires luma_tables { luma.now ≡ tables_of record.now header.luma_set }
    requires chroma_tables { chroma.now ≡ tables_of record.now header.chroma_set }
    ensures slice { slices.slice_of result.0 result.1 result.2
        ≡ slice_by record.now header (areas_of (grid_of record.now) shape header) }
    ensures luma { (room : Room) → HasRoom record.now shape room → slices.IsReady result.0 room }
    ensures chroma { (room : Room) → HasRoom record.now shape room → slices.IsReady result.1 room }
    ensures areas { (room : Room) → HasRoom record.now shape room → slices.CanHold shape room result.2 }
{
    let luma = quantization(record, header.luma_set, luma);
    let chroma = quantization(record, header.chroma_set, chroma);
    let areas = header.areas(grid_of(record), shape);
    (luma, chroma, areas)
}

/// Reads the samples of a slice into a picture by the range coder, behind its header.
pub(crate) fn decode_range_samples(
    record: &Record,
    header: Header,
    reader: RangeReader,
    content: &[u8],
    shape: Shape,
    scratch: &mut Scratch,
    picture: &mut Picture,
) -> Result<(), SliceFault>
    requires range_coded { record.now.coder_type ≢ 0 }
    requires grid { IsInGrid (grid_of record.now) shape header }
    requires luma { header.luma_set < length record.now.sets }
    requires chroma { header.chroma_set < length record.now.sets }
    requires shape { picture.old.shape ≡ shape }
    requires room { HasRoom record.now shape scratch.old }
    requires fresh { AllKept reader.table (replicate 32 128) }
    requires content { length content.now < 2 ^ 60 }
    ensures gives { SamplesGive record.now.coder_type (slice_by record.now header (areas_of (grid_of record.now) shape header)) content.now
        (slices.standing reader.entry picture.old) picture.new result }
    ensures shape { picture.new.shape ≡ picture.old.shape }
    ensures room { scratch.new ≡ scratch.old }
{
    let luma_tables = tables_of(record, header.luma_set);
    let chroma_tables = tables_of(record, header.chroma_set);
    let (luma, chroma, areas) = parts(record, header, shape, &luma_tables, &chroma_tables);
    let bytes = content.len() as u64;
    decode_slice(reader, bytes, luma, chroma, areas, scratch, picture)
}

/// Reads the samples of a slice into a picture in Golomb-Rice mode, behind its header.
pub(crate) fn decode_rice_samples(
    record: &Record,
    header: Header,
    reader: RangeReader,
    content: &[u8],
    shape: Shape,
    scratch: &mut RiceScratch,
    picture: &mut Picture,
) -> Result<(), SliceFault>
    requires rice_coded { record.now.coder_type ≡ 0 }
    requires grid { IsInGrid (grid_of record.now) shape header }
    requires luma { header.luma_set < length record.now.sets }
    requires chroma { header.chroma_set < length record.now.sets }
    requires shape { picture.old.shape ≡ shape }
    requires room { HasRoom record.now shape scratch.old }
    requires kept { IsKept reader.table 129 }
    requires content { length content.now < 2 ^ 60 }
    ensures gives { SamplesGive record.now.coder_type (slice_by record.now header (areas_of (grid_of record.now) shape header)) content.now
        (slices.standing reader.entry picture.old) picture.new result }
    ensures shape { picture.new.shape ≡ picture.old.shape }
    ensures room { scratch.new ≡ scratch.old }
{
    let luma_tables = tables_of(record, header.luma_set);
    let chroma_tables = tables_of(record, header.chroma_set);
    let (luma, chroma, areas) = parts(record, header, shape, &luma_tables, &chroma_tables);
    decode_rice_slice(reader, content, luma, chroma, areas, scratch, picture)
}
