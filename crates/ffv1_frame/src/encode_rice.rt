//! Encoding to slices in Golomb-Rice mode. RFC 9043 sections 4.5 to 4.9.
ghost use Rattle.std.specs.Prelude.{◌≡◌, List, ℕ, ◌*◌, ◌^◌, ◌<◌, ◌≤◌, IfOk};
ghost use Rattle.ffv1_record.specs.Parameters.{tables_of, context_count_of};
ghost use Rattle.ffv1_record.specs.Suits.{Suits};
ghost use Rattle.ffv1_rice.specs.Bits.{bits_of_bytes, padded};
ghost use Rattle.ffv1_golomb.specs.Writing.{packed};
ghost use Rattle.ffv1_frame.specs.Written.{Writes, IsRiceContent, cell_slice, header_written, items_of};

use crate::encode::{cell_header, header_written, put_slice};
use crate::frame::grid_of;
use crate::samples::{first_contexts, quantization, tables_of};
use ffv1_golomb::{RiceScratch, encode_rice_slice, packs_bits};
use ffv1_record::{Record, Tables};
use ffv1_rice::BitWriter;
use pic_planes::Picture;
use std::alloc::{AllocError, Global};
use tl_limits::MAX_SLICE_BYTES;

/// The packet, or none where a slice is too long.
pub(crate) fn rice_packet(
    alloc: Global,
    record: &Record,
    picture: &Picture,
) -> Result<Option<Vec<u8>>, AllocError>
    requires coder { record.now.coder_type ≡ 0 }
    requires suits { Suits record.now picture.now.shape }
    ensures { IfOk result (λ packet. Writes record.now picture.now (items_of packet)) }
{
    record.lawful();
    let width = picture.shape().width() as usize;
    let mut scratch = RiceScratch::start(alloc, first_contexts(record), width)?;
    let tables = tables_of(record, 0);
    let mut packet = Vec::new(alloc);
    for cell in 0..record.columns() * record.rows() {
        let content = rice_content(alloc, record, &tables, picture, cell, &mut scratch)?;
        if content.len() > MAX_SLICE_BYTES as usize {
            return Ok(None);
        }
        put_slice(&mut packet, content.as_slice(), record.ec())?;
    }
    Ok(Some(packet))
}

// The content of the slice of a cell. The tables are those of the first set.
fn rice_content(
    alloc: Global,
    record: &Record,
    tables: &Tables,
    picture: &Picture,
    cell: u32,
    scratch: &mut RiceScratch,
) -> Result<Vec<u8>, AllocError>
    requires suits { Suits record.now picture.now.shape }
    requires tables { tables.now ≡ tables_of record.now 0 }
    requires cell { cell < record.now.columns * record.now.rows }
    requires width { picture.now.shape.width ≤ scratch.old.width }
    requires contexts { scratch.old.contexts ≡ context_count_of record.now 0 }
    requires few { scratch.old.contexts ≤ 2 ^ 16 }
    ensures content { IfOk result (λ content. IsRiceContent (cell_slice record.now picture.now.shape cell) picture.now
        (header_written record.now cell) content.items) }
    ensures room { scratch.new ≡ scratch.old }
{
    record.lawful();
    let header = cell_header(record, picture, cell);
    let areas = header.areas(grid_of(record), picture.shape());
    let all = quantization(record, 0, tables);
    let writer = header_written(alloc, record.transition(), header, cell == 0)?;
    let mut content = writer.finish(true)?;
    let mut bits = BitWriter::start(alloc);
    encode_rice_slice(&mut bits, all, all, areas, scratch, picture)?;
    content.extend_from_slice(packed(bits).as_slice())?;
    Ok(content)
}

// The bytes of bits, with zeros that fill the last one.
fn packed(bits: BitWriter) -> Vec<u8>
    ensures { result.items ≡ packed bits }
{
    let bytes = bits.finish();
    spells_packed(bytes.as_slice());
    bytes
}

// Tells, in a proof, that bytes which spell bits are the bytes of these bits. It does nothing.
fn spells_packed(bytes: &[u8])
    ensures { (bits : List ℕ) → bits_of_bytes bytes.now ≡ padded bits → bytes.now ≡ packed bits }
{
    packs_bits();
}
