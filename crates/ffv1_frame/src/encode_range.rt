//! Encoding to slices that are coded by the range coder. RFC 9043 sections 4.5 to 4.9.
ghost use Rattle.std.specs.Prelude.{◌≡◌, ◌≢◌, ℕ, ◌*◌, ◌<◌, ◌≤◌, IfOk};
ghost use Rattle.ffv1_record.specs.Parameters.{tables_of, context_count_of};
ghost use Rattle.ffv1_record.specs.Suits.{Suits};
ghost use Rattle.ffv1_frame.specs.Written.{Writes, IsRangeContent, cell_slice, header_written, items_of};

use crate::encode::{cell_header, header_written, put_slice};
use crate::frame::grid_of;
use crate::samples::{first_contexts, quantization, tables_of};
use ffv1_record::{Record, Tables};
use ffv1_slice::{Scratch, encode_slice};
use pic_planes::Picture;
use std::alloc::{AllocError, Global};
use tl_limits::MAX_SLICE_BYTES;

/// The packet, or none where a slice is too long.
pub(crate) fn range_packet(
    alloc: Global,
    record: &Record,
    picture: &Picture,
) -> Result<Option<Vec<u8>>, AllocError>
    requires coder { record.now.coder_type ≢ 0 }
    requires suits { Suits record.now picture.now.shape }
    ensures { IfOk result (λ packet. Writes record.now picture.now (items_of packet)) }
{
    record.lawful();
    let width = picture.shape().width() as usize;
    let mut scratch = Scratch::start(alloc, first_contexts(record), width)?;
    let tables = tables_of(record, 0);
    let mut packet = Vec::new(alloc);
    for cell in 0..record.columns() * record.rows() {
        let content = range_content(alloc, record, &tables, picture, cell, &mut scratch)?;
        if content.len() > MAX_SLICE_BYTES as usize {
            return Ok(None);
        }
        put_slice(&mut packet, content.as_slice(), record.ec())?;
    }
    Ok(Some(packet))
}

// The content of the slice of a cell. The tables are those of the first set.
fn range_content(
    alloc: Global,
    record: &Record,
    tables: &Tables,
    picture: &Picture,
    cell: u32,
    scratch: &mut Scratch,
) -> Result<Vec<u8>, AllocError>
    requires suits { Suits record.now picture.now.shape }
    requires tables { tables.now ≡ tables_of record.now 0 }
    requires cell { cell < record.now.columns * record.now.rows }
    requires width { picture.now.shape.width ≤ scratch.old.width }
    requires contexts { scratch.old.contexts ≡ context_count_of record.now 0 }
    ensures content { IfOk result (λ content. IsRangeContent (cell_slice record.now picture.now.shape cell) picture.now
        (header_written record.now cell) content.items) }
    ensures room { scratch.new ≡ scratch.old }
{
    record.lawful();
    let header = cell_header(record, picture, cell);
    let areas = header.areas(grid_of(record), picture.shape());
    let all = quantization(record, 0, tables);
    let mut writer = header_written(alloc, record.transition(), header, cell == 0)?;
    encode_slice(&mut writer, all, all, areas, scratch, picture)?;
    let content = writer.finish(true)?;
    Ok(content)
}
