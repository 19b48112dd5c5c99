//! Encoding a picture to its packet. RFC 9043 sections 4.4 to 4.9.
ghost use Rattle.std.specs.Prelude.{◌≡◌, ◌≢◌, ℕ, ◌+◌, ◌*◌, ◌/◌, ◌%◌, ◌^◌, ◌<◌, ◌≤◌, ◌++◌, IfOk, OnOk, Ok, if◌then◌else◌, ◌==◌, drop, length, replicate, vec_len};
ghost use Rattle.byteorder.specs.Endian.{big_bytes};
ghost use Rattle.tl_limits.specs.Limits.{max_slice_bytes, max_packet_bytes};
ghost use Rattle.tl_base.specs.Parity.{parity};
ghost use Rattle.ffv1_range.specs.Transition.{AllKept};
ghost use Rattle.ffv1_record.specs.Parameters.{tables_of, context_count_of};
ghost use Rattle.ffv1_record.specs.Suits.{Suits};
ghost use Rattle.ffv1_slice.specs.Cells.{IsInGrid};
ghost use Rattle.ffv1_slice.specs.Header.{with_header};
ghost use Rattle.ffv1_frame.specs.Frame.{Gives, grid_of};
ghost use Rattle.ffv1_frame.specs.Packet.{bytes_of};
ghost use Rattle.ffv1_frame.specs.Written.{Encodes, Writes, WritesContent, cell_header, content_start, slice_of, items_of};

use crate::encode_range::range_packet;
use crate::encode_rice::rice_packet;
use crate::written::written_is_read_back;
use ffv1_range::{RangeWriter, Transition};
use ffv1_record::{Coder, Record};
use ffv1_slice::{Header, write_header};
use pic_planes::Picture;
use std::alloc::{AllocError, Global};
use tl_base::{parity, put_big_u24, put_big_u32};
use tl_model::EncodeFault;

/// Encodes a picture that suits the record to a packet: a key frame with one slice for each cell of the grid, row by row.
/// `SliceTooLong` comes exactly where a slice's content has more than 2 to the power 24 bytes less 1. The packet decodes to the
/// picture. RFC 9043 sections 4.4 to 4.9.
pub fn encode_frame(
    alloc: Global,
    record: &Record,
    picture: &Picture,
) -> Result<Vec<u8>, EncodeFault>
    requires { Suits record.now picture.now.shape }
    ensures written { Encodes record.now picture.now result }
    ensures read_back { IfOk result (λ bytes. Gives record.now picture.now.shape bytes.items (Ok picture.now)) }
    ensures few { IfOk result (λ bytes. vec_len bytes ≤ max_packet_bytes) }
{
    record.lawful();
    let _shape = picture.shape();
    written_is_read_back();
    match packet_of(alloc, record, picture) {
        Ok(Some(packet)) => Ok(packet),
        Ok(None) => Err(EncodeFault::SliceTooLong),
        Err(_) => Err(EncodeFault::NoMemory),
    }
}

// The packet, or none where a slice is too long.
fn packet_of(
    alloc: Global,
    record: &Record,
    picture: &Picture,
) -> Result<Option<Vec<u8>>, AllocError>
    requires { Suits record.now picture.now.shape }
    ensures { IfOk result (λ packet. Writes record.now picture.now (items_of packet)) }
{
    match record.coder() {
        Coder::Range => range_packet(alloc, record, picture),
        Coder::Rice => rice_packet(alloc, record, picture),
    }
}

/// The header of the slice of a cell.
pub(crate) fn cell_header(record: &Record, picture: &Picture, cell: u32) -> Header
    requires suits { Suits record.now picture.now.shape }
    requires cell { cell < record.now.columns * record.now.rows }
    ensures header { result ≡ cell_header record.now.columns cell }
    ensures grid { IsInGrid (grid_of record.now) picture.now.shape result }
{
    let columns = record.columns();
    Header {
        x: cell % columns,
        y: cell / columns,
        columns: 1,
        rows: 1,
        luma_set: 0,
        chroma_set: 0,
    }
}

/// A writer behind a header, before which the bit of the key frame stands in the first slice.
pub(crate) fn header_written<'a>(
    alloc: Global,
    table: &'a Transition,
    header: Header,
    first: bool,
) -> Result<RangeWriter<'a>, AllocError>
    ensures writing { IfOk result (λ writer. writer ≡ with_header (content_start table.now first) header.x header.y) }
    ensures fresh { IfOk result (λ writer. AllKept writer.table (replicate 32 128)) }
{
    let mut writer = content_start(alloc, table, first)?;
    write_header(&mut writer, header.x, header.y)?;
    Ok(writer)
}

#[tactic(auto, using(crate::proofs::Frames::keeps_first))]
fn content_start<'a>(
    alloc: Global,
    table: &'a Transition,
    first: bool,
) -> Result<RangeWriter<'a>, AllocError>
    ensures writing { IfOk result (λ writer. writer ≡ content_start table.now first) }
    ensures fresh { IfOk result (λ writer. AllKept writer.table (replicate 32 128)) }
{
    let mut writer = RangeWriter::start(alloc, table);
    if first {
        let mut state = 128;
        writer.bit(&mut state, true)?;
    }
    Ok(writer)
}

/// Puts a slice behind others: its content and its footer.
pub(crate) fn put_slice(packet: &mut Vec<u8>, content: &[u8], ec: bool) -> Result<(), AllocError>
    requires { length content.now ≤ max_slice_bytes }
    ensures { OnOk result (packet.new.items ≡ packet.old.items ++ bytes_of (slice_of ec content.now)) }
{
    let start = packet.len();
    packet.extend_from_slice(content)?;
    packet.extend_from_slice(&size_bytes(content.len() as u32))?;
    if ec {
        packet.push(0)?;
        let parity = parity_bytes(&packet[start..]);
        packet.extend_from_slice(&parity)?;
    }
    Ok(())
}

fn size_bytes(size: u32) -> [u8; 3]
    requires { size < 2 ^ 24 }
    ensures { result ≡ big_bytes 3 size }
{
    let mut bytes = [0; 3];
    put_big_u24(&mut bytes, size);
    bytes
}

fn parity_bytes(slice: &[u8]) -> [u8; 4]
    ensures { result ≡ big_bytes 4 (parity slice.now) }
{
    let mut bytes = [0; 4];
    put_big_u32(&mut bytes, parity(slice));
    bytes
}
