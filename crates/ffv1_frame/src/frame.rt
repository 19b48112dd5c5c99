//! Decoding a packet. RFC 9043 sections 4.4 to 4.9.
ghost use Rattle.std.specs.Prelude.{◌≡◌, ◌≢◌, ℕ, ◌<◌, ◌≤◌, ◌+◌, ◌*◌, ◌^◌, [], Ok, Err, true, All, IfOk, IfErr, OnOk, MatchOption, IfSome, List, length, map, replicate, reverse, slice_index_or, vec_len};
ghost use Rattle.pic_planes.specs.Shape.{Layout};
ghost use Rattle.ffv1_range.specs.Reading.{Reading, opened, bit_of};
ghost use Rattle.ffv1_range.specs.Transition.{AllKept};
ghost use Rattle.ffv1_record.specs.Parameters.{Parameters};
ghost use Rattle.ffv1_slice.specs.declared.header.Header.{Header};
ghost use Rattle.ffv1_frame.specs.Cover.{AreCovered, IsUncovered};
ghost use Rattle.ffv1_frame.specs.Packet.{EndsWith, IsSpan, slice_at, no_slice};
ghost use Rattle.ffv1_frame.specs.Frame.{Gives, HaveParities, AreSlices, IsKeyFrame, HaveHeaders, AreHeaders, HeaderGives, keyframe, reader_at, grid_of, header_fault_of};

use crate::chain::{ChainFault, Span, first_wrong, spans};
use crate::cover::first_uncovered;
use crate::fault::DecodeFault;
use ffv1_range::{RangeReader, Transition};
use ffv1_record::Record;
use ffv1_slice::{Grid, Header, HeaderFault, read_header};
use std::alloc::Global;
use tl_model::FrameFault;

// The slices of a packet that has bytes.
pub(crate) fn found(alloc: Global, packet: &[u8], ec: bool) -> Result<Vec<Span>, DecodeFault>
    ensures ok { IfOk result (λ spans. (packet.now ≢ []) × EndsWith ec packet.now (reverse (map (slice_at packet.now) spans.items))) }
    ensures spans { IfOk result (λ spans. All (IsSpan packet.now) spans.items) }
    ensures few { IfOk result (λ spans. 3 * vec_len spans ≤ length packet.now) }
    ensures err { IfErr result (λ fault. (p : Parameters) (shape : Layout) → p.ec ≡ ec → Gives p shape packet.now (Err fault)) }
{
    if packet.is_empty() {
        return Err(DecodeFault::Frame(FrameFault::Empty));
    }
    match spans(alloc, packet, ec) {
        Ok(spans) => Ok(spans),
        Err(ChainFault::Broken) => Err(DecodeFault::Frame(FrameFault::Chain)),
        Err(ChainFault::NoMemory) => Err(DecodeFault::NoMemory),
    }
}

// Whether the slices have their parities, where there are parities.
fn test_parities(packet: &[u8], spans: &[Span], ec: bool) -> Result<(), DecodeFault>
    requires spans { All (IsSpan packet.now) spans.now }
    requires few { length spans.now < 2 ^ 32 }
    ensures ok { OnOk result (HaveParities ec (map (slice_at packet.now) spans.now)) }
    ensures err { IfErr result (λ fault. (p : Parameters) (shape : Layout) → p.ec ≡ ec → packet.now ≢ []
        → EndsWith ec packet.now (reverse (map (slice_at packet.now) spans.now)) → Gives p shape packet.now (Err fault)) }
{
    if !ec {
        return Ok(());
    }
    match first_wrong(packet, spans) {
        None => Ok(()),
        Some(i) => Err(DecodeFault::Frame(FrameFault::Parity { slice: i as u32 })),
    }
}

// The content of a slice, which is empty past the last one.
pub(crate) fn content<'a>(packet: &'a [u8], spans: &[Span], i: usize) -> &'a [u8]
    requires { All (IsSpan packet.now) spans.now }
    ensures content { result.now ≡ (slice_index_or (map (slice_at packet.now) spans.now) i no_slice).content }
    ensures few { length result.now ≤ length packet.now }
{
    if i < spans.len() {
        &packet[spans[i].from..spans[i].footer]
    } else {
        &packet[..0]
    }
}

// A reader at the header of a slice, behind the bit of the key frame in the first.
#[tactic(auto, using(crate::proofs::Frames::keeps_first))]
fn reader_at_header<'a>(content: &'a [u8], table: &'a Transition, first: bool) -> RangeReader<'a>
    ensures reading { result ≡ reader_at table.now first content.now }
    ensures fresh { AllKept result.table (replicate 32 128) }
    ensures table { result.table ≡ table.now }
{
    let mut reader = RangeReader::over(content, table);
    if first {
        let mut state = 128;
        let _key = reader.bit(&mut state);
    }
    reader
}

// keyframe.
#[tactic(auto, using(crate::proofs::Frames::keeps_first))]
fn is_key(content: &[u8], table: &Transition) -> bool
    ensures { result ≡ bit_of (opened table.now content.now) 128 }
{
    let mut reader = RangeReader::over(content, table);
    let mut state = 128;
    reader.bit(&mut state)
}

pub(crate) fn grid_of(record: &Record) -> Grid
    ensures { result ≡ grid_of record.now }
{
    record.lawful();
    Grid {
        columns: record.columns(),
        rows: record.rows(),
        table_sets: record.table_sets().len() as u32,
    }
}

// What the header of a slice gives, and a reader behind it.
fn open_slice<'a>(
    record: &'a Record,
    packet: &'a [u8],
    spans: &[Span],
    i: usize,
) -> (Result<Header, HeaderFault>, RangeReader<'a>)
    requires { All (IsSpan packet.now) spans.now }
    ensures gives { HeaderGives record.now i (slice_index_or (map (slice_at packet.now) spans.now) i no_slice) result.1 result.0 }
    ensures fresh { AllKept result.1.table (replicate 32 128) }
    ensures table { result.1.table ≡ record.now.transition }
{
    let content = content(packet, spans, i);
    let grid = grid_of(record);
    let mut reader = reader_at_header(content, record.transition(), i == 0);
    let header = read_header(&mut reader, grid);
    (header, reader)
}

// The header of a slice, and a reader behind it.
pub(crate) fn header_at<'a>(
    record: &'a Record,
    packet: &'a [u8],
    spans: &[Span],
    i: usize,
) -> Result<(Header, RangeReader<'a>), DecodeFault>
    requires spans { All (IsSpan packet.now) spans.now }
    requires few { length spans.now < 2 ^ 32 }
    requires within { i < length spans.now }
    ensures ok { IfOk result (λ found. HeaderGives record.now i (slice_index_or (map (slice_at packet.now) spans.now) i no_slice) found.1
        (Ok found.0)) }
    ensures fresh { IfOk result (λ found. AllKept found.1.table (replicate 32 128)) }
    ensures table { IfOk result (λ found. found.1.table ≡ record.now.transition) }
    ensures err { IfErr result (λ fault. (shape : Layout) (headers : List Header)
        → IsKeyFrame record.now packet.now (map (slice_at packet.now) spans.now)
        → AreHeaders record.now (map (slice_at packet.now) spans.now) headers → i ≡ length headers
        → Gives record.now shape packet.now (Err fault)) }
{
    let (header, reader) = open_slice(record, packet, spans, i);
    match header {
        Ok(header) => Ok((header, reader)),
        Err(fault) => Err(DecodeFault::Frame(header_fault(fault, i as u32))),
    }
}

// The headers of all slices.
fn headers_of(
    alloc: Global,
    record: &Record,
    packet: &[u8],
    spans: &[Span],
) -> Result<Vec<Header>, DecodeFault>
    requires spans { All (IsSpan packet.now) spans.now }
    requires few { length spans.now < 2 ^ 32 }
    ensures ok { IfOk result (λ headers. AreHeaders record.now (map (slice_at packet.now) spans.now) headers.items
        × (vec_len headers ≡ length spans.now)) }
    ensures err { IfErr result (λ fault. (shape : Layout) → IsKeyFrame record.now packet.now (map (slice_at packet.now) spans.now)
        → Gives record.now shape packet.now (Err fault)) }
{
    let mut headers = Vec::new(alloc);
    for i in 0..spans.len() {
        let (header, _reader) = header_at(record, packet, spans, i)?;
        headers.push(header)?;
    }
    Ok(headers)
}

fn header_fault(fault: HeaderFault, slice: u32) -> FrameFault
    ensures { result ≡ header_fault_of fault slice }
{
    match fault {
        HeaderFault::Header => FrameFault::Header { slice },
        HeaderFault::TableIndex => FrameFault::TableIndex { slice },
    }
}

// The headers of the slices of a packet, which are one for each cell of the grid.
pub(crate) fn tested(
    alloc: Global,
    record: &Record,
    packet: &[u8],
    spans: &[Span],
) -> Result<Vec<Header>, DecodeFault>
    requires some { packet.now ≢ [] }
    requires chain { EndsWith record.now.ec packet.now (reverse (map (slice_at packet.now) spans.now)) }
    requires spans { All (IsSpan packet.now) spans.now }
    requires few { length spans.now < 2 ^ 32 }
    ensures ok { IfOk result (λ headers. HaveHeaders record.now packet.now (map (slice_at packet.now) spans.now) headers.items
        × AreCovered record.now.columns headers.items (record.now.columns * record.now.rows)) }
    ensures err { IfErr result (λ fault. (shape : Layout) → Gives record.now shape packet.now (Err fault)) }
{
    test_parities(packet, spans, record.ec())?;
    let first = content(packet, spans, 0);
    if !is_key(first, record.transition()) {
        return Err(DecodeFault::Frame(FrameFault::NotKey));
    }
    let headers = headers_of(alloc, record, packet, spans)?;
    match uncovered(record, headers.as_slice()) {
        None => Ok(headers),
        Some(cell) => Err(DecodeFault::Frame(FrameFault::Cover { cell })),
    }
}

fn uncovered(record: &Record, headers: &[Header]) -> Option<u32>
    ensures { MatchOption result (AreCovered record.now.columns headers.now (record.now.columns * record.now.rows))
        (IsUncovered record.now.columns record.now.rows headers.now) }
{
    first_uncovered(headers, record.columns(), record.rows())
}
