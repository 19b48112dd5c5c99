//! Decoding a packet to its picture. RFC 9043 sections 4.4 to 4.9.
ghost use Rattle.std.specs.Prelude.{◌≡◌, ◌≢◌, ◌≤◌, ◌*◌, ◌^◌, [], All, length, map, reverse};
ghost use Rattle.ffv1_record.specs.Suits.{Suits};
ghost use Rattle.ffv1_frame.specs.Packet.{EndsWith, IsSpan, AreFound, slice_at};
ghost use Rattle.ffv1_frame.specs.Frame.{Gives, IsWhole, slice_fault_of};

use crate::chain::Span;
use crate::decode_range::decode_range_slices;
use crate::decode_rice::decode_rice_slices;
use crate::fault::DecodeFault;
use crate::frame::{found, tested};
use ffv1_record::{Coder, Record};
use ffv1_slice::SliceFault;
use pic_planes::{Picture, Shape};
use std::alloc::Global;
use tl_model::FrameFault;

/// Decodes a packet to its picture, by a record that suits the shape. `Frame` has the first fault in the order of `FrameFault`.
/// Where chroma rectangles overlap, the later slice's samples stand, and a sample that no slice has is 0. RFC 9043 sections 4.4 to
/// 4.9.
pub fn decode_frame(
    alloc: Global,
    record: &Record,
    shape: Shape,
    packet: &[u8],
) -> Result<Picture, DecodeFault>
    requires suits { Suits record.now shape }
    requires packet { length packet.now ≤ 2 ^ 33 }
    ensures { Gives record.now shape packet.now result }
{
    let spans = found(alloc, packet, record.ec())?;
    decode_found(alloc, record, shape, packet, spans.as_slice())
}

// The picture of a packet whose slices were found.
fn decode_found(
    alloc: Global,
    record: &Record,
    shape: Shape,
    packet: &[u8],
    spans: &[Span],
) -> Result<Picture, DecodeFault>
    requires some { packet.now ≢ [] }
    requires chain { EndsWith record.now.ec packet.now (reverse (map (slice_at packet.now) spans.now)) }
    requires spans { All (IsSpan packet.now) spans.now }
    requires few { 3 * length spans.now ≤ length packet.now }
    requires suits { Suits record.now shape }
    requires packet { length packet.now ≤ 2 ^ 33 }
    ensures { Gives record.now shape packet.now result }
{
    tested(alloc, record, packet, spans)?;
    decode_slices(alloc, record, shape, packet, spans)
}

// The picture of slices that cover all cells.
fn decode_slices(
    alloc: Global,
    record: &Record,
    shape: Shape,
    packet: &[u8],
    spans: &[Span],
) -> Result<Picture, DecodeFault>
    requires whole { IsWhole record.now packet.now (map (slice_at packet.now) spans.now) }
    requires suits { Suits record.now shape }
    requires found { AreFound packet.now spans.now }
    ensures { Gives record.now shape packet.now result }
{
    match record.coder() {
        Coder::Range => decode_range_slices(alloc, record, shape, packet, spans),
        Coder::Rice => decode_rice_slices(alloc, record, shape, packet, spans),
    }
}

pub(crate) fn slice_fault(fault: SliceFault, slice: u32) -> FrameFault
    ensures { result ≡ slice_fault_of fault slice }
{
    match fault {
        SliceFault::Symbol => FrameFault::Symbol { slice },
        SliceFault::Overrun => FrameFault::Overrun { slice },
    }
}
