//! Decoding slices in Golomb-Rice mode. RFC 9043 sections 4.5 to 4.8.
ghost use Rattle.std.specs.Prelude.{◌≡◌, ◌<◌, length, map};
ghost use Rattle.ffv1_record.specs.Suits.{Suits};
ghost use Rattle.ffv1_frame.specs.Packet.{AreFound, slice_at};
ghost use Rattle.ffv1_frame.specs.Frame.{Gives, StepGives, HasRoom, IsWhole};

use crate::chain::Span;
use crate::decode::slice_fault;
use crate::fault::DecodeFault;
use crate::frame::{content, header_at};
use crate::samples::{decode_rice_samples, most_contexts};
use ffv1_golomb::RiceScratch;
use ffv1_record::Record;
use pic_planes::{Picture, Shape};
use std::alloc::Global;

/// The picture of slices that cover all cells.
pub(crate) fn decode_rice_slices(
    alloc: Global,
    record: &Record,
    shape: Shape,
    packet: &[u8],
    spans: &[Span],
) -> Result<Picture, DecodeFault>
    requires coder { record.now.coder_type ≡ 0 }
    requires whole { IsWhole record.now packet.now (map (slice_at packet.now) spans.now) }
    requires suits { Suits record.now shape }
    requires found { AreFound packet.now spans.now }
    ensures { Gives record.now shape packet.now result }
{
    let mut picture = Picture::zero(alloc, shape)?;
    let width = shape.width() as usize;
    let mut scratch = RiceScratch::start(alloc, most_contexts(record), width)?;
    for i in 0..spans.len() {
        decode_rice_at(record, shape, packet, spans, i, &mut scratch, &mut picture)?;
    }
    Ok(picture)
}

// Decodes the samples of a slice into the picture of those before it.
fn decode_rice_at(
    record: &Record,
    shape: Shape,
    packet: &[u8],
    spans: &[Span],
    i: usize,
    scratch: &mut RiceScratch,
    picture: &mut Picture,
) -> Result<(), DecodeFault>
    requires coder { record.now.coder_type ≡ 0 }
    requires suits { Suits record.now shape }
    requires found { AreFound packet.now spans.now }
    requires within { i < length spans.now }
    requires shape { picture.old.shape ≡ shape }
    requires room { HasRoom record.now shape scratch.old }
    ensures gives { StepGives record.now shape packet.now (map (slice_at packet.now) spans.now) i picture.old picture.new result }
    ensures shape { picture.new.shape ≡ picture.old.shape }
    ensures room { scratch.new ≡ scratch.old }
{
    let (header, reader) = header_at(record, packet, spans, i)?;
    record.lawful();
    let bytes = content(packet, spans, i);
    match decode_rice_samples(record, header, reader, bytes, shape, scratch, picture) {
        Ok(()) => Ok(()),
        Err(fault) => Err(DecodeFault::Frame(slice_fault(fault, i as u32))),
    }
}
