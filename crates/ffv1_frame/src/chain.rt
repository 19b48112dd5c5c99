//! The slices of a packet, found from its end. RFC 9043 section 4.9.
ghost use Rattle.std.specs.Prelude.{◌≡◌, ℕ, ◌<◌, ◌≤◌, ◌+◌, ◌*◌, ◌^◌, List, vec_len, ◌∷◌, ◌++◌, length, map, take, IfSome, IfNone, IsNone, IfOk, IfErr, true, MatchOption, ◌↔◌, Bool, All, reverse, slice_index_or};
ghost use Rattle.ffv1_frame.specs.declared.chain.ChainFault.TheVariants as ChainFault;
ghost use Rattle.ffv1_frame.specs.Packet.{Slice, IsSlice, IsSpan, HasParity, no_slice, EndsWith, bytes_of, slice_at, footer_length};

use std::alloc::{AllocError, AllocFailed, Global};
use tl_base::{big_u24, parity};

/// Where a slice of a packet lies: its content from `from` to `footer`, and its footer from there to `end`.
#[derive(Clone, Copy, Debug)]
pub(crate) struct Span {
    pub(crate) from: usize,
    pub(crate) footer: usize,
    pub(crate) end: usize,
}

/// Why the slices of a packet aren't found.
#[derive(Clone, Copy, Debug, PartialEq, Eq)]
pub(crate) enum ChainFault {
    /// Going backwards, fewer bytes are left than a slice takes.
    Broken,
    /// Memory was wanting.
    NoMemory,
}

impl From<AllocError> for ChainFault {
    ghost from_gives = { λ _ e. e ≡ ChainFault.NoMemory };

    fn from(_e: AllocError) -> ChainFault {
        ChainFault::NoMemory
    }
}

impl<T: Drop> From<AllocFailed<T>> for ChainFault {
    ghost from_gives = { λ _ e. e ≡ ChainFault.NoMemory };

    fn from(_e: AllocFailed<T>) -> ChainFault {
        ChainFault::NoMemory
    }
}

/// The slices of a packet in their order.
pub(crate) fn spans(alloc: Global, packet: &[u8], ec: bool) -> Result<Vec<Span>, ChainFault>
    ensures found { IfOk result (λ spans. EndsWith ec packet.now (reverse (map (slice_at packet.now) spans.items))) }
    ensures spans { IfOk result (λ spans. All (IsSpan packet.now) spans.items) }
    ensures few { IfOk result (λ spans. 3 * vec_len spans ≤ length packet.now) }
    ensures broken { IfErr result (λ fault. fault ≡ ChainFault.Broken → (slices : List Slice) → EndsWith ec packet.now slices → ⊥) }
{
    let spans = spans_backwards(alloc, packet, ec)?;
    let spans = reversed(alloc, spans.as_slice())?;
    Ok(spans)
}

fn reversed(alloc: Global, spans: &[Span]) -> Result<Vec<Span>, AllocError>
    ensures { IfOk result (λ others. others.items ≡ reverse spans.now) }
{
    spans.iter().rev().copied().collect(alloc)
}

// The slices of a packet, the last one first.
fn spans_backwards(alloc: Global, packet: &[u8], ec: bool) -> Result<Vec<Span>, ChainFault>
    ensures found { IfOk result (λ spans. EndsWith ec packet.now (map (slice_at packet.now) spans.items)) }
    ensures spans { IfOk result (λ spans. All (IsSpan packet.now) spans.items) }
    ensures few { IfOk result (λ spans. 3 * vec_len spans ≤ length packet.now) }
    ensures broken { IfErr result (λ fault. fault ≡ ChainFault.Broken → (slices : List Slice) → EndsWith ec packet.now slices → ⊥) }
{
    let mut spans = Vec::new(alloc);
    let mut end = packet.len();
    while end > 0 {
        let span = match last_span(packet, end, ec) {
            Some(span) => span,
            None => return Err(ChainFault::Broken),
        };
        spans.push(span)?;
        end = span.from;
    }
    Ok(spans)
}

// The slice that ends a packet's first bytes. None exactly where fewer bytes are left than a footer, or than a footer and the
// content whose size it gives.
fn last_span(packet: &[u8], end: usize, ec: bool) -> Option<Span>
    requires { end ≤ length packet.now }
    ensures some { IfSome result (λ span. (span.from + 3 ≤ end) × IsSpan packet.now span
        × (take end packet.now ≡ take span.from packet.now ++ bytes_of (slice_at packet.now span))
        × IsSlice ec (slice_at packet.now span)) }
    ensures none { IfNone result ((before : List ℕ) (slice : Slice) → take end packet.now ≡ before ++ bytes_of slice → IsSlice ec slice
        → ⊥) }
{
    let footer_length = footer_length(ec);
    if end < footer_length {
        return None;
    }
    let footer = end - footer_length;
    let size = big_u24(&packet[footer..end]) as usize;
    if footer < size {
        return None;
    }
    Some(Span {
        from: footer - size,
        footer,
        end,
    })
}

fn footer_length(ec: bool) -> usize
    ensures length { result ≡ footer_length ec }
    ensures some { 3 ≤ result }
{
    if ec { 8 } else { 3 }
}

/// The first slice whose bytes have another parity than 0.
pub(crate) fn first_wrong(packet: &[u8], spans: &[Span]) -> Option<usize>
    requires { All (IsSpan packet.now) spans.now }
    ensures { MatchOption result (All HasParity (map (slice_at packet.now) spans.now)) (λ i. (i < length spans.now)
        × All HasParity (take i (map (slice_at packet.now) spans.now))
        × ¬ HasParity (slice_index_or (map (slice_at packet.now) spans.now) i no_slice)) }
{
    for i in 0..spans.len() {
        if !has_parity(packet, spans[i]) {
            return Some(i);
        }
    }
    None
}

fn has_parity(packet: &[u8], span: Span) -> bool
    requires { IsSpan packet.now span }
    ensures { (result ≡ true) ↔ HasParity (slice_at packet.now span) }
{
    parity(&packet[span.from..span.end]) == 0
}
