ghost use Rattle.std.specs.Prelude.{◌≡◌, ℕ, ◌+◌, ◌-◌, ◌^◌, ◌*◌, ◌<◌, ◌≤◌, length, drop, IfOk, IfSome};
ghost use Rattle.ebml_core.specs.Reading.{header_at, sized, element_at, found};
ghost use Rattle.ebml_core.specs.Spelling.{between};
ghost use Rattle.ebml_core.specs.Listing.{Listing, Begins, EndsWithParent, EndsBefore};
ghost use Rattle.ebml_core.specs.Walking.{Position, ahead, HasAhead, place_after, LiesAt, given};

use crate::element::{EbmlFault, EbmlWhy, Element, Header};
use crate::vint::{Size, VintFault, vint_id, vint_size};
use std::marker::Model;

/// The id and the size at the front.
#[tactic(auto, unfolding(crate::specs::Reading::header_at))]
fn header(text: &[u8]) -> Result<Header, VintFault>
    ensures exact { result ≡ header_at text.now }
    ensures octets { IfOk result (λ h. (1 ≤ h.octets) × (h.octets ≤ length text.now)) }
{
    let (id, id_len) = vint_id(text)?;
    let (size, size_len) = vint_size(&text[id_len as usize..])?;
    Ok(Header {
        id,
        size,
        octets: id_len + size_len,
    })
}

/// The element of this header at a place, where `room` octets lie before its parent's end.
fn sized(place: u64, room: u64, header: Header) -> Result<Element, EbmlFault>
    requires fits { place + room < 2 ^ 64 }
    requires header { (1 ≤ header.octets) × (header.octets ≤ room) }
    ensures exact { result ≡ sized place room header header.size }
    ensures lies { IfOk result (λ e. LiesAt place (place + room) e) }
{
    let content = place + u64::from(header.octets);
    let (end, unknown) = match header.size {
        Size::Unknown => (place + room, true),
        Size::Known(size) => {
            if size > room - u64::from(header.octets) {
                return Err(EbmlFault {
                    at: place,
                    why: EbmlWhy::Overrun,
                });
            }
            (content + size, false)
        }
    };
    Ok(Element {
        id: header.id,
        start: place,
        content,
        end,
        unknown,
    })
}

/// The element at a place from which this text goes up to its parent's end.
#[tactic(auto, unfolding(crate::specs::Reading::element_at))]
fn element(place: u64, text: &[u8]) -> Result<Element, EbmlFault>
    requires some { 0 < length text.now }
    requires fits { place + length text.now < 2 ^ 64 }
    ensures exact { element_at place text.now ≡ found result }
    ensures lies { IfOk result (λ e. LiesAt place (place + length text.now) e) }
    ensures begins { IfOk result (λ e. Begins EndsWithParent place text.now e (drop (e.end - place) text.now)) }
{
    match header(text) {
        Ok(header) => sized(place, text.len() as u64, header),
        Err(fault) => Err(EbmlFault {
            at: place,
            why: EbmlWhy::from(fault),
        }),
    }
}

/// Goes from element to element, from one place of the bytes up to another.
#[derive(Drop)]
pub struct Walker<'a> {
    bytes: &'a [u8],
    place: u64,
    end: u64,
}

impl<'a> Model for Walker<'a> {
    ghost Value = { Position };

    ghost view = { λ w. record { bytes = w.bytes.now; place = w.place; end = w.end } };

    ghost invariant = { λ w. (w.place ≤ w.end) × (w.end ≤ length w.bytes.now) };
}

impl<'a> Walker<'a> {
    /// A walk over the elements that lie from one place, in bytes, up to another.
    pub fn over(bytes: &'a [u8], from: u64, to: u64) -> Walker<'a>
        requires order { from ≤ to }
        requires within { to ≤ length bytes.now }
        ensures { result ≡ record { bytes = bytes.now; place = from; end = to } }
    {
        Walker {
            bytes,
            place: from,
            end: to,
        }
    }

    /// The element at the walker's place, or its fault; none exactly at the end.
    ///
    /// An element of unknown size reaches up to the walk's end. After an element the walker stands at
    /// its end; at the end and after a fault it stays where it is.
    #[tactic(auto, unfolding(crate::specs::Reading::element_at))]
    pub fn next(&mut self) -> Result<Option<Element>, EbmlFault>
        ensures exact { result ≡ element_at self.old.place (ahead self.old) }
        ensures place { self.new ≡ record self.old { place = place_after self.old.place result } }
        ensures lies { IfOk result (λ found. IfSome found (LiesAt self.old.place self.old.end)) }

        // What it was to go over lists this answer first, and then what it is to go over from here on.
        ensures listed { (later : Listing) → HasAhead self.new later → HasAhead self.old (given result later) }
    {
        if self.place == self.end {
            return Ok(None);
        }
        let text = &self.bytes[self.place as usize..self.end as usize];
        let element = element(self.place, text)?;
        self.place = element.end;
        Ok(Some(element))
    }

    /// Where an element of unknown size ends whose content is walked, by the ids of the elements that may not
    /// stand in it (RFC 8794 section 6.2): before the first of these that the walk gives. Where it gives none
    /// before its end, its first fault or an element of unknown size, that is the walk's end.
    pub fn end_before(mut self, ids: &[u32]) -> u64
        ensures exact { EndsBefore ids.now self.entry.place (between self.entry.bytes self.entry.place result)
            (between self.entry.bytes result self.entry.end) }
        ensures within { (self.entry.place ≤ result) × (result ≤ self.entry.end) }
    {
        loop {
            match self.next() {
                Ok(Some(element)) => {
                    if ids.contains(&element.id) {
                        return element.start;
                    }
                }
                Ok(None) => return self.end,
                Err(_) => return self.end,
            }
        }
    }
}
