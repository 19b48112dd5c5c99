ghost use Rattle.std.specs.Prelude.{◌≡◌, ◌<◌, ◌≤◌, ◌==◌, length, true, IfOk, IfSome};
ghost use Rattle.std.specs.List.{position_or_len};
ghost use Rattle.ebml_core.specs.Spelling.{between};
ghost use Rattle.ebml_core.specs.Listing.{EndsBefore};
ghost use Rattle.ebml_core.specs.Walking.{LiesAt, place_after, given};
ghost use Rattle.mkv_read.specs.Elements.{content_of, LiesWithin, elements, first, number_of};
ghost use Rattle.mkv_read.specs.Tracks.{is_text};

use ebml_core::{EbmlFault, Element, Walker, unsigned};
use mkv_elements::{CLUSTER, TOP_LEVEL};

/// The element with its end: a Cluster of unknown size ends before the first element behind its header that
/// stands beside Clusters, and where none is read there, with its parent (after RFC 8794 section 6.2).
fn ended(bytes: &[u8], element: Element) -> Element
    requires { LiesWithin (length bytes.now) element }
    ensures cluster { element.unknown ≡ true → element.id ≡ CLUSTER → (result ≡ record element { end = result.end })
        × EndsBefore TOP_LEVEL element.content (content_of bytes.now result) (between bytes.now result.end element.end) }
    ensures other { (element.unknown ≡ true → element.id ≡ CLUSTER → ⊥) → result ≡ element }
    ensures start { (result.start ≡ element.start) × (result.content ≡ element.content) }
    ensures lies { (result.content ≤ result.end) × (result.end ≤ element.end) }
{
    if element.unknown && element.id == CLUSTER {
        let children = Walker::over(bytes, element.content, element.end);
        let end = children.end_before(&TOP_LEVEL);
        return Element { end, ..element };
    }
    element
}

/// The element that starts at a place, where its parent ends at another; none at that end. What stands from the place on
/// is this answer, and then what stands from the element's end on.
pub fn element_at(bytes: &[u8], place: u64, end: u64) -> Result<Option<Element>, EbmlFault>
    requires order { place ≤ end }
    requires within { end ≤ length bytes.now }
    ensures exact { elements bytes.now place end ≡ given result (elements bytes.now (place_after place result) end) }
    ensures lies { IfOk result (λ found. IfSome found (LiesAt place end)) }
{
    let mut walker = Walker::over(bytes, place, end);
    match walker.next() {
        Ok(None) => Ok(None),
        Ok(Some(element)) => Ok(Some(ended(bytes, element))),
        Err(fault) => Err(fault),
    }
}

/// The first element of this id that lies from one place up to another.
pub fn first(bytes: &[u8], from: u64, to: u64, id: u32) -> Option<Element>
    requires order { from ≤ to }
    requires within { to ≤ length bytes.now }
    ensures exact { result ≡ first id (elements bytes.now from to) }
    ensures lies { IfSome result (LiesWithin to) }
{
    let mut place = from;
    loop {
        match element_at(bytes, place, to) {
            Ok(None) => return None,
            Ok(Some(element)) => {
                if element.id == id {
                    return Some(element);
                }
                place = element.end;
            }
            Err(_) => return None,
        }
    }
}

/// The first child of this id.
pub fn child(bytes: &[u8], master: Element, id: u32) -> Option<Element>
    requires { LiesWithin (length bytes.now) master }
    ensures exact { result ≡ first id (elements bytes.now master.content master.end) }
    ensures lies { IfSome result (LiesWithin (length bytes.now)) }
{
    first(bytes, master.content, master.end, id)
}

/// The bytes of an element's content.
pub fn content(bytes: &[u8], element: Element) -> &[u8]
    requires { LiesWithin (length bytes.now) element }
    ensures { result.now ≡ content_of bytes.now element }
{
    &bytes[element.content as usize..element.end as usize]
}

/// An element's unsigned number (RFC 8794 section 7.2). A missing one is 0, and one of more than 8
/// bytes, which is faulty, counts as 0.
pub fn number_of(bytes: &[u8], element: Option<Element>) -> u64
    requires { IfSome element (LiesWithin (length bytes.now)) }
    ensures { result ≡ number_of bytes.now element }
{
    match element {
        None => 0,
        Some(element) => {
            let octets = content(bytes, element);
            if octets.len() > 8 {
                return 0;
            }
            unsigned(octets)
        }
    }
}

/// Whether there is an element with this text (RFC 8794 section 7.4), which ends before its first 0 byte.
pub fn is_text(bytes: &[u8], element: Option<Element>, text: &[u8]) -> bool
    requires { IfSome element (LiesWithin (length bytes.now)) }
    ensures { result ≡ is_text bytes.now text.now element }
{
    match element {
        None => false,
        Some(element) => {
            let padded = content(bytes, element);
            let len = text_len(padded);
            &padded[..len] == text
        }
    }
}

/// How many bytes stand before the first 0 byte.
pub fn text_len(padded: &[u8]) -> usize
    ensures count { result ≡ position_or_len (λ byte. byte == 0) padded.now }
    ensures within { result ≤ length padded.now }
{
    for (at, byte) in padded.iter().enumerate() {
        if *byte == 0 {
            return at;
        }
    }
    padded.len()
}
