ghost use Rattle.std.specs.Prelude.{◌≡◌, ◌≤◌, length, OnOk};
ghost use Rattle.mkv_read.specs.Elements.{LiesWithin, elements};
ghost use Rattle.mkv_read.specs.Faults.{is_faulty_as, fault_in, element_fault};
ghost use Rattle.mkv_read.specs.Blocks.{time_in, blocks_in, element_blocks};
ghost use Rattle.mkv_read.specs.Taking.{Gives, Lie, taken_of, outcome};

use crate::block::{Blocks, head_at, take_block};
use crate::element::{child, content, element_at, number_of};
use crate::fault::ClipFault;
use ebml_core::Element;
use mkv_elements::{CLUSTER, Kind, TIMESTAMP, kind_in, may_be_unknown};

/// How many masters stand in one another at most that are read, and the file around them: Segment,
/// Cluster and BlockGroup, or Segment, Tracks, TrackEntry and Video.
pub const LEVELS: u8 = 5;

/// Where elements stand.
#[derive(Clone, Copy)]
pub struct Inside {
    /// How many levels of masters are read, this one and those in it.
    pub levels: u8,
    /// The id of the master.
    pub parent: u32,
    /// The Timestamp of the Cluster around it.
    pub time: u64,
}

/// The time of the blocks in a master: in a Cluster it is the Cluster's Timestamp (RFC 9559 section
/// 5.1.3.1), wherever in it that stands.
fn time_in(bytes: &[u8], time: u64, master: Element) -> u64
    requires { LiesWithin (length bytes.now) master }
    ensures { result ≡ time_in bytes.now time master }
{
    if master.id == CLUSTER {
        return number_of(bytes, child(bytes, master, TIMESTAMP));
    }
    time
}

/// Whether an element is faulty by itself that is read as this.
fn is_faulty(bytes: &[u8], element: Element, kind: Option<Kind>) -> bool
    requires { LiesWithin (length bytes.now) element }
    ensures { result ≡ is_faulty_as bytes.now element kind }
{
    match kind {
        Some(Kind::Master) => element.unknown && !may_be_unknown(element.id),
        Some(Kind::Unsigned) => element.unknown || element.end - element.content > 8,
        Some(Kind::Block) => {
            element.unknown || head_at(element.content, content(bytes, element)).is_none()
        }
        Some(Kind::Text) => element.unknown,
        Some(Kind::Binary) => element.unknown,
        None => element.unknown,
    }
}

/// Reads an element: whether it is faulty, and the blocks of the track that are in it.
#[cycle(visit)]
fn visit_element(
    bytes: &[u8],
    track: Option<u64>,
    inside: Inside,
    element: Element,
    blocks: &mut Blocks,
) -> Result<(), ClipFault>
    requires { LiesWithin (length bytes.now) element }
    ensures exact { Gives (λ done. taken_of blocks.new) result
        (outcome (element_fault inside.levels bytes.now inside.parent element)
        (element_blocks inside.levels bytes.now track inside.parent inside.time element)
        (taken_of blocks.old)) }
    ensures lie { OnOk result (Lie (length bytes.now) blocks.old.packets.items → Lie (length bytes.now) blocks.new.packets.items) }
{
    let kind = kind_in(inside.parent, element.id);
    if is_faulty(bytes, element, kind) {
        return Err(ClipFault::Ebml { at: element.start });
    }
    match kind {
        Some(Kind::Master) => {
            let inner = Inside {
                levels: inside.levels,
                parent: element.id,
                time: time_in(bytes, inside.time, element),
            };
            visit(bytes, track, inner, element.content, element.end, blocks)?;
            Ok(())
        }
        Some(Kind::Block) => {
            take_block(bytes, track, inside.time, element, blocks)?;
            Ok(())
        }
        Some(Kind::Unsigned) => Ok(()),
        Some(Kind::Text) => Ok(()),
        Some(Kind::Binary) => Ok(()),
        None => Ok(()),
    }
}

/// Reads the elements that lie from one place up to another, once over their headers: the first fault,
/// and the blocks of the track that are in them.
#[cycle(visit)]
pub fn visit(
    bytes: &[u8],
    track: Option<u64>,
    inside: Inside,
    from: u64,
    to: u64,
    blocks: &mut Blocks,
) -> Result<(), ClipFault>
    requires order { from ≤ to }
    requires within { to ≤ length bytes.now }
    ensures exact { Gives (λ done. taken_of blocks.new) result
        (outcome (fault_in inside.levels bytes.now inside.parent (elements bytes.now from to))
        (blocks_in inside.levels bytes.now track inside.parent inside.time (elements bytes.now from to))
        (taken_of blocks.old)) }
    ensures lie { OnOk result (Lie (length bytes.now) blocks.old.packets.items → Lie (length bytes.now) blocks.new.packets.items) }
{
    if inside.levels == 0 {
        return Ok(());
    }
    let below = Inside {
        levels: inside.levels - 1,
        ..inside
    };
    let mut place = from;
    loop {
        match element_at(bytes, place, to) {
            Ok(None) => return Ok(()),
            Ok(Some(element)) => {
                visit_element(bytes, track, below, element, blocks)?;
                place = element.end;
            }
            Err(fault) => return Err(ClipFault::Ebml { at: fault.at }),
        }
    }
}
