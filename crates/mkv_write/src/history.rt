//! What a writer was given, as clauses see it. It takes no memory.

ghost use Rattle.std.specs.Prelude.{◌≡◌, [], IfOk};

use std::alloc::{AllocError, Global};
use std::snapshot::Snapshot;

/// A packet: what a buffer gained when the packet was added.
#[derive(Drop)]
pub(crate) struct Given {
    pub(crate) before: Snapshot<Vec<u8>>,
    pub(crate) after: Snapshot<Vec<u8>>,
}

/// The configuration record, the size of the picture, and the packets.
#[derive(Drop)]
pub(crate) struct History {
    pub(crate) private: Snapshot<Vec<u8>>,
    pub(crate) width: Snapshot<u32>,
    pub(crate) height: Snapshot<u32>,
    pub(crate) packets: Vec<Given>,
}

impl History {
    /// The history before the first packet.
    pub(crate) fn new(
        alloc: Global,
        private: &[u8],
        width: u32,
        height: u32,
    ) -> Result<History, AllocError>
        ensures private { IfOk result (λ history. history.private.value.items ≡ private.now) }
        ensures width { IfOk result (λ history. history.width.value ≡ width) }
        ensures height { IfOk result (λ history. history.height.value ≡ height) }
        ensures packets { IfOk result (λ history. history.packets.items ≡ []) }
    {
        let record = Vec::from_slice(alloc, private)?;
        Ok(History {
            private: Snapshot::of(&record),
            width: Snapshot::of(&width),
            height: Snapshot::of(&height),
            packets: Vec::new(alloc),
        })
    }
}
