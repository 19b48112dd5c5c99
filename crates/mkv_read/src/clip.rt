ghost use Rattle.std.specs.Prelude.{◌≡◌, List};

use std::marker::Model;

/// How wide or high a picture may be.
pub const MAX_SIDE: u64 = 8192;

/// How many bytes a configuration record may have.
pub const MAX_PRIVATE: u64 = 65_536;

/// How many packets a clip may have.
pub const MAX_FRAMES: usize = 1_000_000;

/// A part of a file, in bytes from the file's first byte.
#[derive(Clone, Copy, Debug, PartialEq, Eq)]
pub struct Place {
    pub from: u64,
    pub len: u64,
}

/// Parts of a file, in order.
#[derive(Debug, Drop)]
pub struct Places {
    items: Vec<Place>,
}

impl Model for Places {
    ghost use Rattle.std.specs.Prelude.{List};
    ghost use Rattle.mkv_read.specs.declared.clip.Place.{Place};

    ghost Value = { List Place };

    ghost view = { λ places. places.items.items };
}

impl Places {
    pub fn from_vec(items: Vec<Place>) -> Self
        ensures { result ≡ items.items }
    {
        Places { items }
    }

    pub fn as_slice(&self) -> &[Place]
        ensures { result.now ≡ self.now }
    {
        self.items.as_slice()
    }
}

/// What a clip is made of: the size of its pictures, and where its configuration record and its packets
/// lie, in file order.
#[derive(Debug, Drop)]
pub struct ClipIndex {
    pub width: u32,
    pub height: u32,
    pub private: Place,
    pub packets: Places,
}
