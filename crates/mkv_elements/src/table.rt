ghost use Rattle.std.specs.Prelude.{◌≡◌, ◌==◌};
ghost use Rattle.std.specs.List.{list_any};
ghost use Rattle.mkv_elements.specs.Table.{kind_in};

use crate::*;

/// What an element holds (RFC 8794 section 7).
#[derive(Clone, Copy, Debug, PartialEq, Eq)]
pub enum Kind {
    /// Elements.
    Master,
    /// An unsigned number.
    Unsigned,
    /// A text of ASCII characters or of UTF-8.
    Text,
    /// Bytes.
    Binary,
    /// A block: its track's number, its time, its flags, and what it has of the track (RFC 9559 section 10).
    Block,
}

/// An element of Matroska. Its name is that of the constant of its id.
#[derive(Clone, Copy, Debug, PartialEq, Eq)]
pub struct Row {
    pub id: u32,
    /// The id of the element that it stands in, or `FILE`.
    pub parent: u32,
    pub kind: Kind,
    /// Whether a reader of clips looks into it; any other is passed over.
    pub read: bool,
}

/// What stands in the place of the parent of an element that stands in no other.
pub const FILE: u32 = 0;

/// The elements whose size may be unknown (RFC 9559 section 5.1).
pub const MAY_BE_UNKNOWN: [u32; 2] = [SEGMENT, CLUSTER];

/// The elements that are read or written, those that are read first.
#[rattlefmt::skip]
pub const TABLE: [Row; 40] = [
    Row { id: EBML, parent: FILE, kind: Kind::Master, read: true },
    Row { id: SEGMENT, parent: FILE, kind: Kind::Master, read: true },
    Row { id: DOC_TYPE, parent: EBML, kind: Kind::Text, read: true },
    Row { id: TRACKS, parent: SEGMENT, kind: Kind::Master, read: true },
    Row { id: CLUSTER, parent: SEGMENT, kind: Kind::Master, read: true },
    Row { id: TRACK_ENTRY, parent: TRACKS, kind: Kind::Master, read: true },
    Row { id: TRACK_NUMBER, parent: TRACK_ENTRY, kind: Kind::Unsigned, read: true },
    Row { id: TRACK_TYPE, parent: TRACK_ENTRY, kind: Kind::Unsigned, read: true },
    Row { id: CODEC_ID, parent: TRACK_ENTRY, kind: Kind::Text, read: true },
    Row { id: CODEC_PRIVATE, parent: TRACK_ENTRY, kind: Kind::Binary, read: true },
    Row { id: CONTENT_ENCODINGS, parent: TRACK_ENTRY, kind: Kind::Master, read: false },
    Row { id: VIDEO, parent: TRACK_ENTRY, kind: Kind::Master, read: true },
    Row { id: PIXEL_WIDTH, parent: VIDEO, kind: Kind::Unsigned, read: true },
    Row { id: PIXEL_HEIGHT, parent: VIDEO, kind: Kind::Unsigned, read: true },
    Row { id: TIMESTAMP, parent: CLUSTER, kind: Kind::Unsigned, read: true },
    Row { id: SIMPLE_BLOCK, parent: CLUSTER, kind: Kind::Block, read: true },
    Row { id: BLOCK_GROUP, parent: CLUSTER, kind: Kind::Master, read: true },
    Row { id: BLOCK, parent: BLOCK_GROUP, kind: Kind::Block, read: true },
    Row { id: EBML_VERSION, parent: EBML, kind: Kind::Unsigned, read: false },
    Row { id: EBML_READ_VERSION, parent: EBML, kind: Kind::Unsigned, read: false },
    Row { id: EBML_MAX_ID_LENGTH, parent: EBML, kind: Kind::Unsigned, read: false },
    Row { id: EBML_MAX_SIZE_LENGTH, parent: EBML, kind: Kind::Unsigned, read: false },
    Row { id: DOC_TYPE_VERSION, parent: EBML, kind: Kind::Unsigned, read: false },
    Row { id: DOC_TYPE_READ_VERSION, parent: EBML, kind: Kind::Unsigned, read: false },
    Row { id: SEEK_HEAD, parent: SEGMENT, kind: Kind::Master, read: false },
    Row { id: INFO, parent: SEGMENT, kind: Kind::Master, read: false },
    Row { id: CUES, parent: SEGMENT, kind: Kind::Master, read: false },
    Row { id: CHAPTERS, parent: SEGMENT, kind: Kind::Master, read: false },
    Row { id: ATTACHMENTS, parent: SEGMENT, kind: Kind::Master, read: false },
    Row { id: TAGS, parent: SEGMENT, kind: Kind::Master, read: false },
    Row { id: TIMESTAMP_SCALE, parent: INFO, kind: Kind::Unsigned, read: false },
    Row { id: MUXING_APP, parent: INFO, kind: Kind::Text, read: false },
    Row { id: WRITING_APP, parent: INFO, kind: Kind::Text, read: false },
    Row { id: TRACK_UID, parent: TRACK_ENTRY, kind: Kind::Unsigned, read: false },
    Row { id: FLAG_LACING, parent: TRACK_ENTRY, kind: Kind::Unsigned, read: false },
    Row { id: CUE_POINT, parent: CUES, kind: Kind::Master, read: false },
    Row { id: CUE_TIME, parent: CUE_POINT, kind: Kind::Unsigned, read: false },
    Row { id: CUE_TRACK_POSITIONS, parent: CUE_POINT, kind: Kind::Master, read: false },
    Row { id: CUE_TRACK, parent: CUE_TRACK_POSITIONS, kind: Kind::Unsigned, read: false },
    Row { id: CUE_CLUSTER_POSITION, parent: CUE_TRACK_POSITIONS, kind: Kind::Unsigned, read: false },
];

/// What a reader of clips finds in an element of this id that stands in this parent; none where it is
/// passed over.
#[tactic(auto, unfolding(crate::specs::Table::kind_in))]
pub fn kind_in(parent: u32, id: u32) -> Option<Kind>
    ensures { result ≡ kind_in parent id }
{
    match TABLE
        .iter()
        .find(|row| row.read && row.id == id && row.parent == parent)
    {
        Some(row) => Some(row.kind),
        None => None,
    }
}

/// Whether an element's size may be unknown.
pub fn may_be_unknown(id: u32) -> bool
    ensures { result ≡ list_any (λ other. other == id) MAY_BE_UNKNOWN }
{
    MAY_BE_UNKNOWN.contains(&id)
}
