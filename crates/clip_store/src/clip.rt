//! A clip that was loaded.
ghost use Rattle.std.specs.Prelude.{◌≡◌, ◌+◌, ◌<◌, ◌≤◌, Ok, IfOk, length, string_bytes};
ghost use Rattle.tl_limits.specs.Limits.{IsRecordLength, max_total_bytes};
ghost use Rattle.mkv_read.specs.Plain.{LiesBefore};
ghost use Rattle.mkv_read.specs.Clip.{clip_of};
ghost use Rattle.clip_store.specs.Clip.{piece, record_in, ReadsIndex, ReadsRecord, Reads, file_of, IsClip};
ghost use Rattle.clip_store.specs.Library.{record_bytes_of, packet_of};
ghost use Rattle.clip_store.specs.Render.{frame_of};

use crate::fault::LoadFault;
use ffv1_frame::{DecodeFault, decode_frame};
use ffv1_record::{Record, RecordFault};
use mkv_read::{ClipFault, ClipIndex, Place, read_clip};
use pic_planes::{Picture, Shape};
use std::alloc::{AllocError, Global};
use std::marker::Model;
use tl_model::{FrameFault, Name};

/// A clip: its file's bytes, which are kept once, and where in them its record and its packets lie.
#[derive(Drop)]
pub(crate) struct Clip {
    pub(crate) name: Name,
    pub(crate) start: u32,
    pub(crate) bytes: Vec<u8>,
    pub(crate) index: ClipIndex,
    pub(crate) record: Record,
    pub(crate) shape: Shape,
}

impl Model for Clip {
    ghost use Rattle.clip_store.specs.Clip.{ClipOf};

    ghost Value = { ClipOf };

    ghost view = { λ c. record {
      name = c.name;
      start = c.start;
      bytes = c.bytes.items;
      index = c.index;
      parameters = c.record;
      shape = c.shape;
    } };
}

/// The bytes of a place.
pub(crate) fn piece(bytes: &[u8], place: Place) -> &[u8]
    requires { LiesBefore (length bytes.now) place }
    ensures { result.now ≡ piece bytes.now place }
{
    let from = place.from as usize;
    &bytes[from..from + place.len as usize]
}

// Finds a file's record and packets.
fn index_of(alloc: Global, bytes: &[u8]) -> Result<ClipIndex, LoadFault>
    ensures { ReadsIndex bytes.now result }
{
    match read_clip(alloc, bytes) {
        Ok(index) => Ok(index),
        Err(ClipFault::NoMemory) => Err(LoadFault::NoMemory),
        Err(fault) => Err(LoadFault::Clip(fault)),
    }
}

// Reads a file's record.
fn record_of(alloc: Global, bytes: &[u8]) -> Result<Record, LoadFault>
    ensures { ReadsRecord bytes.now result }
{
    match Record::read(alloc, bytes) {
        Ok(parameters) => Ok(parameters),
        Err(RecordFault::NoMemory) => Err(LoadFault::NoMemory),
        Err(fault) => Err(LoadFault::Record(fault)),
    }
}

impl Clip {
    /// The clip of a file.
    pub(crate) fn of_file(
        alloc: Global,
        name: &str,
        start: u32,
        bytes: Vec<u8>,
    ) -> Result<Clip, LoadFault>
        ensures { Reads (file_of name.now start bytes.items) result }
    {
        let index = index_of(alloc, bytes.as_slice())?;
        let record = record_of(alloc, piece(bytes.as_slice(), index.private))?;
        record.lawful();
        let shape = record.shape(index.width, index.height).unwrap();
        if !record.suits(shape) {
            return Err(LoadFault::Slices);
        }
        let name = Name::from_text(String::from_str(alloc, name)?);
        Ok(Clip {
            name,
            start,
            bytes,
            index,
            record,
            shape,
        })
    }

    /// The bytes of the record.
    pub(crate) fn private(&self) -> &[u8]
        requires { IsClip self.now }
        ensures bytes { result.now ≡ record_bytes_of self.now }
        ensures few { IsRecordLength (length result.now) }
    {
        piece(self.bytes.as_slice(), self.index.private)
    }

    /// How many frames the clip has.
    pub(crate) fn frames(&self) -> u32
        requires { IsClip self.now }
        ensures { result ≡ length self.now.index.packets }
    {
        self.index.packets.as_slice().len() as u32
    }

    /// The coded bytes of a frame, from 0.
    pub(crate) fn packet(&self, frame: u32) -> &[u8]
        requires sound { IsClip self.now }
        requires frame { frame < length self.now.index.packets }
        ensures bytes { result.now ≡ packet_of self.now frame }
        ensures within { length result.now ≤ length self.now.bytes }
    {
        let place = self.index.packets.as_slice()[frame as usize];
        piece(self.bytes.as_slice(), place)
    }

    /// The picture of a frame, from 0, by the clip's own record, or the fault of its packet.
    pub(crate) fn decoded(
        &self,
        alloc: Global,
        frame: u32,
    ) -> Result<Result<Picture, FrameFault>, AllocError>
        requires sound { IsClip self.now }
        requires frame { frame < length self.now.index.packets }
        requires few { length self.now.bytes ≤ max_total_bytes }
        ensures { IfOk result (λ picture. picture ≡ frame_of self.now frame) }
    {
        match decode_frame(alloc, &self.record, self.shape, self.packet(frame)) {
            Ok(picture) => Ok(Ok(picture)),
            Err(DecodeFault::Frame(kind)) => Ok(Err(kind)),
            Err(DecodeFault::NoMemory) => Err(AllocError),
        }
    }
}
