//! What the output of a session is coded by.
ghost use Rattle.std.specs.Prelude.{◌≡◌, IfOk, All, Ok};
ghost use Rattle.pic_planes.specs.Shape.{IsShape};
ghost use Rattle.ffv1_record.specs.Default.{default_parameters};
ghost use Rattle.ffv1_record.specs.Spelling.{record_bytes};
ghost use Rattle.clip_store.specs.Clip.{IsClip};
ghost use Rattle.clip_store.specs.Library.{IsOutput, record_bytes_of};
ghost use Rattle.tl_model.specs.Media.{Encodes};
ghost use Rattle.clip_store.specs.Render.{coded};
ghost use Rattle.clip_store.specs.Readying.{IsGridFor, IsFormat, IsOutputOf};

use crate::clip::Clip;
use ffv1_frame::encode_frame;
use ffv1_record::{Coder, Record, default_record};
use pic_planes::{Picture, Shape};
use std::alloc::{AllocError, Global};
use std::marker::Model;
use tl_model::EncodeFault;

/// The shape and the record of the output.
#[derive(Clone, Copy, Debug, PartialEq, Eq)]
pub enum Format {
    /// Those of a clip, by its number.
    As(u32),
    /// A shape, and the default record of a coder with `h` columns and `v` rows of slices.
    Own {
        shape: Shape,
        coder: Coder,
        h: u32,
        v: u32,
    },
}

/// The shape of the output's pictures, and the bytes of its record with what they say.
#[derive(Drop)]
pub(crate) struct Output {
    pub(crate) shape: Shape,
    pub(crate) bytes: Vec<u8>,
    pub(crate) record: Record,
}

impl Model for Output {
    ghost use Rattle.clip_store.specs.Library.{OutputOf};

    ghost Value = { OutputOf };

    ghost view = { λ o. record { shape = o.shape; bytes = o.bytes.items; parameters = o.record } };
}

impl Output {
    /// The output of a format.
    pub(crate) fn of_format(
        alloc: Global,
        clips: &[Clip],
        format: Format,
    ) -> Result<Output, AllocError>
        requires format { IsFormat clips.now format }
        requires clips { All IsClip clips.now }
        ensures { IfOk result (λ output. IsOutputOf clips.now format output) }
    {
        match format {
            Format::As(clip) => Output::of_clip(alloc, &clips[clip as usize]),
            Format::Own { shape, coder, h, v } => Output::of_default(alloc, shape, coder, h, v),
        }
    }

    // Pictures of a clip's shape, coded by a copy of its record.
    fn of_clip(alloc: Global, clip: &Clip) -> Result<Output, AllocError>
        requires { IsClip clip.now }
        ensures shape { IfOk result (λ output. output.shape ≡ clip.now.shape) }
        ensures bytes { IfOk result (λ output. output.bytes ≡ record_bytes_of clip.now) }
        ensures sound { IfOk result (λ output. IsOutput output) }
    {
        let shape = clip.shape;
        let bytes = Vec::from_slice(alloc, clip.private())?;
        match Record::read(alloc, bytes.as_slice()) {
            Ok(record) => {
                record.lawful();
                Ok(Output {
                    shape,
                    bytes,
                    record,
                })
            }
            Err(_) => Err(AllocError),
        }
    }

    // Pictures of a shape, coded by the default record.
    fn of_default(
        alloc: Global,
        shape: Shape,
        coder: Coder,
        h: u32,
        v: u32,
    ) -> Result<Output, AllocError>
        requires { IsGridFor shape h v }
        ensures shape { IfOk result (λ output. output.shape ≡ shape) }
        ensures bytes { IfOk result (λ output. output.bytes ≡ record_bytes (default_parameters coder shape.chroma h v)) }
        ensures sound { IfOk result (λ output. IsOutput output) }
    {
        let record = default_record(alloc, shape, coder, h, v)?;
        record.lawful();
        let _width = shape.width();
        let bytes = record.write(alloc)?;
        Ok(Output {
            shape,
            bytes,
            record,
        })
    }

    /// The packet of a picture of the output's shape.
    pub(crate) fn encode(&self, alloc: Global, picture: &Picture) -> Result<Vec<u8>, EncodeFault>
        requires sound { IsOutput self.now }
        requires shape { picture.now.shape ≡ self.now.shape }
        ensures { Encodes (coded self.now picture.now) result }
    {
        let _shape = picture.shape();
        encode_frame(alloc, &self.record, picture)
    }
}
