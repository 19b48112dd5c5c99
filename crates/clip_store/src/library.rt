//! The library of a session.
ghost use Rattle.std.specs.Prelude.{◌≡◌, ◌<◌, ◌≤◌, ◌*◌, IfOk, IsTrue, length, bytes_eq};
ghost use Rattle.std.specs.Global.{Vec};
ghost use Rattle.tl_limits.specs.Limits.{IsSide, IsRecordLength, max_total_bytes};
ghost use Rattle.tl_model.specs.Media.{IsLibrary, IsShown, CanRender};
ghost use Rattle.clip_store.specs.Clip.{IsClip};
ghost use Rattle.clip_store.specs.Library.{clip_at};
ghost use Rattle.clip_store.specs.Render.{shown, mixed, render, library_of};

use crate::clip::Clip;
use crate::dissolve::blend;
use crate::format::Output;
use crate::shapes::same_shape;
use ffv1_frame::written_is_read_back;
use pic_planes::Picture;
use std::alloc::{AllocError, Global};
use std::marker::Model;
use std::sync::Arc;
use tl_model::{EncodeFault, Media, Picked, Recipe, RenderFault, Side};

/// The clips of a session, and what its output is coded by. Each clip's pictures are decoded by the clip's own record.
#[derive(Drop)]
pub struct Library {
    pub(crate) clips: Vec<Clip>,
    pub(crate) output: Output,
}

// Clauses see the list of clips, and the output.
impl Model for Library {
    ghost use Rattle.clip_store.specs.Loading.{AreClips};
    ghost use Rattle.clip_store.specs.Library.{LibraryOf, IsOutput};

    ghost Value = { LibraryOf };

    ghost view = { λ l. record { clips = l.clips.items; output = l.output } };

    ghost invariant = { λ l. AreClips l.clips.items × IsOutput l.output };
}

impl Library {
    // A clip by its number.
    fn clip(&self, clip: u32) -> &Clip
        requires { clip < length self.now.clips }
        ensures clip { result.now ≡ clip_at self.now.clips clip }
        ensures sound { IsClip result.now }
        ensures few { length result.now.bytes ≤ max_total_bytes }
    {
        &self.clips[clip as usize]
    }

    // The picture of a side, or the fault of its frame.
    fn shown(&self, alloc: Global, side: Side) -> Result<Result<Picture, RenderFault>, AllocError>
        requires { IsShown (library_of self.now) side }
        ensures { IfOk result (λ picture. picture ≡ shown self.now side) }
    {
        match side {
            Side::Black => Ok(Ok(Picture::blank(alloc, self.output.shape)?)),
            Side::Clip { clip, frame } => match self.clip(clip).decoded(alloc, frame)? {
                Ok(picture) => Ok(Ok(picture)),
                Err(kind) => Ok(Err(RenderFault { clip, frame, kind })),
            },
        }
    }

    // A step of a dissolve. The fault of the outgoing side comes first.
    fn mixed(
        &self,
        alloc: Global,
        from: Side,
        to: Side,
        weight: u8,
    ) -> Result<Result<Picture, RenderFault>, AllocError>
        requires from { IsShown (library_of self.now) from }
        requires to { IsShown (library_of self.now) to }
        ensures { IfOk result (λ picture. picture ≡ mixed weight (shown self.now from) (shown self.now to)) }
    {
        match self.shown(alloc, from)? {
            Err(fault) => Ok(Err(fault)),
            Ok(from) => match self.shown(alloc, to)? {
                Err(fault) => Ok(Err(fault)),
                Ok(to) => Ok(Ok(blend(alloc, &from, &to, weight)?)),
            },
        }
    }

    // The picture of a recipe, or the fault of one of its sides.
    fn rendered(
        &self,
        alloc: Global,
        recipe: Recipe,
    ) -> Result<Result<Picture, RenderFault>, AllocError>
        requires { CanRender (library_of self.now) recipe }
        ensures { IfOk result (λ picture. picture ≡ render self.now recipe) }
    {
        match recipe {
            Recipe::Black => self.shown(alloc, Side::Black),
            Recipe::Source { clip, frame } => self.shown(alloc, Side::Clip { clip, frame }),
            Recipe::Mix { from, to, weight } => self.mixed(alloc, from, to, weight),
        }
    }
}

impl Media for Library {
    type Frame = Picture;

    ghost library = { λ l. library_of l };

    #[tactic(auto, using(crate::proofs::Lawful::lawful))]
    fn lawful(&self) {
        written_is_read_back();
        let _output = &self.output;
    }

    fn clips(&self) -> u32 {
        self.clips.len() as u32
    }

    fn frames(&self, clip: u32) -> u32 {
        self.clip(clip).frames()
    }

    fn fits(&self, clip: u32) -> bool {
        same_shape(self.clip(clip).shape, self.output.shape)
    }

    fn copies(&self, clip: u32) -> bool {
        self.clip(clip).private() == self.output.bytes.as_slice()
    }

    fn packet(&self, clip: u32, frame: u32) -> &[u8] {
        self.clip(clip).packet(frame)
    }

    fn private(&self) -> &[u8] {
        self.output.bytes.as_slice()
    }

    fn size(&self) -> (u32, u32) {
        (self.output.shape.width(), self.output.shape.height())
    }

    fn render(&self, alloc: Global, recipe: Recipe) -> Result<Picked<Picture>, AllocError> {
        match self.rendered(alloc, recipe)? {
            Ok(picture) => match Arc::new(alloc, picture) {
                Ok(frame) => Ok(Picked::Frame(frame)),
                Err(_) => Err(AllocError),
            },
            Err(fault) => Ok(Picked::Fault(fault)),
        }
    }

    fn encode(&self, alloc: Global, frame: &Picture) -> Result<Vec<u8>, EncodeFault> {
        self.output.encode(alloc, frame)
    }
}
