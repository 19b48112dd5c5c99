//! The library of clips, as the core of the editor knows it.

ghost use Rattle.std.specs.Prelude.{◌≡◌, ℕ, ◌<◌, ◌≤◌, IsTrue, IfOk, length};
ghost use Rattle.tl_limits.specs.Limits.{IsSide, IsRecordLength, max_packet_bytes};
ghost use Rattle.tl_model.specs.Media.{Library, IsLibrary, CanRender, Encodes, outcome_of};

use crate::fault::RenderFault;
use crate::recipe::Recipe;
use std::alloc::{AllocError, Global};
use std::sync::Arc;

/// Why a picture has no packet.
#[derive(Clone, Copy, Debug, PartialEq, Eq)]
pub enum EncodeFault {
    /// A slice has more bytes than its size can say.
    SliceTooLong,
    /// Memory ran out.
    NoMemory,
}

/// A picture that is shared, or why there is none.
#[derive(Drop)]
pub enum Picked<F> {
    Frame(Arc<F>),
    Fault(RenderFault),
}

/// Clips, a shape that pictures are shown in, and a way to code them. Clips and frames are counted from 0.
pub trait Media {
    type Frame: Drop;

    /// The library, as contracts see it.
    ghost library: { Self → Library Self.Frame };

    /// Tells, in a proof, what holds of every library. It does nothing.
    fn lawful(&self)
        ensures { IsLibrary (library self.now) };

    /// The number of clips.
    fn clips(&self) -> u32
        ensures { result ≡ (library self.now).clips };

    /// The number of frames of a clip.
    fn frames(&self, clip: u32) -> u32
        requires { clip < (library self.now).clips }
        ensures { result ≡ (library self.now).frames clip };

    /// Whether the clip's shape is the session's.
    fn fits(&self, clip: u32) -> bool
        requires { clip < (library self.now).clips }
        ensures { result ≡ (library self.now).fits clip };

    /// Whether the clip's record bytes are the output's, so that its packets can be copied.
    fn copies(&self, clip: u32) -> bool
        requires { clip < (library self.now).clips }
        ensures { result ≡ (library self.now).copies clip };

    /// The coded bytes of a frame.
    fn packet(&self, clip: u32, frame: u32) -> &[u8]
        requires clip { clip < (library self.now).clips }
        requires frame { frame < (library self.now).frames clip }
        ensures bytes { result.now ≡ (library self.now).packet clip frame }
        ensures bound { length result.now ≤ max_packet_bytes };

    /// The record bytes of the output.
    fn private(&self) -> &[u8]
        ensures bytes { result.now ≡ (library self.now).record_bytes }
        ensures length { IsRecordLength (length result.now) };

    /// Width and height of the output, in samples.
    fn size(&self) -> (u32, u32)
        ensures width { result.0 ≡ (library self.now).width }
        ensures height { result.1 ≡ (library self.now).height }
        ensures wide { IsSide result.0 }
        ensures high { IsSide result.1 };

    /// The picture of a recipe, or the fault of one of its sides.
    fn render(&self, alloc: Global, recipe: Recipe) -> Result<Picked<Self::Frame>, AllocError>
        requires { CanRender (library self.now) recipe }
        ensures { IfOk result (λ picked. outcome_of picked ≡ (library self.now).render recipe) };

    /// The packet of a picture.
    fn encode(&self, alloc: Global, frame: &Self::Frame) -> Result<Vec<u8>, EncodeFault>
        requires { IsTrue ((library self.now).has_shape frame.now) }
        ensures { Encodes ((library self.now).coded frame.now) result };
}
