//! The script and the clip.
ghost use Rattle.std.specs.Prelude.{IfOk};
ghost use Rattle.work_gen.specs.Answer.{IsCount, Gives};

use crate::clip::clip_file;
use crate::script::script_text;
use std::alloc::{AllocError, Global};

/// A script, and the file of the clip that it names `g.mkv`.
#[derive(Debug, Drop)]
pub struct Generated {
    pub script: Vec<u8>,
    pub clip: Vec<u8>,
}

/// Makes a script, and the clip of 1 to 1,000 frames that it takes. The clip has 64 x 48 samples in 4:2:0 at 25 frames a
/// second, coded by the range coder in 2 x 2 slices. An error comes for want of memory alone.
pub fn generate(alloc: Global, frames: u32) -> Result<Generated, AllocError>
    requires { IsCount frames }
    ensures { IfOk result (Gives frames) }
{
    let script = script_text(alloc, frames)?;
    let clip = clip_file(alloc, frames)?;
    Ok(Generated { script, clip })
}
