//! Cues: where each Cluster begins.

ghost use Rattle.std.specs.Prelude.{◌≡◌, ◌++◌, ◌<◌, ◌^◌, length, OnOk, IfOk};
ghost use Rattle.std.specs.List.{flat_map};
ghost use Rattle.mkv_write.specs.File.{element, cue_point};
ghost use Rattle.mkv_elements.specs.declared.TheConstants.{CUES};

use crate::element::{put_element, put_number};
use mkv_elements::{
    CUE_CLUSTER_POSITION, CUE_POINT, CUE_TIME, CUE_TRACK, CUE_TRACK_POSITIONS, CUES,
};
use std::alloc::{AllocError, Global};

/// A Cluster in the Cues: its time in milliseconds, and the place of its first byte in the Segment's content.
#[derive(Clone, Copy, Debug)]
pub(crate) struct Cue {
    pub(crate) time: u64,
    pub(crate) place: u64,
}

/// Appends a CuePoint.
#[tactic(auto, unfolding(crate::specs::File::cue_point))]
fn put_cue_point(alloc: Global, out: &mut Vec<u8>, cue: Cue) -> Result<(), AllocError>
    ensures { OnOk result (out.new.items ≡ out.old.items ++ cue_point cue.time cue.place) }
{
    let mut positions = Vec::new(alloc);
    put_number(&mut positions, 1, CUE_TRACK, 1, 1)?;
    put_number(&mut positions, 1, CUE_CLUSTER_POSITION, 8, cue.place)?;
    let mut content = Vec::new(alloc);
    put_number(&mut content, 1, CUE_TIME, 8, cue.time)?;
    put_element(&mut content, 1, CUE_TRACK_POSITIONS, 1, &positions)?;
    put_element(out, 1, CUE_POINT, 1, &content)?;
    Ok(())
}

/// The content of Cues.
fn cue_points(alloc: Global, cues: &[Cue]) -> Result<Vec<u8>, AllocError>
    ensures { IfOk result (λ bytes. bytes.items ≡ flat_map (λ cue. cue_point cue.time cue.place) cues.now) }
{
    let mut content = Vec::new(alloc);
    for cue in cues {
        put_cue_point(alloc, &mut content, *cue)?;
    }
    Ok(content)
}

/// Cues.
pub(crate) fn cues(alloc: Global, cues: &[Cue]) -> Result<Vec<u8>, AllocError>
    ensures { IfOk result (λ bytes. bytes.items ≡ element 4 CUES 8 (flat_map (λ cue. cue_point cue.time cue.place) cues.now)) }
{
    let content = cue_points(alloc, cues)?;
    let mut bytes = Vec::new(alloc);
    put_element(&mut bytes, 4, CUES, 8, &content)?;
    Ok(bytes)
}
