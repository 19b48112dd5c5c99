//! What stands before the first Cluster.

ghost use Rattle.std.specs.Prelude.{◌≡◌, ◌≤◌, ◌+◌, ◌++◌, length, OnOk, IfOk};
ghost use Rattle.tl_limits.specs.Limits.{max_record_bytes};
ghost use Rattle.mkv_write.specs.File.{ebml_header, segment_head, info, video, track, lead};

use crate::element::{UNKNOWN_SIZE, put_element, put_id, put_number, put_size};
use mkv_elements::{
    CODEC_ID, CODEC_PRIVATE, DOC_TYPE, DOC_TYPE_READ_VERSION, DOC_TYPE_VERSION, EBML,
    EBML_MAX_ID_LENGTH, EBML_MAX_SIZE_LENGTH, EBML_READ_VERSION, EBML_VERSION, FLAG_LACING, INFO,
    MUXING_APP, PIXEL_HEIGHT, PIXEL_WIDTH, SEGMENT, TIMESTAMP_SCALE, TRACK_ENTRY, TRACK_NUMBER,
    TRACK_TYPE, TRACK_UID, TRACKS, VIDEO, WRITING_APP,
};
use std::alloc::{AllocError, Global};

/// The EBML header and the head of the Segment.
#[tactic(auto, unfolding(crate::specs::File::ebml_header, crate::specs::File::segment_head))]
pub(crate) fn preamble(alloc: Global) -> Result<Vec<u8>, AllocError>
    ensures { IfOk result (λ bytes. bytes.items ≡ ebml_header ++ segment_head) }
{
    let mut header = Vec::new(alloc);
    put_number(&mut header, 2, EBML_VERSION, 1, 1)?;
    put_number(&mut header, 2, EBML_READ_VERSION, 1, 1)?;
    put_number(&mut header, 2, EBML_MAX_ID_LENGTH, 1, 4)?;
    put_number(&mut header, 2, EBML_MAX_SIZE_LENGTH, 1, 8)?;
    put_element(&mut header, 2, DOC_TYPE, 1, b"matroska")?;
    put_number(&mut header, 2, DOC_TYPE_VERSION, 1, 4)?;
    put_number(&mut header, 2, DOC_TYPE_READ_VERSION, 1, 2)?;
    let mut bytes = Vec::new(alloc);
    put_element(&mut bytes, 4, EBML, 1, &header)?;
    put_id(&mut bytes, 4, SEGMENT)?;
    put_size(&mut bytes, 8, UNKNOWN_SIZE)?;
    Ok(bytes)
}

/// Appends Info: timestamps in milliseconds, and which program wrote the file.
#[tactic(auto, unfolding(crate::specs::File::info))]
fn put_info(alloc: Global, out: &mut Vec<u8>) -> Result<(), AllocError>
    ensures { OnOk result (out.new.items ≡ out.old.items ++ info) }
{
    let mut content = Vec::new(alloc);
    put_number(&mut content, 3, TIMESTAMP_SCALE, 3, 1_000_000)?;
    put_element(&mut content, 2, MUXING_APP, 1, b"ffv1-timeline")?;
    put_element(&mut content, 2, WRITING_APP, 1, b"ffv1-timeline")?;
    put_element(out, 4, INFO, 1, &content)?;
    Ok(())
}

/// Appends Video: the size of the picture.
#[tactic(auto, unfolding(crate::specs::File::video))]
fn put_video(alloc: Global, out: &mut Vec<u8>, width: u32, height: u32) -> Result<(), AllocError>
    ensures { OnOk result (out.new.items ≡ out.old.items ++ video width height) }
{
    let mut content = Vec::new(alloc);
    put_number(&mut content, 1, PIXEL_WIDTH, 2, u64::from(width))?;
    put_number(&mut content, 1, PIXEL_HEIGHT, 2, u64::from(height))?;
    put_element(out, 1, VIDEO, 1, &content)?;
    Ok(())
}

/// The content of the one track.
#[tactic(auto, unfolding(crate::specs::File::track))]
fn track(alloc: Global, private: &[u8], width: u32, height: u32) -> Result<Vec<u8>, AllocError>
    requires { length private.now ≤ max_record_bytes }
    ensures { IfOk result (λ bytes. bytes.items ≡ track private.now width height) }
{
    let mut content = Vec::new(alloc);
    put_number(&mut content, 1, TRACK_NUMBER, 1, 1)?;
    put_number(&mut content, 2, TRACK_UID, 1, 1)?;
    put_number(&mut content, 1, TRACK_TYPE, 1, 1)?;
    put_number(&mut content, 1, FLAG_LACING, 1, 0)?;
    put_element(&mut content, 1, CODEC_ID, 1, b"V_FFV1")?;
    put_element(&mut content, 2, CODEC_PRIVATE, 4, private)?;
    put_video(alloc, &mut content, width, height)?;
    Ok(content)
}

/// Info and Tracks, with which the Segment's content begins.
#[tactic(auto, unfolding(crate::specs::File::lead))]
pub(crate) fn lead(
    alloc: Global,
    private: &[u8],
    width: u32,
    height: u32,
) -> Result<Vec<u8>, AllocError>
    requires { length private.now ≤ max_record_bytes }
    ensures { IfOk result (λ bytes. bytes.items ≡ lead private.now width height) }
{
    let mut bytes = Vec::new(alloc);
    put_info(alloc, &mut bytes)?;
    let track = track(alloc, private, width, height)?;
    let mut tracks = Vec::new(alloc);
    put_element(&mut tracks, 1, TRACK_ENTRY, 4, &track)?;
    put_element(&mut bytes, 4, TRACKS, 4, &tracks)?;
    Ok(bytes)
}
