//! What calls are told, as words.

use render_core::{
    AskReply, CancelReply, FileReply, Full, PlayReply, ReleaseReply, ShowReply, WantReply,
};
use std::alloc::{AllocError, Global};
use tl_model::{EditReply, Mix, Recipe, RenderFault, Segment, Side};

fn side_text(alloc: Global, side: Side) -> Result<String, AllocError> {
    match side {
        Side::Black => format!(in alloc; "black"),
        Side::Clip { clip, frame } => format!(in alloc; "{clip} {frame}"),
    }
}

pub fn recipe_text(alloc: Global, recipe: Recipe) -> Result<String, AllocError> {
    match recipe {
        Recipe::Black => format!(in alloc; "black"),
        Recipe::Source { clip, frame } => format!(in alloc; "{clip} {frame}"),
        Recipe::Mix { from, to, weight } => {
            let outgoing = side_text(alloc, from)?;
            let incoming = side_text(alloc, to)?;
            format!(in alloc; "mix {outgoing} {incoming} {weight}")
        }
    }
}

fn mix_text(alloc: Global, mix: Option<Mix>) -> Result<String, AllocError> {
    match mix {
        None => format!(in alloc; ""),
        Some(
            Mix {
                from,
                done,
                steps,
                total,
            },
        ) => {
            let outgoing = side_text(alloc, from)?;
            format!(in alloc; " mix {outgoing} {done} {steps} {total}")
        }
    }
}

fn segment_text(alloc: Global, segment: &Segment) -> Result<String, AllocError> {
    let first = side_text(alloc, segment.first)?;
    let len = segment.len;
    let mix = mix_text(alloc, segment.mix)?;
    format!(in alloc; "| {first} {len}{mix}")
}

/// Segments as `Words::segments` reads them.
pub fn segments_text(alloc: Global, segments: &[Segment]) -> Result<String, AllocError> {
    let mut text = String::new(alloc);
    for segment in segments {
        let next = segment_text(alloc, segment)?;
        if !text.is_empty() {
            text.push_str(" ")?;
        }
        text.push_str(next.as_str())?;
    }
    Ok(text)
}

pub fn full_text(alloc: Global, why: Full) -> Result<String, AllocError> {
    match why {
        Full::JournalFull { len, owed } => format!(in alloc; "full {len} {owed}"),
        Full::NoMemory => format!(in alloc; "no memory"),
    }
}

fn past_text(alloc: Global, len: u32) -> Result<String, AllocError> {
    format!(in alloc; "past {len}")
}

fn fault_text(alloc: Global, fault: RenderFault) -> Result<String, AllocError> {
    let RenderFault { clip, frame, kind } = fault;
    format!(in alloc; "fault {clip} {frame} {kind:?}")
}

pub fn edit_text(alloc: Global, made: Result<EditReply, Full>) -> Result<String, AllocError> {
    match made {
        Ok(EditReply::Ok { len }) => format!(in alloc; "ok {len}"),
        Ok(EditReply::Refused(why)) => format!(in alloc; "refused {why:?}"),
        Ok(EditReply::NothingToUndo) => format!(in alloc; "refused NothingToUndo"),
        Ok(EditReply::NothingToRedo) => format!(in alloc; "refused NothingToRedo"),
        Err(why) => full_text(alloc, why),
    }
}

pub fn want_text(alloc: Global, made: Result<WantReply, Full>) -> Result<String, AllocError> {
    match made {
        Ok(WantReply::Wanted { count }) => format!(in alloc; "wanted {count}"),
        Ok(WantReply::PastEnd { len }) => past_text(alloc, len),
        Err(why) => full_text(alloc, why),
    }
}

pub fn cancel_text(alloc: Global, made: Result<CancelReply, Full>) -> Result<String, AllocError> {
    match made {
        Ok(CancelReply::Cancelled { count }) => format!(in alloc; "cancelled {count}"),
        Ok(CancelReply::PastEnd { len }) => past_text(alloc, len),
        Err(why) => full_text(alloc, why),
    }
}

pub fn file_text(alloc: Global, reply: FileReply) -> Result<String, AllocError> {
    match reply {
        FileReply::Filed => format!(in alloc; "filed"),
        FileReply::Closed { at } => format!(in alloc; "closed {at}"),
    }
}

pub fn release_text(alloc: Global, reply: ReleaseReply) -> Result<String, AllocError> {
    match reply {
        ReleaseReply::Released => format!(in alloc; "released"),
        ReleaseReply::Closed { at } => format!(in alloc; "closed {at}"),
    }
}

pub fn play_text(alloc: Global, made: Result<PlayReply<u8>, Full>) -> Result<String, AllocError> {
    match made {
        Ok(PlayReply::Frame(frame)) => {
            let number = *frame;
            format!(in alloc; "frame {number}")
        }
        Ok(PlayReply::Fault(fault)) => fault_text(alloc, fault),
        Ok(PlayReply::Pending { recipe }) => {
            let pending = recipe_text(alloc, recipe)?;
            format!(in alloc; "pending {pending}")
        }
        Ok(PlayReply::PastEnd { len }) => past_text(alloc, len),
        Err(why) => full_text(alloc, why),
    }
}

pub fn show_text(alloc: Global, made: Result<ShowReply<u8>, Full>) -> Result<String, AllocError> {
    match made {
        Ok(ShowReply::Frame(frame)) => {
            let number = *frame;
            format!(in alloc; "frame {number}")
        }
        Ok(ShowReply::Fault(fault)) => fault_text(alloc, fault),
        Ok(ShowReply::Render { recipe }) => {
            let wanted = recipe_text(alloc, recipe)?;
            format!(in alloc; "render {wanted}")
        }
        Ok(ShowReply::PastEnd { len }) => past_text(alloc, len),
        Err(why) => full_text(alloc, why),
    }
}

pub fn ask_text(alloc: Global, made: Result<AskReply, Full>) -> Result<String, AllocError> {
    match made {
        Ok(AskReply::Asked { export }) => format!(in alloc; "asked {export}"),
        Ok(AskReply::EmptyTimeline) => format!(in alloc; "refused EmptyTimeline"),
        Err(why) => full_text(alloc, why),
    }
}

pub fn note_text(alloc: Global, made: Result<(), Full>) -> Result<String, AllocError> {
    match made {
        Ok(()) => format!(in alloc; "noted"),
        Err(why) => full_text(alloc, why),
    }
}
