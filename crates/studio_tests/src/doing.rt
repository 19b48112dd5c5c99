//! Calls and what they were told, as values that are compared.

use render_core::{AskReply, CancelReply, FileReply, Full, ReleaseReply, WantReply};
use tl_model::{Act, Edit, EditReply, Ending, FrameFault, Recipe, RenderFault, Side};

/// The name under which each export is asked for.
pub(crate) const EXPORT_NAME: &str = "o.mkv";

/// An edit of one of the kinds that are drawn.
#[derive(Clone, Copy, PartialEq)]
pub(crate) enum Change {
    Insert { at: u32, take: Side, len: u32 },
    Overwrite { at: u32, take: Side, len: u32 },
    Extract { at: u32, len: u32 },
    Lift { at: u32, len: u32 },
}

/// A call, or its entry.
#[derive(Clone, Copy, PartialEq)]
pub(crate) enum Doing {
    Edit(Change),
    Undo,
    Redo,
    Want { first: u32, len: u32 },
    Cancel { first: u32, len: u32 },
    Claim,
    File { job: u64 },
    Release { job: u64 },
    Play { n: u32 },
    Show { n: u32 },
    Ask,
    Take,
    End { export: u64, ending: Ending },
    Mark { turns: u32 },
    Skip,
    Stop,
}

/// What a call was told. The last three leave no entry.
#[derive(Clone, Copy, PartialEq)]
pub(crate) enum Told {
    Edited(EditReply),
    Wanted(WantReply),
    Cancelled(CancelReply),
    Claimed { job: u64, recipe: Recipe },
    Filed(FileReply),
    Released(ReleaseReply),
    Picture(u8),
    Fault(RenderFault),
    Pending(Recipe),
    PastEnd { len: u32 },
    Asked(AskReply),
    /// An export, and a number made of its sides.
    Taken { export: u64, sides: u64 },
    Noted,
    Idle { len: u64 },
    Stopped { len: u64 },
    Full(Full),
}

/// What is told of a frame of `test_media` whose result is filed: its number, or that it is the one that can't be rendered.
pub(crate) fn picture(recipe: Recipe) -> Told {
    match recipe {
        Recipe::Source { clip, frame: 9 } => Told::Fault(RenderFault {
            clip,
            frame: 9,
            kind: FrameFault::Empty,
        }),
        Recipe::Source { clip: _, frame } => Told::Picture((frame & 0xff) as u8),
        _ => Told::Picture(255),
    }
}

fn change_of(edit: &Edit) -> Option<Change> {
    match edit {
        Edit::Insert { at, take, len } => Some(Change::Insert {
            at: *at,
            take: *take,
            len: *len,
        }),
        Edit::Overwrite { at, take, len } => Some(Change::Overwrite {
            at: *at,
            take: *take,
            len: *len,
        }),
        Edit::Extract { at, len } => Some(Change::Extract { at: *at, len: *len }),
        Edit::Lift { at, len } => Some(Change::Lift { at: *at, len: *len }),
        _ => None,
    }
}

/// The edit.
pub(crate) fn edit_of(change: Change) -> Edit {
    match change {
        Change::Insert { at, take, len } => Edit::Insert { at, take, len },
        Change::Overwrite { at, take, len } => Edit::Overwrite { at, take, len },
        Change::Extract { at, len } => Edit::Extract { at, len },
        Change::Lift { at, len } => Edit::Lift { at, len },
    }
}

fn doing_of_work(act: &Act) -> Option<Doing> {
    match act {
        Act::Claim => Some(Doing::Claim),
        Act::File { job } => Some(Doing::File { job: *job }),
        Act::Release { job } => Some(Doing::Release { job: *job }),
        Act::Take => Some(Doing::Take),
        Act::End { export, ending } => Some(Doing::End {
            export: *export,
            ending: *ending,
        }),
        Act::Mark { turns } => Some(Doing::Mark { turns: *turns }),
        Act::Skip => Some(Doing::Skip),
        Act::Stop => Some(Doing::Stop),
        _ => None,
    }
}

/// What an entry says, where it is one of the kinds that are drawn.
pub(crate) fn doing_of(act: &Act) -> Option<Doing> {
    match act {
        Act::Edit(edit) => change_of(edit).map(Doing::Edit),
        Act::Undo => Some(Doing::Undo),
        Act::Redo => Some(Doing::Redo),
        Act::Want { first, len } => Some(Doing::Want {
            first: *first,
            len: *len,
        }),
        Act::Cancel { first, len } => Some(Doing::Cancel {
            first: *first,
            len: *len,
        }),
        Act::Play { n } => Some(Doing::Play { n: *n }),
        Act::Show { n } => Some(Doing::Show { n: *n }),
        Act::Ask { name } if name.as_str() == EXPORT_NAME => Some(Doing::Ask),
        _ => doing_of_work(act),
    }
}
