//! Exports that are taken and ended.

use crate::holding::Numbered;
use crate::printing::segments_text;
use crate::reading::Words;
use render_core::{ExportJob, TakeReply};
use std::alloc::{AllocError, Global};
use std::process::Abort;
use time_list::Lane;
use tl_model::{Ending, Name, Segments};

/// The number, the name and the timeline of an export.
fn job_text(alloc: Global, job: &ExportJob) -> Result<String, AllocError> {
    let export = job.export();
    let name = job.name().as_str();
    let line = segments_text(alloc, job.state().as_slice())?;
    format!(in alloc; "taken {export} {name} {line}")
}

/// A take, and the end of what was taken.
pub fn export_text<L: Lane>(
    alloc: Global,
    board: &mut Numbered<L>,
    pass: u32,
    ending: Ending,
) -> Result<String, AllocError> {
    match board.take_export(pass) {
        TakeReply::Taken(job) => {
            let text = job_text(alloc, &job);
            board.end_export(pass, job, ending);
            text
        }
        TakeReply::Idle { len } => format!(in alloc; "idle {len}"),
        TakeReply::Stopped { len } => format!(in alloc; "stopped {len}"),
    }
}

/// The timeline of the export that waits, which is ended.
pub fn taken_state<L: Lane>(
    rt: &impl Abort,
    alloc: Global,
    board: &mut Numbered<L>,
) -> Result<Segments, AllocError> {
    match board.take_export(0) {
        TakeReply::Taken(job) => {
            let state = job.state().copy(alloc);
            board.end_export(0, job, Ending::Sink);
            state
        }
        TakeReply::Idle { len: _ } => panic!(rt; "no export waits"),
        TakeReply::Stopped { len: _ } => panic!(rt; "no export waits"),
    }
}

pub fn name_of(rt: &impl Abort, alloc: Global, word: &[u8]) -> Result<Name, AllocError> {
    let text = std::str::from_utf8(word).expect(rt, "a name");
    Ok(Name::from_text(String::from_str(alloc, text)?))
}

pub fn ending_of(rt: &impl Abort, words: &mut Words<'_>) -> Ending {
    if words.begins_with(b"sink".as_slice()) {
        Ending::Sink
    } else {
        Ending::Done {
            frames: words.number(rt),
        }
    }
}
