//! The journal: each call that changed a session or was answered from its state, in order.

ghost use Rattle.std.specs.Prelude.{◌≡◌, IfOk};

use crate::edit::Edit;
use crate::fault::Ending;
use crate::name::Name;
use std::alloc::{AllocError, Global};
use std::marker::Model;

/// What a call did. Frames are counted from 0, jobs and exports from 1.
#[derive(Debug, Drop)]
pub enum Act {
    /// An edit, made or refused.
    Edit(Edit),
    /// The last edit was undone, or there was none.
    Undo,
    /// The last undone edit was made again, or there was none.
    Redo,
    /// `len` frames from `first` on were wanted.
    Want { first: u32, len: u32 },
    /// The wanted ones of `len` frames from `first` on were cancelled.
    Cancel { first: u32, len: u32 },
    /// The lowest queued job was taken.
    Claim,
    /// A job was ended with its result.
    File { job: u64 },
    /// A job was given back.
    Release { job: u64 },
    /// Frame `n` was played.
    Play { n: u32 },
    /// Frame `n` was shown.
    Show { n: u32 },
    /// An export of the timeline to a file of that name was asked for.
    Ask { name: Name },
    /// The lowest export that nobody has was taken.
    Take,
    /// A taken export was ended.
    End { export: u64, ending: Ending },
    /// A number of turns of work was told.
    Mark { turns: u32 },
    /// A call was passed over.
    Skip,
    /// The session was stopped.
    Stop,
}

impl Act {
    /// The same act again.
    pub fn copy(&self, alloc: Global) -> Result<Act, AllocError>
        ensures { IfOk result (λ a. a ≡ self.now) }
    {
        match self {
            Act::Edit(edit) => {
                let edit = edit.copy(alloc)?;
                Ok(Act::Edit(edit))
            }
            Act::Undo => Ok(Act::Undo),
            Act::Redo => Ok(Act::Redo),
            Act::Want { first, len } => Ok(Act::Want {
                first: *first,
                len: *len,
            }),
            Act::Cancel { first, len } => Ok(Act::Cancel {
                first: *first,
                len: *len,
            }),
            Act::Claim => Ok(Act::Claim),
            Act::File { job } => Ok(Act::File { job: *job }),
            Act::Release { job } => Ok(Act::Release { job: *job }),
            Act::Play { n } => Ok(Act::Play { n: *n }),
            Act::Show { n } => Ok(Act::Show { n: *n }),
            Act::Ask { name } => {
                let name = name.copy(alloc)?;
                Ok(Act::Ask { name })
            }
            Act::Take => Ok(Act::Take),
            Act::End { export, ending } => Ok(Act::End {
                export: *export,
                ending: *ending,
            }),
            Act::Mark { turns } => Ok(Act::Mark { turns: *turns }),
            Act::Skip => Ok(Act::Skip),
            Act::Stop => Ok(Act::Stop),
        }
    }
}

/// One call: the number of its caller, and what it did.
#[derive(Debug, Drop)]
pub struct Entry {
    pub pass: u32,
    pub act: Act,
}

impl Entry {
    /// The same entry again.
    pub fn copy(&self, alloc: Global) -> Result<Entry, AllocError>
        ensures { IfOk result (λ e. e ≡ self.now) }
    {
        let act = self.act.copy(alloc)?;
        Ok(Entry {
            pass: self.pass,
            act,
        })
    }
}

/// A list of entries. They are counted from 1.
#[derive(Debug, Drop)]
pub struct Journal {
    items: Vec<Entry>,
}

impl Model for Journal {
    ghost use Rattle.std.specs.Prelude.{List};
    ghost use Rattle.tl_model.specs.declared.journal.Entry.{Entry};

    ghost Value = { List Entry };

    ghost view = { λ j. j.items.items };
}

fn copies(alloc: Global, items: &[Entry]) -> Result<Vec<Entry>, AllocError>
    ensures { IfOk result (λ v. v.items ≡ items.now) }
{
    let mut copied = Vec::with_capacity(alloc, items.len())?;
    for entry in items {
        let entry = entry.copy(alloc)?;
        copied.push(entry)?;
    }
    Ok(copied)
}

impl Journal {
    pub fn from_vec(items: Vec<Entry>) -> Journal
        ensures { result ≡ items.items }
    {
        Journal { items }
    }

    pub fn as_slice(&self) -> &[Entry]
        ensures { result.now ≡ self.now }
    {
        self.items.as_slice()
    }

    pub fn copy(&self, alloc: Global) -> Result<Journal, AllocError>
        ensures { IfOk result (λ j. j ≡ self.now) }
    {
        let items = copies(alloc, self.items.as_slice())?;
        Ok(Journal { items })
    }
}
