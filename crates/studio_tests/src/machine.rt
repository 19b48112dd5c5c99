//! A plain machine, written from the table of docs/ARCHITECTURE.md and not from the program. It keeps whole timelines, and looks
//! through all jobs and results at each entry. Its library is that of `test_media`.

use crate::doing::{Change, Doing, Told, picture};
use crate::line::{changed, number_of_line, range, shows};
use render_core::{AskReply, CancelReply, FileReply, Full, ReleaseReply, WantReply};
use std::alloc::{AllocError, Global};
use std::mem;
use tl_model::{EditReply, Recipe, Side};

/// A wanted recipe: who holds it, and the entry that closed it.
#[derive(Clone, Copy)]
struct Job {
    recipe: Recipe,
    holder: Option<u32>,
    closed: Option<u64>,
}

impl Job {
    fn is_queued(&self) -> bool {
        self.holder.is_none() && self.closed.is_none()
    }
}

/// An export: the number of its timeline, who took it, and whether it was ended.
#[derive(Clone, Copy)]
struct Export {
    sides: u64,
    taker: Option<u32>,
    is_ended: bool,
}

/// The state of a session, with what limits it.
#[derive(Drop)]
pub(crate) struct Machine {
    alloc: Global,
    cache: usize,
    limit: u64,
    line: Vec<Side>,
    done: Vec<Vec<Side>>,
    undone: Vec<Vec<Side>>,
    jobs: Vec<Job>,
    filed: Vec<Recipe>,
    exports: Vec<Export>,
    is_stopped: bool,
}

fn is_among(recipes: &[Recipe], recipe: Recipe) -> bool {
    for other in recipes {
        if *other == recipe {
            return true;
        }
    }
    false
}

fn has_open(jobs: &[Job], recipe: Recipe) -> bool {
    for job in jobs {
        if job.closed.is_none() && job.recipe == recipe {
            return true;
        }
    }
    false
}

impl Machine {
    /// An empty session.
    pub(crate) fn new(alloc: Global, cache: usize, limit: u64) -> Machine {
        Machine {
            alloc,
            cache,
            limit,
            line: Vec::new(alloc),
            done: Vec::new(alloc),
            undone: Vec::new(alloc),
            jobs: Vec::new(alloc),
            filed: Vec::new(alloc),
            exports: Vec::new(alloc),
            is_stopped: false,
        }
    }

    fn len(&self) -> u32 {
        u32::try_from(self.line.len()).unwrap_or(u32::MAX)
    }

    /// Closes the open jobs whose recipe no frame shows.
    fn close_gone(&mut self, at: u64) {
        let line = self.line.as_slice();
        for job in &mut self.jobs {
            if job.closed.is_none() && !shows(line, job.recipe) {
                job.closed = Some(at);
            }
        }
    }

    fn edit(&mut self, at: u64, change: Change) -> Result<Told, AllocError> {
        match changed(self.alloc, self.line.as_slice(), change)? {
            Err(why) => Ok(Told::Edited(EditReply::Refused(why))),
            Ok(line) => {
                let before = mem::replace(&mut self.line, line);
                self.done.push(before)?;
                self.undone = Vec::new(self.alloc);
                self.close_gone(at);
                Ok(Told::Edited(EditReply::Ok { len: self.len() }))
            }
        }
    }

    fn undo(&mut self, at: u64) -> Result<Told, AllocError> {
        let Some(line) = self.done.pop() else {
            return Ok(Told::Edited(EditReply::NothingToUndo));
        };
        let after = mem::replace(&mut self.line, line);
        self.undone.push(after)?;
        self.close_gone(at);
        Ok(Told::Edited(EditReply::Ok { len: self.len() }))
    }

    fn redo(&mut self, at: u64) -> Result<Told, AllocError> {
        let Some(line) = self.undone.pop() else {
            return Ok(Told::Edited(EditReply::NothingToRedo));
        };
        let before = mem::replace(&mut self.line, line);
        self.done.push(before)?;
        self.close_gone(at);
        Ok(Told::Edited(EditReply::Ok { len: self.len() }))
    }

    fn want(&mut self, first: u32, len: u32) -> Result<Told, AllocError> {
        let Some(wanted) = range(self.line.as_slice(), first, len) else {
            return Ok(Told::Wanted(WantReply::PastEnd { len: self.len() }));
        };
        let mut count = 0u32;
        for side in wanted {
            let recipe = side.alone();
            if !is_among(self.filed.as_slice(), recipe) && !has_open(self.jobs.as_slice(), recipe) {
                let job = Job {
                    recipe,
                    holder: None,
                    closed: None,
                };
                self.jobs.push(job)?;
                count = count.wrapping_add(1);
            }
        }
        Ok(Told::Wanted(WantReply::Wanted { count }))
    }

    fn cancel(&mut self, at: u64, first: u32, len: u32) -> Told {
        let Some(wanted) = range(self.line.as_slice(), first, len) else {
            return Told::Cancelled(CancelReply::PastEnd { len: self.len() });
        };
        let mut count = 0u32;
        for job in &mut self.jobs {
            if job.closed.is_none() && shows(wanted, job.recipe) {
                job.closed = Some(at);
                count = count.wrapping_add(1);
            }
        }
        Told::Cancelled(CancelReply::Cancelled { count })
    }

    /// The place of the first job that waits.
    fn first_queued(&self) -> Option<usize> {
        for place in 0..self.jobs.len() {
            if self.jobs[place].is_queued() {
                return Some(place);
            }
        }
        None
    }

    fn claim(&mut self, pass: u32) -> Option<Told> {
        if self.is_stopped {
            return None;
        }
        let place = self.first_queued()?;
        let job = self.jobs.get_mut(place)?;
        job.holder = Some(pass);
        Some(Told::Claimed {
            job: (place as u64).wrapping_add(1),
            recipe: job.recipe,
        })
    }

    /// A job that the pass holds, which it lets go.
    fn let_go(&mut self, pass: u32, number: u64) -> Option<Job> {
        let job = self.jobs.get_mut(number.wrapping_sub(1) as usize)?;
        if job.holder != Some(pass) {
            return None;
        }
        job.holder = None;
        Some(*job)
    }

    fn close(&mut self, number: u64, at: u64) {
        if let Some(job) = self.jobs.get_mut(number.wrapping_sub(1) as usize) {
            job.closed = Some(at);
        }
    }

    /// A result comes first among the filed ones, of which those over the cache's size are dropped.
    fn put_first(&mut self, recipe: Recipe) -> Result<(), AllocError> {
        let mut filed = Vec::new(self.alloc);
        filed.push(recipe)?;
        for other in &self.filed {
            if *other != recipe && filed.len() < self.cache {
                filed.push(*other)?;
            }
        }
        self.filed = filed;
        Ok(())
    }

    fn file(&mut self, at: u64, pass: u32, number: u64) -> Result<Option<Told>, AllocError> {
        let Some(job) = self.let_go(pass, number) else {
            return Ok(None);
        };
        if let Some(at) = job.closed {
            return Ok(Some(Told::Filed(FileReply::Closed { at })));
        }
        self.close(number, at);
        self.put_first(job.recipe)?;
        Ok(Some(Told::Filed(FileReply::Filed)))
    }

    fn release(&mut self, pass: u32, number: u64) -> Option<Told> {
        let job = self.let_go(pass, number)?;
        Some(Told::Released(match job.closed {
            Some(at) => ReleaseReply::Closed { at },
            None => ReleaseReply::Released,
        }))
    }

    fn play(&mut self, n: u32) -> Result<Told, AllocError> {
        let Some(side) = self.line.get(n as usize) else {
            return Ok(Told::PastEnd { len: self.len() });
        };
        let recipe = side.alone();
        if !is_among(self.filed.as_slice(), recipe) {
            return Ok(Told::Pending(recipe));
        }
        self.put_first(recipe)?;
        Ok(picture(recipe))
    }

    /// A show is told what a play is, but the picture where that is pending.
    fn show(&mut self, n: u32) -> Result<Told, AllocError> {
        match self.play(n)? {
            Told::Pending(recipe) => Ok(picture(recipe)),
            told => Ok(told),
        }
    }

    fn ask(&mut self) -> Result<Told, AllocError> {
        if self.line.is_empty() {
            return Ok(Told::Asked(AskReply::EmptyTimeline));
        }
        self.exports.push(Export {
            sides: number_of_line(self.line.as_slice()),
            taker: None,
            is_ended: false,
        })?;
        Ok(Told::Asked(AskReply::Asked {
            export: self.exports.len() as u64,
        }))
    }

    /// The place of the first export that nobody took.
    fn first_untaken(&self) -> Option<usize> {
        for place in 0..self.exports.len() {
            if self.exports[place].taker.is_none() {
                return Some(place);
            }
        }
        None
    }

    fn take(&mut self, pass: u32) -> Option<Told> {
        let place = self.first_untaken()?;
        let export = self.exports.get_mut(place)?;
        export.taker = Some(pass);
        Some(Told::Taken {
            export: (place as u64).wrapping_add(1),
            sides: export.sides,
        })
    }

    fn end(&mut self, pass: u32, number: u64) -> Option<Told> {
        let export = self.exports.get_mut(number.wrapping_sub(1) as usize)?;
        if export.taker != Some(pass) || export.is_ended {
            return None;
        }
        export.is_ended = true;
        Some(Told::Noted)
    }

    fn stop(&mut self, pass: u32) -> Option<Told> {
        if pass != 0 || self.is_stopped {
            return None;
        }
        self.is_stopped = true;
        Some(Told::Noted)
    }

    fn step_edit(&mut self, at: u64, doing: Doing) -> Result<Told, AllocError> {
        match doing {
            Doing::Edit(change) => self.edit(at, change),
            Doing::Undo => self.undo(at),
            Doing::Redo => self.redo(at),
            Doing::Want { first, len } => self.want(first, len),
            Doing::Cancel { first, len } => Ok(self.cancel(at, first, len)),
            Doing::Play { n } => self.play(n),
            Doing::Show { n } => self.show(n),
            Doing::Ask => self.ask(),
            _ => Ok(Told::Noted),
        }
    }

    /// Makes entry `at`. What its caller is told, or none where it may not come.
    pub(crate) fn step(
        &mut self,
        at: u64,
        pass: u32,
        doing: Doing,
    ) -> Result<Option<Told>, AllocError> {
        match doing {
            Doing::Claim => Ok(self.claim(pass)),
            Doing::File { job } => self.file(at, pass, job),
            Doing::Release { job } => Ok(self.release(pass, job)),
            Doing::Take => Ok(self.take(pass)),
            Doing::End { export, ending: _ } => Ok(self.end(pass, export)),
            Doing::Stop => Ok(self.stop(pass)),
            _ => match self.step_edit(at, doing) {
                Ok(told) => Ok(Some(told)),
                Err(why) => Err(why),
            },
        }
    }

    /// How many entries are still to come.
    fn owed(&self) -> u64 {
        let mut owed = if self.is_stopped { 0u64 } else { 1 };
        for job in &self.jobs {
            if job.holder.is_some() {
                owed = owed.wrapping_add(1);
            }
        }
        for export in &self.exports {
            if export.taker.is_none() {
                owed = owed.wrapping_add(2);
            } else if !export.is_ended {
                owed = owed.wrapping_add(1);
            }
        }
        owed
    }

    /// How many entries a call needs beside those owed.
    fn need(&self, doing: Doing) -> u64 {
        match doing {
            Doing::Claim => 2,
            Doing::Ask if !self.line.is_empty() => 3,
            _ => 1,
        }
    }

    /// Whether there is nothing to take.
    fn finds_none(&self, doing: Doing) -> bool {
        match doing {
            Doing::Claim => self.is_stopped || self.first_queued().is_none(),
            Doing::Take => self.first_untaken().is_none(),
            _ => false,
        }
    }

    /// Whether a call is told this in this state, which has `count` entries, and leaves none.
    pub(crate) fn refuses(&self, count: u64, doing: Doing, told: Told) -> bool {
        match told {
            Told::Idle { len } => len == count && !self.is_stopped && self.finds_none(doing),
            Told::Stopped { len } => len == count && self.is_stopped && self.finds_none(doing),
            Told::Full(Full::JournalFull { len, owed }) => {
                len == count
                    && owed == self.owed()
                    && self.limit < count.wrapping_add(owed).wrapping_add(self.need(doing))
            }
            _ => false,
        }
    }
}
