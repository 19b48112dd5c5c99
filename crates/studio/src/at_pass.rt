//! A desk over a pass.

ghost use Rattle.std.specs.Prelude.{◌≡◌};
ghost use Rattle.studio.specs.Known.{Knows};

use crate::studio::{Pass, Studio};
use edit_desk::Desk;
use render_core::{
    AskReply, CancelReply, Claim, ClaimReply, ExportJob, FileReply, Full, PlayReply, ReleaseReply,
    ShowReply, Stopper, TakeReply, WantReply,
};
use std::alloc::{AllocError, Global};
use std::marker::Model;
use std::sync::Wait;
use time_list::Lane;
use tl_model::{Edit, EditReply, Ending, Media, Name, Recipe, Rendered};

/// The calls of one pass of a studio, which wait for the turn.
pub struct AtPass<'a, M: Media + Drop, L: Lane, R: Wait> {
    rt: &'a R,
    studio: &'a Studio<M, L>,
    pass: Pass<M, L>,
}

impl<'a, M: Media + Drop, L: Lane, R: Wait> Model for AtPass<'a, M, L, R> {
    ghost use Rattle.studio.specs.Known.{AtPassOf, Knows};

    ghost Value = { AtPassOf M };

    ghost view = { λ a. record { studio = a.studio.now; pass = a.pass } };

    ghost invariant = { λ a. Knows M.library a.studio.now a.pass };
}

impl<'a, M: Media + Drop, L: Lane, R: Wait> AtPass<'a, M, L, R> {
    /// The desk of a pass. All that the pass knows stays.
    pub fn new(rt: &'a R, studio: &'a Studio<M, L>, pass: Pass<M, L>) -> AtPass<'a, M, L, R>
        requires knows { Knows M.library studio.now pass }
        ensures studio { result.studio ≡ studio.now }
        ensures pass { result.pass ≡ pass }
    {
        AtPass { rt, studio, pass }
    }

    /// The pass, with all that it knows.
    pub fn into_pass(self) -> Pass<M, L>
        ensures pass { result ≡ self.entry.pass }
        ensures knows { Knows M.library self.entry.studio result }
    {
        let AtPass {
            rt: _,
            studio: _,
            pass,
        } = self;
        pass
    }
}

impl<'a, M: Media + Drop, L: Lane, R: Wait> Desk for AtPass<'a, M, L, R> {
    ghost use Rattle.studio.specs.Known.{KeptOf, desk_at};

    type Lib = M;

    type Made = Rendered<M>;

    ghost made = { λ r. r };

    ghost Kept = { KeptOf M };

    ghost desk = { λ a. desk_at a.studio a.pass };

    fn known(&self) {
        let _ = self.pass.number();
    }

    fn media(&self) -> &M {
        self.studio.media()
    }

    fn render(&self, alloc: Global, recipe: Recipe) -> Result<Rendered<M>, AllocError> {
        Rendered::make(alloc, self.studio.media(), recipe)
    }

    fn edit(&mut self, alloc: Global, edit: &Edit) -> Result<EditReply, Full> {
        self.studio.edit(self.rt, alloc, &mut self.pass, edit)
    }

    fn undo(&mut self, alloc: Global) -> Result<EditReply, Full> {
        self.studio.undo(self.rt, alloc, &mut self.pass)
    }

    fn redo(&mut self, alloc: Global) -> Result<EditReply, Full> {
        self.studio.redo(self.rt, alloc, &mut self.pass)
    }

    fn want(&mut self, first: u32, len: u32) -> Result<WantReply, Full> {
        self.studio.want(self.rt, &mut self.pass, first, len)
    }

    fn cancel(&mut self, first: u32, len: u32) -> Result<CancelReply, Full> {
        self.studio.cancel(self.rt, &mut self.pass, first, len)
    }

    fn claim(&mut self) -> Result<ClaimReply, Full> {
        self.studio.claim(self.rt, &mut self.pass)
    }

    fn file(
        &mut self,
        claim: Claim,
        rendered: Rendered<M>,
    ) -> Result<FileReply, (Claim, Rendered<M>, AllocError)> {
        self.studio.file(self.rt, &mut self.pass, claim, rendered)
    }

    fn release(&mut self, claim: Claim) -> ReleaseReply {
        self.studio.release(self.rt, &mut self.pass, claim)
    }

    fn play(&mut self, n: u32) -> Result<PlayReply<M::Frame>, Full> {
        self.studio.play(self.rt, &mut self.pass, n)
    }

    fn show(&mut self, alloc: Global, n: u32) -> Result<ShowReply<M::Frame>, Full> {
        self.studio.show(self.rt, alloc, &mut self.pass, n)
    }

    fn ask_export(&mut self, alloc: Global, name: &Name) -> Result<AskReply, Full> {
        self.studio.ask_export(self.rt, alloc, &mut self.pass, name)
    }

    fn take_export(&mut self) -> TakeReply {
        self.studio.take_export(self.rt, &mut self.pass)
    }

    fn end_export(&mut self, job: ExportJob, ending: Ending) {
        self.studio.end_export(self.rt, &mut self.pass, job, ending)
    }

    fn mark(&mut self, turns: u32) -> Result<(), Full> {
        self.studio.mark(self.rt, &mut self.pass, turns)
    }

    fn skip(&mut self) -> Result<(), Full> {
        self.studio.skip(self.rt, &mut self.pass)
    }

    fn stop(&mut self, stopper: Stopper) {
        self.studio.stop(self.rt, &mut self.pass, stopper)
    }
}
