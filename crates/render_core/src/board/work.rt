//! Calls that take jobs and end them, plays and shows, and the stop.

ghost use Rattle.std.specs.Prelude.{◌≡◌, ◌≢◌, ◌+◌, ◌≤◌, false, OnOk, OnErr, MatchResult, Err, IsTrue, slice_get};
ghost use Rattle.tl_model.specs.Cells.{recipes};
ghost use Rattle.tl_model.specs.Media.{CanRender};
ghost use Rattle.tl_model.specs.declared.journal.Act.TheVariants as act;
ghost use Rattle.render_core.specs.declared.reply.Full.TheVariants as full;
ghost use Rattle.render_core.specs.State.{Holds};
ghost use Rattle.render_core.specs.Step.{is_filed, reply, Filed};
ghost use Rattle.render_core.specs.Board.{state_of, Does, Pays, Claims, IfClaimed, IfPending, IfRender, of_file, of_release, of_play, of_show, of_done};

use crate::board::{Board, room_for};
use crate::claim::{Claim, Stopper};
use crate::reply::{ClaimReply, FileReply, Full, PlayReply, ReleaseReply, ShowReply};
use std::alloc::AllocError;
use time_list::Lane;
use tl_model::{Act, Entry, Media, Rendered};

impl<M: Media, L: Lane> Board<M, L> {
    /// Takes the lowest queued job, whose recipe can be rendered. Room and memory for its end are kept, so that it can
    /// always be given back.
    pub fn claim(&mut self, by: u32) -> Result<ClaimReply, Full>
        ensures done { Claims M.library self.old self.new by result }
        ensures sure { 2 ≤ self.old.spare → result ≢ Err full.NoMemory }
        ensures uses { 2 ≤ self.old.spare → IfClaimed result (λ claim. self.new.spare + 2 ≡ self.old.spare) }
        ensures held { IfClaimed result (λ claim. Holds (state_of M.library self.new) by claim.job claim.recipe) }
        ensures renders { IfClaimed result (λ claim. CanRender (M.library self.new.library) claim.recipe) }
    {
        let len = self.journal.len() as u64;
        if self.machine.is_stopped() {
            return Ok(ClaimReply::Stopped { len });
        }
        let Some(place) = self.machine.lowest_queued() else {
            return Ok(ClaimReply::Idle { len });
        };
        room_for(&mut self.journal, self.owed, self.limit, 2)?;
        let claim = self.machine.claim(by, place);
        self.journal.push_reserved(Entry {
            pass: by,
            act: Act::Claim,
        });
        self.owed += 1;
        Ok(ClaimReply::Claimed(claim))
    }

    /// Ends a claim with its result, which is filed exactly where the job is still open. Only at an open job can memory
    /// be wanting; the claim and the result then come back.
    pub fn file(
        &mut self,
        by: u32,
        claim: Claim,
        rendered: Rendered<M>,
    ) -> Result<FileReply, (Claim, Rendered<M>, AllocError)>
        requires held { Holds (state_of M.library self.old) by claim.job claim.recipe }
        requires rendered { rendered ≡ record { recipe = claim.recipe; library = self.old.library } }
        ensures done { MatchResult result (λ given. Pays M.library self.old self.new
            (record { pass = by; act = act.File claim.job; view = of_file }) given) (λ back. (self.new ≡ self.old) × (back.0 ≡ claim)
            × (back.1 ≡ rendered)) }
        ensures open_job { OnErr result (reply (M.library self.old.library) (act.File claim.job) (state_of M.library self.old) ≡ Filed) }
    {
        let job = claim.job();
        let at = self.journal.len() as u64 + 1;
        match self.machine.file(at, claim, rendered) {
            Ok(reply) => {
                self.journal.push_reserved(Entry {
                    pass: by,
                    act: Act::File { job },
                });
                self.owed -= 1;
                Ok(reply)
            }
            Err((claim, rendered)) => Err((claim, rendered, AllocError)),
        }
    }

    /// Gives a claim back; its job is queued again under its number, exactly where it is still open. It can't be refused.
    pub fn release(&mut self, by: u32, claim: Claim) -> ReleaseReply
        requires { Holds (state_of M.library self.old) by claim.job claim.recipe }
        ensures { Pays M.library self.old self.new (record { pass = by; act = act.Release claim.job; view = of_release }) result }
    {
        let job = claim.job();
        let reply = self.machine.release(claim);
        self.journal.push_reserved(Entry {
            pass: by,
            act: Act::Release { job },
        });
        self.owed -= 1;
        reply
    }

    /// Plays frame `n`: its picture or its fault, exactly where its recipe is filed. A pending recipe can be rendered.
    /// While `spare` is at least 1, only a frame whose recipe is filed can want memory, since its picture is shared.
    pub fn play(&mut self, by: u32, n: u32) -> Result<PlayReply<M::Frame>, Full>
        ensures done { Does M.library self.old self.new (record { pass = by; act = act.Play n; view = of_play }) result }
        ensures uses { 1 ≤ self.old.spare → OnOk result (self.new.spare + 1 ≡ self.old.spare) }
        ensures renders { IfPending result (λ recipe. CanRender (M.library self.new.library) recipe) }
        ensures filed { 1 ≤ self.old.spare → result ≡ Err full.NoMemory
            → IsTrue (is_filed (slice_get (recipes (state_of M.library self.old).history.line) n) (state_of M.library self.old)) }
    {
        self.make_room(1)?;
        let Ok(reply) = self.machine.play(n) else {
            return Err(Full::NoMemory);
        };
        self.journal.push_reserved(Entry {
            pass: by,
            act: Act::Play { n },
        });
        Ok(reply)
    }

    /// As a play, for a caller that renders a recipe itself where it isn't filed.
    pub fn show(&mut self, by: u32, n: u32) -> Result<ShowReply<M::Frame>, Full>
        ensures done { Does M.library self.old self.new (record { pass = by; act = act.Show n; view = of_show }) result }
        ensures uses { 1 ≤ self.old.spare → OnOk result (self.new.spare + 1 ≡ self.old.spare) }
        ensures renders { IfRender result (λ recipe. CanRender (M.library self.new.library) recipe) }
        ensures filed { 1 ≤ self.old.spare → result ≡ Err full.NoMemory
            → IsTrue (is_filed (slice_get (recipes (state_of M.library self.old).history.line) n) (state_of M.library self.old)) }
    {
        self.make_room(1)?;
        let Ok(reply) = self.machine.show(n) else {
            return Err(Full::NoMemory);
        };
        self.journal.push_reserved(Entry {
            pass: by,
            act: Act::Show { n },
        });
        Ok(reply)
    }

    /// Stops the session. It can't be refused.
    pub fn stop(&mut self, by: u32, stopper: Stopper)
        requires main { by ≡ 0 }
        requires once { (state_of M.library self.old).is_stopped ≡ false }
        ensures { Pays M.library self.old self.new (record { pass = by; act = act.Stop; view = of_done }) result }
    {
        let Stopper { of: () } = stopper;
        self.machine.stop();
        self.journal.push_reserved(Entry {
            pass: by,
            act: Act::Stop,
        });
        self.owed -= 1;
    }
}
