//! A part with its pass.

ghost use Rattle.studio.specs.Known.{Knows};
ghost use Rattle.studio.specs.Parts.{KnowsAs, desk_of};

use crate::task::{Slot, Task};
use std::sync::Wait;
use studio::{Part, Pass, Studio, worked};
use time_list::Lane;
use tl_model::Media;

/// A part, with the pass that it is done with.
#[derive(Drop)]
pub struct Seat<'a, R: Wait, M: Media + Drop, L: Lane, P: Part<R, M, L>> {
    pub rt: &'a R,
    pub studio: &'a Studio<M, L>,
    pub pass: Pass<M, L>,
    pub part: P,
}

/// What a seat leaves: the pass, with what it then knows, and what the part answered.
pub type Left<R, M, L, P> = (Pass<M, L>, <P as Part<R, M, L>>::Answer);

/// The place of a seat.
pub type Place<'a, R, M, L, P> = Slot<Seat<'a, R, M, L, P>, Left<R, M, L, P>>;

impl<'a, R: Wait, M: Media + Drop, L: Lane, P: Part<R, M, L>> Task for Seat<'a, R, M, L, P> {
    type Output = (Pass<M, L>, P::Answer);

    ghost can_run = { λ seat. Knows M.library seat.studio.now seat.pass
        × P.asks seat.part (desk_of seat.studio.now seat.pass) };

    ghost run_gives = { λ seat left. KnowsAs M.library seat.studio.now seat.pass left.0
        × P.told seat.part (desk_of seat.studio.now seat.pass) (desk_of seat.studio.now left.0) left.1 };

    fn run(self) -> (Pass<M, L>, P::Answer) {
        let Seat {
            rt,
            studio,
            pass,
            part,
        } = self;
        worked(rt, studio, pass, part)
    }
}
