//! What one thread does over the desk of its pass.

ghost use Rattle.studio.specs.Known.{Knows};
ghost use Rattle.studio.specs.Parts.{KnowsAs, desk_of};

use crate::at_pass::AtPass;
use crate::studio::{Pass, Studio};
use std::sync::Wait;
use time_list::Lane;
use tl_model::Media;

/// What one thread does over the desk of its pass. No call of a desk changes who its caller is, so no part does.
pub trait Part<R: Wait, M: Media + Drop, L: Lane> {
    ghost use Rattle.std.specs.Prelude.{◌≡◌};
    ghost use Rattle.studio.specs.Known.{AtPassOf, desk_at};

    type Answer;

    ghost asks: { Self → AtPassOf M → Type 0 };

    ghost told: { Self → AtPassOf M → AtPassOf M → Self.Answer → Type 0 };

    /// Does it.
    fn work(self, desk: &mut AtPass<'_, M, L, R>) -> Self::Answer
        requires { asks self desk.old }
        ensures same { (desk_at desk.new.studio desk.new.pass).fixed ≡ (desk_at desk.old.studio desk.old.pass).fixed }
        ensures told { told self desk.old desk.new result };
}

/// Does a part with a pass, and gives the pass back with what it then knows. It stays who it was.
pub fn worked<R: Wait, M: Media + Drop, L: Lane, P: Part<R, M, L>>(
    rt: &R,
    studio: &Studio<M, L>,
    pass: Pass<M, L>,
    part: P,
) -> (Pass<M, L>, P::Answer)
    requires knows { Knows M.library studio.now pass }
    requires asks { P.asks part (desk_of studio.now pass) }
    ensures knows { KnowsAs M.library studio.now pass result.0 }
    ensures told { P.told part (desk_of studio.now pass) (desk_of studio.now result.0) result.1 }
{
    let mut desk = AtPass::new(rt, studio, pass);
    let answer = part.work(&mut desk);
    (desk.into_pass(), answer)
}
