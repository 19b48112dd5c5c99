//! Passes 1 to 4 of a studio, how they are made and how they are joined, and the stop.

ghost use Rattle.std.specs.Prelude.{◌≡◌, []};
ghost use Rattle.turn_lock.specs.Passes.{first_pass};
ghost use Rattle.studio.specs.Known.{Knows};
ghost use Rattle.studio.specs.Parts.{KnowsAs};

use render_core::Stopper;
use std::sync::Wait;
use studio::{Pass, Studio};
use time_list::Lane;
use tl_model::{Journal, Media};

/// Two passes.
pub(crate) type Two<M, L> = (Pass<M, L>, Pass<M, L>);

/// Passes 1 to 4.
pub(crate) fn four_more<M: Media + Drop, L: Lane>(
    studio: &Studio<M, L>,
    main: &mut Pass<M, L>,
) -> (Two<M, L>, Two<M, L>)
    requires first { main.old ≡ first_pass studio.now }
    requires knows { Knows M.library studio.now main.old }
    ensures main { main.new ≡ record (first_pass studio.now) { made = 4 } }
    ensures main_knows { Knows M.library studio.now main.new }
    ensures front { (result.0.0.number ≡ 1) × (result.0.1.number ≡ 2) }
    ensures back { (result.1.0.number ≡ 3) × (result.1.1.number ≡ 4) }
    ensures front_alone { (result.0.0.joined ≡ []) × (result.0.1.joined ≡ []) }
    ensures back_alone { (result.1.0.joined ≡ []) × (result.1.1.joined ≡ []) }
    ensures front_knows { Knows M.library studio.now result.0.0 × Knows M.library studio.now result.0.1 }
    ensures back_knows { Knows M.library studio.now result.1.0 × Knows M.library studio.now result.1.1 }
{
    let front = (studio.split(main), studio.split(main));
    let back = (studio.split(main), studio.split(main));
    (front, back)
}

/// Stops a session, as a pass 0 that has seen no entry.
pub(crate) fn stop_first<R: Wait, M: Media + Drop, L: Lane>(
    rt: &R,
    studio: &Studio<M, L>,
    main: &mut Pass<M, L>,
    stopper: Stopper,
)
    requires knows { Knows M.library studio.now main.old }
    requires number { main.old.number ≡ 0 }
    requires first { main.old.seen ≡ [] }
    ensures { KnowsAs M.library studio.now main.old main.new }
{
    studio.stop(rt, main, stopper);
}

/// Joins passes 1 to 4 into pass 0, and gives the journal.
pub(crate) fn closed<M: Media + Drop, L: Lane>(
    studio: Studio<M, L>,
    mut main: Pass<M, L>,
    front: Two<M, L>,
    back: Two<M, L>,
) -> Journal
    requires main_knows { Knows M.library studio main }
    requires main { (main.number ≡ 0) × (main.made ≡ 4) × (main.joined ≡ []) }
    requires front_knows { Knows M.library studio front.0 × Knows M.library studio front.1 }
    requires back_knows { Knows M.library studio back.0 × Knows M.library studio back.1 }
    requires front { (front.0.number ≡ 1) × (front.1.number ≡ 2) }
    requires back { (back.0.number ≡ 3) × (back.1.number ≡ 4) }
    requires front_alone { (front.0.joined ≡ []) × (front.1.joined ≡ []) }
    requires back_alone { (back.0.joined ≡ []) × (back.1.joined ≡ []) }
{
    studio.join(&mut main, front.0);
    studio.join(&mut main, front.1);
    studio.join(&mut main, back.0);
    studio.join(&mut main, back.1);
    studio.close(main)
}
