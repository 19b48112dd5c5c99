//! Passes that did their parts are joined into main's.

ghost use Rattle.std.specs.Prelude.{◌≢◌, All};
ghost use Rattle.studio.specs.Known.{Knows};
ghost use Rattle.crew.specs.Joining.{GaveBack, HasIn, IsIn, Stays};

use crate::task::Slot;
use arrayvec::ArrayVec;
use studio::{Pass, Studio};
use time_list::Lane;
use tl_model::Media;

/// Joins a pass that did its part into main's.
pub fn join_in<M: Media + Drop, L: Lane>(
    studio: &Studio<M, L>,
    main: &mut Pass<M, L>,
    pass: Pass<M, L>,
)
    requires main { Knows M.library studio.now main.old }
    requires pass { Knows M.library studio.now pass }
    requires other { pass.number ≢ 0 }
    ensures stays { Stays M.library studio.now main.old main.new }
    ensures has { HasIn main.new pass }
{
    studio.join(main, pass);
}

/// Joins the pass that a slot's task gave back.
fn join_slot<M: Media + Drop, L: Lane, T: Drop, A: Drop>(
    studio: &Studio<M, L>,
    main: &mut Pass<M, L>,
    slot: Slot<T, (Pass<M, L>, A)>,
)
    requires main { Knows M.library studio.now main.old }
    requires slot { GaveBack M.library studio.now slot }
    ensures stays { Stays M.library studio.now main.old main.new }
    ensures has { IsIn main.new slot }
{
    match slot {
        Slot::Done((pass, _)) => join_in(studio, main, pass),
        Slot::Ready(_) => unreachable!(),
        Slot::Empty => unreachable!(),
    }
}

/// Joins the passes that the tasks of slots gave back.
pub fn join_all<M: Media + Drop, L: Lane, T: Drop, A: Drop, const N: usize>(
    studio: &Studio<M, L>,
    main: &mut Pass<M, L>,
    mut slots: ArrayVec<Slot<T, (Pass<M, L>, A)>, N>,
)
    requires main { Knows M.library studio.now main.old }
    requires slots { All (GaveBack M.library studio.now) slots.items }
    ensures stays { Stays M.library studio.now main.old main.new }
    ensures has { All (IsIn main.new) slots.items }
{
    while let Some(slot) = slots.pop() {
        join_slot(studio, main, slot);
    }
}
