//! Want of memory at edits, undos, redos and asks, by a timeline that wants it at every other call.

use crate::session::play_over;
use std::alloc::{AllocError, Global};
use std::cell::Cell;
use std::sync::ledger::Ledger;
use std::test::Fail;
use time_list::{ApplyFault, Lane, ListLane, Patch};
use tl_model::{Edit, Media, Recipe, Segments, Steps};

/// A plain timeline. Of the calls on it that may want memory the first does, and then every other.
#[derive(Drop)]
struct Wanting {
    lane: ListLane,
    has_wanted: Cell<bool>,
}

impl Wanting {
    fn wants(&self) -> bool {
        let wants = !self.has_wanted.get();
        self.has_wanted.set(wants);
        wants
    }
}

impl Lane for Wanting {
    ghost cells = { λ w. w.lane };

    fn blank(alloc: Global) -> Wanting {
        Wanting {
            lane: ListLane::blank(alloc),
            has_wanted: Cell::new(false),
        }
    }

    fn frames(&self) -> u32 {
        self.lane.frames()
    }

    fn segments(&self) -> u32 {
        self.lane.segments()
    }

    fn recipe_at<K: Ledger>(&self, n: u32, steps: &mut Steps<K>) -> Recipe {
        self.lane.recipe_at(n, steps)
    }

    fn uses(&self, recipe: Recipe) -> bool {
        self.lane.uses(recipe)
    }

    fn apply<M: Media>(
        &mut self,
        alloc: Global,
        media: &M,
        edit: &Edit,
    ) -> Result<Patch, ApplyFault> {
        if self.wants() {
            return Err(ApplyFault::NoMemory);
        }
        self.lane.apply(alloc, media, edit)
    }

    fn revert(&mut self, alloc: Global, patch: Patch) -> Result<Patch, (Patch, AllocError)> {
        if self.wants() {
            return Err((patch, AllocError));
        }
        self.lane.revert(alloc, patch)
    }

    fn snapshot(&self, alloc: Global) -> Result<Segments, AllocError> {
        if self.wants() {
            return Err(AllocError);
        }
        self.lane.snapshot(alloc)
    }
}

/// A call that wants memory has no entry, closes no job, leaves what can be undone and redone, and owes nothing. Of 19
/// entries none is left for an ask after 16, which is told before memory could be wanted.
#[rattlefmt::skip]
const WANTED: [&str; 38] = [
    "0 edit insert 0 0 0 10 = no memory",
    "0 claim = idle 0",
    "0 play 0 = past 0",
    "0 edit insert 0 0 0 10 = ok 10",
    "0 want 5 1 = wanted 1",
    "1 claim = claimed 1 0 5",
    "0 edit extract 5 1 = no memory",
    "0 play 9 = pending 0 9",
    "1 file = filed",
    "0 edit extract 5 1 = ok 9",
    "0 undo = no memory",
    "0 redo = refused NothingToRedo",
    "0 play 8 = pending 0 9",
    "0 undo = ok 10",
    "0 redo = no memory",
    "0 claim = idle 10",
    "0 redo = ok 9",
    "0 undo = no memory",
    "0 undo = ok 10",
    "0 edit split 3 = no memory",
    "0 redo = ok 9",
    "0 ask o.mkv = no memory",
    "1 export sink = idle 13",
    "0 ask o.mkv = asked 1",
    "1 export 9 = taken 1 o.mkv | 0 0 5 | 0 6 4",
    "0 ask o.mkv = full 16 1",
    "0 edit split 3 = no memory",
    "0 edit split 3 = ok 9",
    "0 undo = no memory",
    "0 undo = ok 9",
    "0 undo = full 18 1",
    "0 redo = full 18 1",
    "0 edit split 3 = full 18 1",
    "0 ask o.mkv = full 18 1",
    "0 play 0 = full 18 1",
    "0 claim = idle 18",
    "0 stop = noted",
    "0 claim = stopped 19",
];

#[test]
fn want_of_memory_leaves_everything(rt: HostRuntime) -> Result<(), Fail> {
    play_over::<Wanting>(&rt, rt.alloc(), 4, 19, &WANTED)?;
    Ok(())
}
