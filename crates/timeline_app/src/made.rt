//! The store of a script that is made from a number.

ghost use Rattle.std.specs.Prelude.{◌≡◌, IfOk, Some};
ghost use Rattle.work_gen.specs.Answer.{IsCount};
ghost use Rattle.timeline_app.specs.Made.{IsMade};
ghost use Rattle.timeline_app.specs.Words.{made_frames};

use std::alloc::{AllocError, Global};
use tl_ports::{CleanStore, Store};
use work_gen::{Generated, generate};

/// A store with the script `gen:N` of this name and its clip `g.mkv`, and no other file. It never fails.
pub fn made_store(alloc: Global, name: &str, frames: u32) -> Result<CleanStore, AllocError>
    requires count { IsCount frames }
    requires named { made_frames name.now ≡ Some frames }
    ensures { IfOk result (λ store. IsMade name.now frames (⟦<CleanStore as Store>⟧.seen store)) }
{
    let Ok(generated) = generate(alloc, frames) else {
        return Err(AllocError);
    };
    let Generated { script, clip } = generated;
    let mut store = CleanStore::start(alloc);
    store.add(name, script)?;
    store.add("g.mkv", clip)?;
    Ok(store)
}
