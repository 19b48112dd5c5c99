//! A store in memory that never fails.

ghost use Rattle.std.specs.Prelude.{◌≡◌, ℕ, List, true, None, OnOk, OnErr};
ghost use Rattle.tl_ports.specs.FileList.{store_of, PutsFile};

use crate::fault::FetchFault;
use crate::file_list::FileList;
use crate::ports::Store;
use std::alloc::{AllocError, Global};

/// Files in memory, to be read. It tells them, and its count of faults is always 0.
#[derive(Debug, Drop)]
pub struct CleanStore {
    files: FileList,
}

impl CleanStore {
    /// A store with no files.
    pub fn start(alloc: Global) -> CleanStore
        ensures { (name : List ℕ) → (⟦<CleanStore as Store>⟧.seen result).file name ≡ None }
    {
        CleanStore {
            files: FileList::new(alloc),
        }
    }

    /// Puts a file under its name, in the place of one that is there. After a refusal the store is as before.
    pub fn add(&mut self, name: &str, bytes: Vec<u8>) -> Result<(), AllocError>
        ensures ok { OnOk result
            (PutsFile (⟦<CleanStore as Store>⟧.seen self.old) (⟦<CleanStore as Store>⟧.seen self.new) name.now bytes.items) }
        ensures err { OnErr result (⟦<CleanStore as Store>⟧.seen self.new ≡ ⟦<CleanStore as Store>⟧.seen self.old) }
    {
        self.files.put(name.as_bytes(), bytes)?;
        Ok(())
    }
}

impl Store for CleanStore {
    ghost tells = { true };

    ghost seen = { λ store. store_of store.files.files.items 0 };

    /// Answers `Missing` and `TooLarge` exactly where it has no such file or one over the limit, and never `Failed`.
    fn fetch(&mut self, name: &str, limit: u64, into: &mut Vec<u8>) -> Result<(), FetchFault> {
        self.files.fetch(name, limit, into)
    }
}
