//! A store in memory.

ghost use Rattle.std.specs.Prelude.{◌≡◌, ◌≤◌, ◌↔◌, ℕ, List, true, None, OnOk, OnErr, IsErrOf};
ghost use Rattle.tl_ports.specs.Outside.{AddsFile, FetchHasCause};
ghost use Rattle.tl_ports.specs.FaultPlan.{FailsNext, CountsCall, CountsFault, IsFresh};
ghost use Rattle.tl_ports.specs.FileList.{store_of, PutsFile};

use crate::fault::FetchFault;
use crate::fault_plan::FaultPlan;
use crate::file_list::FileList;
use crate::ports::Store;
use std::alloc::{AllocError, Global};

/// Files in memory, to be read. It tells them.
#[derive(Debug, Drop)]
pub struct MemStore {
    files: FileList,
    /// Which fetches fail.
    pub plan: FaultPlan,
}

impl MemStore {
    /// A store with no files, in which the fetches of these numbers, counted from 1, are to fail.
    pub fn start(alloc: Global, fail: Vec<u64>) -> MemStore
        ensures empty { (name : List ℕ) → (⟦<MemStore as Store>⟧.seen result).file name ≡ None }
        ensures plan { IsFresh result.plan fail.items }
        ensures faults { (⟦<MemStore as Store>⟧.seen result).faults ≡ 0 }
    {
        MemStore {
            files: FileList::new(alloc),
            plan: FaultPlan::new(fail),
        }
    }

    /// Puts a file under its name, in the place of one that is there. After a refusal the files are as before.
    pub fn add(&mut self, name: &str, bytes: Vec<u8>) -> Result<(), AllocError>
        ensures ok { OnOk result
            (PutsFile (⟦<MemStore as Store>⟧.seen self.old) (⟦<MemStore as Store>⟧.seen self.new) name.now bytes.items) }
        ensures err { OnErr result (⟦<MemStore as Store>⟧.seen self.new ≡ ⟦<MemStore as Store>⟧.seen self.old) }
        ensures plan { self.new.plan ≡ self.old.plan }
    {
        self.files.put(name.as_bytes(), bytes)?;
        Ok(())
    }
}

impl Store for MemStore {
    ghost tells = { true };

    ghost seen = { λ store. store_of store.files.files.items store.plan.faults };

    /// Answers `Failed` exactly where its number is in the list.
    fn fetch(&mut self, name: &str, limit: u64, into: &mut Vec<u8>) -> Result<(), FetchFault>
        ensures fetched { OnOk result (AddsFile true (⟦<MemStore as Store>⟧.seen self.old)
            record { name = name.now; limit = limit } into.old.items into.new.items) }
        ensures buffer { OnErr result (into.new.items ≡ into.old.items) }
        ensures cause { FetchHasCause true (⟦<MemStore as Store>⟧.seen self.old) (⟦<MemStore as Store>⟧.seen self.new)
            record { name = name.now; limit = limit } result }
        ensures files { (⟦<MemStore as Store>⟧.seen self.new).file ≡ (⟦<MemStore as Store>⟧.seen self.old).file }
        ensures later { (⟦<MemStore as Store>⟧.seen self.old).faults ≤ (⟦<MemStore as Store>⟧.seen self.new).faults }
        ensures fails { IsErrOf result FetchFault.Failed ↔ FailsNext self.old.plan }
        ensures counted { CountsCall self.old.plan self.new.plan }
        ensures faults { CountsFault self.old.plan self.new.plan }
    {
        if self.plan.next_fails() {
            return Err(FetchFault::Failed);
        }
        self.files.fetch(name, limit, into)
    }
}
