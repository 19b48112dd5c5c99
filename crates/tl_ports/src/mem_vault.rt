//! A vault in memory.

ghost use Rattle.std.specs.Prelude.{◌≡◌, ◌≤◌, ◌↔◌, ℕ, List, true, None, MatchResult, IsErrOf, IsSome, OnErr};
ghost use Rattle.std.specs.Option.{option_copied};
ghost use Rattle.tl_ports.specs.Outside.{Adds, Begins, PutHasCause, KeepsOthers, KeepsBegun};
ghost use Rattle.tl_ports.specs.FaultPlan.{FailsNext, CountsCall, CountsFault, IsFresh, PutsByPlan, CountsPut};
ghost use Rattle.tl_ports.specs.FileList.{vault_of, vault_of-lawful};

use crate::fault::PutFault;
use crate::fault_plan::FaultPlan;
use crate::file_list::FileList;
use crate::ports::Vault;
use std::alloc::Global;

/// Files in memory, to be written one at a time. It tells them.
#[derive(Debug, Drop)]
pub struct MemVault {
    files: FileList,
    /// Whether the latest file is begun and not yet ended.
    is_begun: bool,
    /// Which calls fail.
    pub plan: FaultPlan,
}

impl MemVault {
    /// A vault with no files, in which the calls of these numbers, counted from 1, are to fail.
    pub fn start(alloc: Global, fail: Vec<u64>) -> MemVault
        ensures empty { (name : List ℕ) → (⟦<MemVault as Vault>⟧.seen result).file name ≡ None }
        ensures begun { (⟦<MemVault as Vault>⟧.seen result).begun ≡ None }
        ensures plan { IsFresh result.plan fail.items }
        ensures faults { (⟦<MemVault as Vault>⟧.seen result).faults ≡ 0 }
    {
        MemVault {
            files: FileList::new(alloc),
            is_begun: false,
            plan: FaultPlan::new(fail),
        }
    }

    /// The bytes of the file of a name. None comes exactly where there is no such file.
    pub fn file(&self, name: &str) -> Option<&[u8]>
        ensures { option_copied result ≡ (⟦<MemVault as Vault>⟧.seen self.now).file name.now }
    {
        self.files.bytes_of(name.as_bytes())
    }
}

impl Vault for MemVault {
    ghost tells = { true };

    ghost seen = { λ vault. vault_of vault.files.files.items vault.is_begun vault.plan.faults };

    ghost held_is = { λ told vault. vault_of-lawful vault.files.files.items vault.is_begun vault.plan.faults };

    /// Answers `Failed` exactly where its number is in the list. After any refusal the file is as before.
    fn begin(&mut self, name: &str) -> Result<(), PutFault>
        requires { (⟦<MemVault as Vault>⟧.seen self.old).begun ≡ None }
        ensures begun { Begins true (⟦<MemVault as Vault>⟧.seen self.old) (⟦<MemVault as Vault>⟧.seen self.new) name.now result }
        ensures others { KeepsOthers true (⟦<MemVault as Vault>⟧.seen self.old) (⟦<MemVault as Vault>⟧.seen self.new) name.now }
        ensures later { (⟦<MemVault as Vault>⟧.seen self.old).faults ≤ (⟦<MemVault as Vault>⟧.seen self.new).faults }
        ensures cause { PutHasCause (⟦<MemVault as Vault>⟧.seen self.old).faults
            (⟦<MemVault as Vault>⟧.seen self.new).faults result }
        ensures kept { OnErr result
            ((⟦<MemVault as Vault>⟧.seen self.new).file ≡ (⟦<MemVault as Vault>⟧.seen self.old).file) }
        ensures fails { IsErrOf result PutFault.Failed ↔ FailsNext self.old.plan }
        ensures counted { CountsCall self.old.plan self.new.plan }
        ensures faults { CountsFault self.old.plan self.new.plan }
    {
        if self.plan.next_fails() {
            return Err(PutFault::Failed);
        }
        match self.files.begin(name.as_bytes()) {
            Ok(()) => {
                self.is_begun = true;
                Ok(())
            }
            Err(_) => Err(PutFault::NoMemory),
        }
    }

    /// Where its number is in the list it adds the first half of the piece and answers `Failed`.
    fn append(&mut self, bytes: &[u8]) -> Result<(), PutFault>
        requires { IsSome (⟦<MemVault as Vault>⟧.seen self.old).begun }
        ensures added { Adds true (⟦<MemVault as Vault>⟧.seen self.old) (⟦<MemVault as Vault>⟧.seen self.new) bytes.now result }
        ensures kept { KeepsBegun true (⟦<MemVault as Vault>⟧.seen self.old) (⟦<MemVault as Vault>⟧.seen self.new) }
        ensures cause { PutHasCause (⟦<MemVault as Vault>⟧.seen self.old).faults
            (⟦<MemVault as Vault>⟧.seen self.new).faults result }
        ensures puts { PutsByPlan (FailsNext self.old.plan) (⟦<MemVault as Vault>⟧.seen self.old).held
            (⟦<MemVault as Vault>⟧.seen self.new).held bytes.now result }
        ensures counted { CountsCall self.old.plan self.new.plan }
        ensures faults { CountsPut self.old.plan.faults self.new.plan.faults result }
    {
        let latest = &mut self.files.files[0];
        self.plan.put(bytes, &mut latest.bytes)?;
        Ok(())
    }

    /// Answers `Failed` exactly where its number is in the list. The file is ended then too.
    fn end(&mut self) -> Result<(), PutFault>
        requires { IsSome (⟦<MemVault as Vault>⟧.seen self.old).begun }
        ensures begun { (⟦<MemVault as Vault>⟧.seen self.new).begun ≡ None }
        ensures files { (⟦<MemVault as Vault>⟧.seen self.new).file ≡ (⟦<MemVault as Vault>⟧.seen self.old).file }
        ensures later { (⟦<MemVault as Vault>⟧.seen self.old).faults ≤ (⟦<MemVault as Vault>⟧.seen self.new).faults }
        ensures cause { PutHasCause (⟦<MemVault as Vault>⟧.seen self.old).faults
            (⟦<MemVault as Vault>⟧.seen self.new).faults result }
        ensures fails { MatchResult result (λ done. FailsNext self.old.plan → ⊥)
            (λ fault. (fault ≡ PutFault.Failed) × FailsNext self.old.plan) }
        ensures counted { CountsCall self.old.plan self.new.plan }
        ensures faults { CountsFault self.old.plan self.new.plan }
    {
        self.is_begun = false;
        if self.plan.next_fails() {
            return Err(PutFault::Failed);
        }
        Ok(())
    }
}
