//! A vault in memory that never fails.

ghost use Rattle.std.specs.Prelude.{◌≡◌, ℕ, List, true, None};
ghost use Rattle.std.specs.Option.{option_copied};
ghost use Rattle.tl_ports.specs.FileList.{vault_of, vault_of-lawful};

use crate::fault::PutFault;
use crate::file_list::FileList;
use crate::ports::Vault;
use std::alloc::Global;

/// Files in memory, to be written one at a time. It tells them, and its count of faults is always 0.
#[derive(Debug, Drop)]
pub struct CleanVault {
    files: FileList,
    /// Whether the latest file is begun and not yet ended.
    is_begun: bool,
}

impl CleanVault {
    /// A vault with no files.
    pub fn start(alloc: Global) -> CleanVault
        ensures empty { (name : List ℕ) → (⟦<CleanVault as Vault>⟧.seen result).file name ≡ None }
        ensures begun { (⟦<CleanVault as Vault>⟧.seen result).begun ≡ None }
    {
        CleanVault {
            files: FileList::new(alloc),
            is_begun: false,
        }
    }

    /// The bytes of the file of a name. None comes exactly where there is no such file.
    pub fn file(&self, name: &str) -> Option<&[u8]>
        ensures { option_copied result ≡ (⟦<CleanVault as Vault>⟧.seen self.now).file name.now }
    {
        self.files.bytes_of(name.as_bytes())
    }
}

impl Vault for CleanVault {
    ghost tells = { true };

    ghost seen = { λ vault. vault_of vault.files.files.items vault.is_begun 0 };

    ghost held_is = { λ told vault. vault_of-lawful vault.files.files.items vault.is_begun 0 };

    /// After a refusal the file is as before.
    fn begin(&mut self, name: &str) -> Result<(), PutFault> {
        match self.files.begin(name.as_bytes()) {
            Ok(()) => {
                self.is_begun = true;
                Ok(())
            }
            Err(_) => Err(PutFault::NoMemory),
        }
    }

    /// After a refusal nothing was added.
    fn append(&mut self, bytes: &[u8]) -> Result<(), PutFault> {
        let latest = &mut self.files.files[0];
        match latest.bytes.extend_from_slice(bytes) {
            Ok(()) => Ok(()),
            Err(_) => Err(PutFault::NoMemory),
        }
    }

    /// Answers `Ok`.
    fn end(&mut self) -> Result<(), PutFault> {
        self.is_begun = false;
        Ok(())
    }
}
