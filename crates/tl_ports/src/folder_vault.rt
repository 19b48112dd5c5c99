//! A vault over a folder.

ghost use Rattle.std.specs.Prelude.{◌≡◌, ◌≤◌, false, [], None, string_bytes};
ghost use Rattle.std.specs.Option.{option_map};
ghost use Rattle.std.proofs.lemmas.Bool.{false≢true};
ghost use Rattle.tl_ports.specs.Outside.{Rose};
ghost use Rattle.tl_ports.specs.FaultPlan.{one_more};

use crate::fault::PutFault;
use crate::output::{Output, open, part_name};
use crate::ports::Vault;
use std::rt::Files;

/// Files of the current folder and below it, to be written one at a time. A name is a path.
/// It tells no file. Its count rises at every error.
///
/// Until a file is whole its bytes go to a part beside it, `NAME.part`; then that takes its place. So a file that had the
/// name is never lost to one that failed or was cut off. A link is replaced, and what it points to stays as it was. What
/// isn't a file on a disk, as a pipe or a device, is written to straight.
#[derive(Drop)]
pub struct FolderVault<'a, R: Files> {
    rt: &'a R,
    begun: Option<Begun<R::File>>,
    faults: u64,
}

/// A file that is begun, and its name.
#[derive(Drop)]
struct Begun<F> {
    name: String,
    output: Output<F>,
}

impl<'a, R: Files + AllocGlobal> FolderVault<'a, R> {
    /// A vault with no file begun, and no faults yet.
    pub fn start(rt: &'a R) -> FolderVault<'a, R>
        ensures begun { (⟦<FolderVault<'a, R> as Vault>⟧.seen result).begun ≡ None }
        ensures faults { (⟦<FolderVault<'a, R> as Vault>⟧.seen result).faults ≡ 0 }
    {
        FolderVault {
            rt,
            begun: None,
            faults: 0,
        }
    }

    /// Counts a fault.
    fn fail(&mut self) -> PutFault
        ensures fault { result ≡ PutFault.Failed }
        ensures counted { self.new.faults ≡ one_more self.old.faults }
        ensures rose { Rose self.old.faults self.new.faults }
        ensures later { self.old.faults ≤ self.new.faults }
        ensures begun { self.new.begun ≡ self.old.begun }
    {
        self.faults = self.faults.saturating_add(1);
        PutFault::Failed
    }
}

impl<R: Files + AllocGlobal> Vault for FolderVault<'_, R> {
    ghost tells = { false };

    ghost seen = { λ vault. record {
      file = λ name. None;
      begun = option_map (λ begun. string_bytes begun.name) vault.begun;
      held = [];
      faults = vault.faults;
    } };

    ghost held_is = { λ told. absurd (false≢true told) };

    /// Begins the part of the file, in the place of one that a killed run left. `Failed` where the system doesn't, and
    /// where what has the name can't be written, as a folder or a file without the leave to.
    fn begin(&mut self, name: &str) -> Result<(), PutFault> {
        let alloc = self.rt.alloc();
        let Ok(name_copy) = String::from_str(alloc, name) else {
            return Err(PutFault::NoMemory);
        };
        let Ok(part) = part_name(alloc, name) else {
            return Err(PutFault::NoMemory);
        };
        match open(self.rt, name, part) {
            Ok(output) => {
                self.begun = Some(Begun {
                    name: name_copy,
                    output,
                });
                Ok(())
            }
            Err(_) => Err(self.fail()),
        }
    }

    /// Writes all of the bytes. `Failed` at an error, and where a write takes none of them.
    fn append(&mut self, bytes: &[u8]) -> Result<(), PutFault> {
        let Some(mut begun) = self.begun.take() else {
            unreachable!()
        };
        let outcome = begun.output.write(bytes, &mut self.faults);
        self.begun = Some(begun);
        outcome?;
        Ok(())
    }

    /// Puts the file in its place, once its bytes are on the disk. `Failed` where they don't get there, or a write failed:
    /// what had the name has it still.
    fn end(&mut self) -> Result<(), PutFault> {
        let Some(Begun { name, output }) = self.begun.take() else {
            unreachable!()
        };
        if output.close(self.rt, name.as_str()) {
            Ok(())
        } else {
            Err(self.fail())
        }
    }
}
