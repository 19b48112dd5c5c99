//! A store over a folder.

ghost use Rattle.std.specs.Prelude.{◌≡◌, ◌≢◌, ℕ, ◌+◌, ◌≤◌, false, None, IfErr, OnOk, vec_len};
ghost use Rattle.std.specs.Io.{StartsWith};
ghost use Rattle.tl_ports.specs.Stream.{IsOver};

use crate::fault::FetchFault;
use crate::ports::Store;
use crate::stream::read_whole;
use std::fs;
use std::fs::OpenFile;
use std::io::ErrorKind;
use std::rt::Files;

/// The files of the current folder and below it, to be read. A name is a path.
/// It tells no file. Its count rises at every error, at a missing file and at one over the limit.
#[derive(Drop)]
pub struct FolderStore<'a, R: Files> {
    rt: &'a R,
    faults: u64,
}

impl<'a, R: Files> FolderStore<'a, R> {
    /// A store with no faults yet.
    pub fn start(rt: &'a R) -> FolderStore<'a, R>
        ensures { (⟦<FolderStore<'a, R> as Store>⟧.seen result).faults ≡ 0 }
    {
        FolderStore { rt, faults: 0 }
    }
}

impl<R: Files> Store for FolderStore<'_, R> {
    ghost tells = { false };

    ghost seen = { λ store. record { file = λ name. None; faults = store.faults } };

    /// `Missing` where the system knows no such file, `TooLarge` where it has more than `limit` bytes, `NoMemory` where
    /// there is no room for it, and `Failed` at any other error, as at a folder.
    fn fetch(&mut self, name: &str, limit: u64, into: &mut Vec<u8>) -> Result<(), FetchFault> {
        let before = into.len();
        match read_file(self.rt, name, limit, into) {
            Ok(()) => Ok(()),
            Err(FetchFault::NoMemory) => {
                into.truncate(before);
                Err(FetchFault::NoMemory)
            }
            Err(fault) => {
                into.truncate(before);
                self.faults = self.faults.saturating_add(1);
                Err(fault)
            }
        }
    }
}

/// Appends a file of at most `limit` bytes, with room made for it once.
fn read_file<R: Files>(rt: &R, name: &str, limit: u64, into: &mut Vec<u8>) -> Result<(), FetchFault>
    ensures front { StartsWith into.new.items into.old.items }
    ensures within { OnOk result (vec_len into.new ≤ vec_len into.old + limit) }
    ensures over { IfErr result (IsOver limit None) }
{
    let mut file = match fs::open(rt, name) {
        Ok(file) => file,
        Err(error) => return Err(fault_of(error.kind())),
    };
    let Ok(metadata) = file.metadata() else {
        return Err(FetchFault::Failed);
    };
    if metadata.is_file() {
        let len = metadata.len();
        if len > limit {
            return Err(FetchFault::TooLarge { limit });
        }
        // One byte more, to notice the end.
        if into
            .reserve_exact((len as usize).saturating_add(1))
            .is_err()
        {
            return Err(FetchFault::NoMemory);
        }
    }
    read_whole(&mut file, limit, into)
}

fn fault_of(kind: ErrorKind) -> FetchFault
    ensures missing { kind ≡ ErrorKind.NotFound → result ≡ FetchFault.Missing }
    ensures failed { kind ≢ ErrorKind.NotFound → result ≡ FetchFault.Failed }
    ensures over { (limit : ℕ) → IsOver limit None result }
{
    match kind {
        ErrorKind::NotFound => FetchFault::Missing,
        _ => FetchFault::Failed,
    }
}
