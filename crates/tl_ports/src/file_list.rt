//! A small list of files in memory.

ghost use Rattle.std.specs.Prelude.{◌≡◌, ◌≢◌, ◌≤◌, ℕ, List, true, Some, None, [], OnOk, OnErr, vec_len, vec_capacity, position};
ghost use Rattle.std.specs.Option.{option_copied};
ghost use Rattle.tl_ports.specs.Outside.{AddsFile, FetchHasCause};
ghost use Rattle.tl_ports.specs.FileList.{has_name, file_in, store_of, latest_name, latest_bytes};

use crate::fault::FetchFault;
use std::alloc::{AllocError, Global};

/// A file in memory: its name and its bytes.
#[derive(Debug, Drop)]
pub(crate) struct MemFile {
    pub(crate) name: Vec<u8>,
    pub(crate) bytes: Vec<u8>,
}

/// Files, the latest first, with one file for a name.
#[derive(Debug, Drop)]
pub(crate) struct FileList {
    pub(crate) files: Vec<MemFile>,
}

impl FileList {
    pub(crate) fn new(alloc: Global) -> FileList
        ensures { (name : List ℕ) → file_in result.files.items name ≡ None }
    {
        FileList {
            files: Vec::new(alloc),
        }
    }

    pub(crate) fn allocator(&self) -> Global {
        *self.files.allocator()
    }

    /// The bytes of the file of a name.
    pub(crate) fn bytes_of(&self, name: &[u8]) -> Option<&[u8]>
        ensures { option_copied result ≡ file_in self.now.files.items name.now }
    {
        self.files
            .iter()
            .find(|file| file.name.as_slice() == name)
            .map(|file| file.bytes.as_slice())
    }

    /// Appends the whole file of a name, of at most `limit` bytes.
    pub(crate) fn fetch(&self, name: &str, limit: u64, into: &mut Vec<u8>) -> Result<(), FetchFault>
        ensures fetched { OnOk result (AddsFile true (store_of self.now.files.items 0)
            record { name = name.now; limit = limit } into.old.items into.new.items) }
        ensures buffer { OnErr result (into.new.items ≡ into.old.items) }
        ensures cause { (before now : ℕ) → now ≡ before → FetchHasCause true (store_of self.now.files.items before)
            (store_of self.now.files.items now) record { name = name.now; limit = limit } result }
        ensures known { result ≢ Err FetchFault.Failed }
    {
        let Some(bytes) = self.bytes_of(name.as_bytes()) else {
            return Err(FetchFault::Missing);
        };
        if bytes.len() as u64 > limit {
            return Err(FetchFault::TooLarge { limit });
        }
        match into.extend_from_slice(bytes) {
            Ok(()) => Ok(()),
            Err(_) => Err(FetchFault::NoMemory),
        }
    }

    fn place_of(&self, name: &[u8]) -> Option<usize>
        ensures { result ≡ position (has_name name.now) self.now.files.items }
    {
        self.files
            .iter()
            .position(|file| file.name.as_slice() == name)
    }

    /// Takes the file of a name away, where there is one.
    fn forget(&mut self, name: &[u8])
        ensures others { (other : List ℕ) → other ≢ name.now → file_in self.new.files.items other
            ≡ file_in self.old.files.items other }
        ensures len { vec_len self.new.files ≤ vec_len self.old.files }
        ensures capacity { vec_capacity self.new.files ≡ vec_capacity self.old.files }
    {
        if let Some(place) = self.place_of(name) {
            let _ = self.files.remove(place);
        }
    }

    /// Puts an empty file under a name, as the latest, in the place of one that is there.
    pub(crate) fn begin(&mut self, name: &[u8]) -> Result<(), AllocError>
        ensures file { OnOk result (file_in self.new.files.items name.now ≡ Some []) }
        ensures others { (other : List ℕ) → other ≢ name.now → file_in self.new.files.items other
            ≡ file_in self.old.files.items other }
        ensures latest { OnOk result (latest_name self.new.files.items ≡ Some name.now) }
        ensures held { OnOk result (latest_bytes self.new.files.items ≡ []) }
        ensures err { OnErr result (self.new.files.items ≡ self.old.files.items) }
    {
        let nothing = Vec::new(self.allocator());
        self.put(name, nothing)?;
        Ok(())
    }

    /// Puts a file under its name, as the latest, in the place of one that is there.
    pub(crate) fn put(&mut self, name: &[u8], bytes: Vec<u8>) -> Result<(), AllocError>
        ensures file { OnOk result (file_in self.new.files.items name.now ≡ Some bytes.items) }
        ensures others { (other : List ℕ) → other ≢ name.now → file_in self.new.files.items other
            ≡ file_in self.old.files.items other }
        ensures latest { OnOk result (latest_name self.new.files.items ≡ Some name.now) }
        ensures held { OnOk result (latest_bytes self.new.files.items ≡ bytes.items) }
        ensures err { OnErr result (self.new.files.items ≡ self.old.files.items) }
    {
        let name_copy = Vec::from_slice(self.allocator(), name)?;
        self.files.reserve(1)?;
        self.forget(name);
        let file = MemFile {
            name: name_copy,
            bytes,
        };
        self.files.insert(0, file).unwrap();
        Ok(())
    }
}
