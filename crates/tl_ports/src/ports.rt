//! The traits to the outside: files to read, files to write, and a sink for bytes.

ghost use Rattle.std.specs.Prelude.{◌≡◌, ◌≤◌, Bool, IsTrue, None, IsSome, OnOk, OnErr};
ghost use Rattle.tl_ports.specs.Seen.{StoreSeen, VaultSeen, SinkSeen, IsLawful};
ghost use Rattle.tl_ports.specs.Outside.{AddsFile, FetchHasCause, Adds, PutsPiece, Begins, PutHasCause, KeepsOthers, KeepsBegun};

use crate::fault::{FetchFault, PutFault};

/// Files by name, to be read.
pub trait Store {
    /// Whether a store of this kind tells its files.
    ghost tells: { Bool };

    /// What is seen of a store.
    ghost seen: { Self → StoreSeen };

    /// Appends the whole file, of at most `limit` bytes, to the buffer.
    /// After a refusal the buffer holds what it held before.
    fn fetch(&mut self, name: &str, limit: u64, into: &mut Vec<u8>) -> Result<(), FetchFault>
        ensures fetched { OnOk result
            (AddsFile tells (seen self.old) record { name = name.now; limit = limit } into.old.items into.new.items) }
        ensures buffer { OnErr result (into.new.items ≡ into.old.items) }
        ensures cause { FetchHasCause tells (seen self.old) (seen self.new) record { name = name.now; limit = limit } result }
        ensures files { (seen self.new).file ≡ (seen self.old).file }
        ensures later { (seen self.old).faults ≤ (seen self.new).faults };
}

/// Files by name, to be written, one at a time.
pub trait Vault {
    /// Whether a vault of this kind tells its files.
    ghost tells: { Bool };

    /// What is seen of a vault.
    ghost seen: { Self → VaultSeen };

    /// Begins the file of this name, empty. After a refusal the file is as before or empty, and none is begun.
    fn begin(&mut self, name: &str) -> Result<(), PutFault>
        requires { (seen self.old).begun ≡ None }
        ensures begun { Begins tells (seen self.old) (seen self.new) name.now result }
        ensures others { KeepsOthers tells (seen self.old) (seen self.new) name.now }
        ensures later { (seen self.old).faults ≤ (seen self.new).faults }
        ensures cause { PutHasCause (seen self.old).faults (seen self.new).faults result };

    /// Adds bytes at the end of the begun file. After a refusal some front of them was added.
    fn append(&mut self, bytes: &[u8]) -> Result<(), PutFault>
        requires { IsSome (seen self.old).begun }
        ensures added { Adds tells (seen self.old) (seen self.new) bytes.now result }
        ensures kept { KeepsBegun tells (seen self.old) (seen self.new) }
        ensures cause { PutHasCause (seen self.old).faults (seen self.new).faults result };

    /// Ends the begun file. Whatever the answer, none is begun afterwards, and no contents change.
    fn end(&mut self) -> Result<(), PutFault>
        requires { IsSome (seen self.old).begun }
        ensures begun { (seen self.new).begun ≡ None }
        ensures files { IsTrue tells → (seen self.new).file ≡ (seen self.old).file }
        ensures later { (seen self.old).faults ≤ (seen self.new).faults }
        ensures cause { PutHasCause (seen self.old).faults (seen self.new).faults result };

    /// The begun file's bytes are those of the file of its name.
    ghost held_is: { IsTrue tells → (vault : Self) → IsLawful (seen vault) };
}

/// Takes bytes, one piece after another.
pub trait Sink {
    /// Whether a sink of this kind tells its bytes.
    ghost tells: { Bool };

    /// What is seen of a sink.
    ghost seen: { Self → SinkSeen };

    /// Adds the bytes. Where that fails some front of them was added, and where memory is wanting none.
    fn put(&mut self, bytes: &[u8]) -> Result<(), PutFault>
        ensures added { PutsPiece tells (seen self.old) (seen self.new) bytes.now result }
        ensures later { (seen self.old).faults ≤ (seen self.new).faults }
        ensures cause { PutHasCause (seen self.old).faults (seen self.new).faults result };
}
