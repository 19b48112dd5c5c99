//! Calls that are to fail, by their numbers.

ghost use Rattle.std.specs.Prelude.{◌≡◌, ◌≤◌, ◌↔◌, ◌++◌, IsTrue, OnOk, IfErr};
ghost use Rattle.std.specs.Bool.{OnTrue};
ghost use Rattle.tl_ports.specs.Outside.{Rose, PutHasCause};
ghost use Rattle.tl_ports.specs.FaultPlan.{FailsNext, CountsCall, CountsFault, IsFresh, PutsByPlan, CountsPut};

use crate::fault::PutFault;

/// Which calls of an object in memory fail: those whose numbers, counted from 1, stand in a list.
/// The count stops at the last value of a `u64`.
#[derive(Debug, Drop)]
pub struct FaultPlan {
    next: u64,
    fail: Vec<u64>,
    faults: u64,
}

impl FaultPlan {
    pub(crate) fn new(fail: Vec<u64>) -> FaultPlan
        ensures { IsFresh result fail.items }
    {
        FaultPlan {
            next: 1,
            fail,
            faults: 0,
        }
    }

    /// Counts a call, and says whether it is to fail. The fault isn't counted yet.
    pub(crate) fn next_call(&mut self) -> bool
        ensures fails { IsTrue result ↔ FailsNext self.old }
        ensures counted { CountsCall self.old self.new }
        ensures faults { self.new.faults ≡ self.old.faults }
    {
        let fails = self.fail.contains(&self.next);
        self.next = self.next.saturating_add(1);
        fails
    }

    /// Counts a call, and a fault where it is to fail. Says whether it is.
    pub(crate) fn next_fails(&mut self) -> bool
        ensures fails { IsTrue result ↔ FailsNext self.old }
        ensures counted { CountsCall self.old self.new }
        ensures faults { CountsFault self.old self.new }
        ensures rose { OnTrue result (Rose self.old.faults self.new.faults) }
        ensures later { self.old.faults ≤ self.new.faults }
    {
        let fails = self.next_call();
        if fails {
            self.faults = self.faults.saturating_add(1);
        }
        fails
    }

    /// Counts a call. Adds a piece at the end of some bytes, or the first half of it where the call is to fail, and then
    /// counts a fault.
    pub(crate) fn put(&mut self, piece: &[u8], bytes: &mut Vec<u8>) -> Result<(), PutFault>
        ensures puts { PutsByPlan (FailsNext self.old) bytes.old.items bytes.new.items piece.now result }
        ensures counted { CountsCall self.old self.new }
        ensures faults { CountsPut self.old.faults self.new.faults result }
        ensures cause { PutHasCause self.old.faults self.new.faults result }
        ensures later { self.old.faults ≤ self.new.faults }
    {
        if self.next_call() {
            append(&piece[..piece.len() / 2], bytes)?;
            self.faults = self.faults.saturating_add(1);
            return Err(PutFault::Failed);
        }
        append(piece, bytes)?;
        Ok(())
    }
}

fn append(piece: &[u8], bytes: &mut Vec<u8>) -> Result<(), PutFault>
    ensures ok { OnOk result (bytes.new.items ≡ bytes.old.items ++ piece.now) }
    ensures err { IfErr result (λ fault. (fault ≡ PutFault.NoMemory) × (bytes.new.items ≡ bytes.old.items)) }
{
    match bytes.extend_from_slice(piece) {
        Ok(()) => Ok(()),
        Err(_) => Err(PutFault::NoMemory),
    }
}
