//! A sink in memory.

ghost use Rattle.std.specs.Prelude.{◌≡◌, ◌≤◌, true, [], length, sum};
ghost use Rattle.std.specs.List.{concat};
ghost use Rattle.tl_ports.specs.Outside.{PutsPiece, PutHasCause};
ghost use Rattle.tl_ports.specs.FaultPlan.{FailsNext, CountsCall, IsFresh, CountsPut};
ghost use Rattle.tl_ports.specs.Pieces.{cut, PutsPieceByPlan};

use crate::fault::PutFault;
use crate::fault_plan::FaultPlan;
use crate::ports::Sink;
use std::alloc::Global;

/// Bytes in memory, put one piece after another. It tells them.
#[derive(Debug, Drop)]
pub struct MemSink {
    bytes: Vec<u8>,
    /// How many bytes each piece has.
    lens: Vec<usize>,
    /// Which puts fail.
    pub plan: FaultPlan,
    ghost whole: { sum lens.items ≡ length bytes.items },
}

impl MemSink {
    /// A sink with no bytes, in which the puts of these numbers, counted from 1, are to fail.
    pub fn start(alloc: Global, fail: Vec<u64>) -> MemSink
        ensures empty { (⟦<MemSink as Sink>⟧.seen result).pieces ≡ [] }
        ensures plan { IsFresh result.plan fail.items }
        ensures faults { (⟦<MemSink as Sink>⟧.seen result).faults ≡ 0 }
    {
        MemSink {
            bytes: Vec::new(alloc),
            lens: Vec::new(alloc),
            plan: FaultPlan::new(fail),
        }
    }

    /// The bytes that were put, of all pieces.
    pub fn bytes(&self) -> &[u8]
        ensures { result.now ≡ concat (⟦<MemSink as Sink>⟧.seen self.now).pieces }
    {
        self.bytes.as_slice()
    }
}

impl Sink for MemSink {
    ghost tells = { true };

    ghost seen = { λ sink. record { pieces = cut sink.bytes.items sink.lens.items; faults = sink.plan.faults } };

    /// Where its number is in the list it adds the first half of the piece and answers `Failed`.
    fn put(&mut self, bytes: &[u8]) -> Result<(), PutFault>
        ensures added { PutsPiece true (⟦<MemSink as Sink>⟧.seen self.old) (⟦<MemSink as Sink>⟧.seen self.new) bytes.now result }
        ensures later { (⟦<MemSink as Sink>⟧.seen self.old).faults ≤ (⟦<MemSink as Sink>⟧.seen self.new).faults }
        ensures cause { PutHasCause (⟦<MemSink as Sink>⟧.seen self.old).faults (⟦<MemSink as Sink>⟧.seen self.new).faults result }
        ensures puts { PutsPieceByPlan (FailsNext self.old.plan) (⟦<MemSink as Sink>⟧.seen self.old).pieces
            (⟦<MemSink as Sink>⟧.seen self.new).pieces bytes.now result }
        ensures counted { CountsCall self.old.plan self.new.plan }
        ensures faults { CountsPut self.old.plan.faults self.new.plan.faults result }
    {
        if self.lens.reserve(1).is_err() {
            self.plan.next_call();
            return Err(PutFault::NoMemory);
        }
        let before = self.bytes.len();
        match self.plan.put(bytes, &mut self.bytes) {
            Ok(()) => {
                self.lens.push_reserved(self.bytes.len() - before);
                Ok(())
            }
            Err(PutFault::Failed) => {
                self.lens.push_reserved(self.bytes.len() - before);
                Err(PutFault::Failed)
            }
            Err(PutFault::NoMemory) => Err(PutFault::NoMemory),
        }
    }
}
