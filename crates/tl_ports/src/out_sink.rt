//! A sink over the standard output.

ghost use Rattle.std.specs.Prelude.{◌≡◌, false, []};

use crate::fault::PutFault;
use crate::ports::Sink;
use crate::stream::write_counted;
use std::io;

/// The standard output. It tells no bytes. Its count rises at every error.
#[derive(Drop)]
pub struct OutSink<'a, R: Print> {
    rt: &'a R,
    faults: u64,
}

impl<'a, R: Print> OutSink<'a, R> {
    /// A sink with no faults yet.
    pub fn start(rt: &'a R) -> OutSink<'a, R>
        ensures { (⟦<OutSink<'a, R> as Sink>⟧.seen result).faults ≡ 0 }
    {
        OutSink { rt, faults: 0 }
    }
}

impl<R: Print> Sink for OutSink<'_, R> {
    ghost tells = { false };

    ghost seen = { λ sink. record { pieces = []; faults = sink.faults } };

    /// `Failed` at an error of a write, and where a write takes none of the bytes.
    fn put(&mut self, bytes: &[u8]) -> Result<(), PutFault> {
        write_counted(&mut io::writer(self.rt), bytes, &mut self.faults)?;
        Ok(())
    }
}
