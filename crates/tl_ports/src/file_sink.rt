//! A sink over a file.

ghost use Rattle.std.specs.Prelude.{◌≡◌, false, []};

use crate::fault::PutFault;
use crate::ports::Sink;
use crate::stream::write_counted;
use std::fs;
use std::rt::Files;

/// A file of a given name, created or emptied at the first put. It tells no bytes. Its count rises at every error.
#[derive(Drop)]
pub struct FileSink<'a, R: Files> {
    rt: &'a R,
    name: String,
    file: Option<R::File>,
    faults: u64,
}

impl<'a, R: Files> FileSink<'a, R> {
    /// A sink whose file isn't opened yet.
    pub fn start(rt: &'a R, name: String) -> FileSink<'a, R>
        ensures { (⟦<FileSink<'a, R> as Sink>⟧.seen result).faults ≡ 0 }
    {
        FileSink {
            rt,
            name,
            file: None,
            faults: 0,
        }
    }
}

impl<R: Files> Sink for FileSink<'_, R> {
    ghost tells = { false };

    ghost seen = { λ sink. record { pieces = []; faults = sink.faults } };

    /// `Failed` where the file can't be opened, at an error of a write, and where a write takes none of the bytes.
    fn put(&mut self, bytes: &[u8]) -> Result<(), PutFault> {
        let mut file = match self.file.take() {
            Some(file) => file,
            None => match fs::create(self.rt, self.name.as_str()) {
                Ok(file) => file,
                Err(_) => {
                    self.faults = self.faults.saturating_add(1);
                    return Err(PutFault::Failed);
                }
            },
        };
        let outcome = write_counted(&mut file, bytes, &mut self.faults);
        self.file = Some(file);
        outcome?;
        Ok(())
    }
}
