//! A file that is written aside, and takes its place once it is whole.

ghost use Rattle.std.specs.Prelude.{◌≡◌, ◌≤◌, ◌++◌, codes, IfOk, IsOkUnless, string_bytes};
ghost use Rattle.tl_ports.specs.Outside.{PutHasCause};
ghost use Rattle.tl_ports.specs.FaultPlan.{CountsPut};

use crate::fault::PutFault;
use crate::stream::write_counted;
use std::alloc::{AllocError, Global};
use std::fs::{File, OpenFile, OpenOptions};
use std::io::{ErrorKind, Write};
use std::path::Path;
use std::rt::Files;
use std::{fs, io};

/// A file that is being written.
#[derive(Drop)]
pub(crate) struct Output<F> {
    file: F,
    /// The name of the part beside the file, which the bytes go to. None where they go straight to what isn't a file on
    /// a disk, as a pipe or a device.
    part: Option<String>,
    /// Whether every write was Ok.
    is_whole: bool,
}

impl<F: Write + OpenFile + Drop> Output<F> {
    /// Writes all of the bytes, or counts a fault.
    pub(crate) fn write(&mut self, bytes: &[u8], faults: &mut u64) -> Result<(), PutFault>
        ensures counted { CountsPut faults.old faults.new result }
        ensures known { IsOkUnless result PutFault.Failed }
        ensures later { faults.old ≤ faults.new }
        ensures cause { PutHasCause faults.old faults.new result }
    {
        match write_counted(&mut self.file, bytes, faults) {
            Ok(()) => Ok(()),
            Err(fault) => {
                self.is_whole = false;
                Err(fault)
            }
        }
    }

    /// Ends the file, and says whether it is whole, on the disk and under its name. If it isn't, what had the name has
    /// it still, and the part is gone.
    pub(crate) fn close(self, rt: &impl Files, name: &str) -> bool {
        let Output {
            mut file,
            part,
            is_whole,
        } = self;
        let Some(part) = part else {
            return is_whole && file.flush().is_ok();
        };
        if is_whole && put_in_place(rt, &mut file, part.as_str(), name).is_ok() {
            return sync_folder(rt, name);
        }
        let _ = fs::remove_file(rt, part.as_str());
        false
    }
}

/// The name of a file's part: beside it, in the same folder.
pub(crate) fn part_name(alloc: Global, name: &str) -> Result<String, AllocError>
    ensures { IfOk result (λ part. string_bytes part ≡ name.now ++ codes ".part") }
{
    let mut part = String::from_str(alloc, name)?;
    part.push_str(".part")?;
    Ok(part)
}

/// Opens the file of a name to be written. An error where what has the name can't be written, as a folder.
pub(crate) fn open<R: Files>(rt: &R, name: &str, part: String) -> io::Result<Output<R::File>> {
    match open_stream(rt, name)? {
        Some(file) => Ok(Output {
            file,
            part: None,
            is_whole: true,
        }),
        None => Ok(Output {
            file: create_part(rt, part.as_str())?,
            part: Some(part),
            is_whole: true,
        }),
    }
}

/// Opens what isn't a file on a disk. None where the name has nothing, or a file that can be written.
fn open_stream<R: Files>(rt: &R, name: &str) -> io::Result<Option<R::File>> {
    match OpenOptions::new().write(true).open(rt, name) {
        Ok(file) => {
            if file.metadata()?.is_file() {
                Ok(None)
            } else {
                Ok(Some(file))
            }
        }
        Err(error) => {
            if error.kind() == ErrorKind::NotFound {
                Ok(None)
            } else {
                Err(error)
            }
        }
    }
}

/// Makes the part anew: one that a killed run left is removed, and a link in its place isn't followed.
fn create_part<R: Files>(rt: &R, part: &str) -> io::Result<R::File> {
    let _ = fs::remove_file(rt, part);
    File::create_new(rt, part)
}

/// Hands the part to the disk and gives it the file's name, which another file or a link loses by that.
fn put_in_place<F: Write + OpenFile>(
    rt: &impl Files,
    file: &mut F,
    part: &str,
    name: &str,
) -> io::Result<()> {
    file.flush()?;
    file.sync_all()?;
    fs::rename(rt, part, name)
}

/// Hands the names in a file's folder to the disk. A folder that can't be synced, as on some network disks, needn't be.
fn sync_folder(rt: &impl Files, name: &str) -> bool {
    let folder = match Path::new(name).parent() {
        Some(parent) => parent.as_str(),
        None => "",
    };
    match fs::open(rt, if folder.is_empty() { "." } else { folder }) {
        Ok(folder) => match folder.sync_all() {
            Ok(()) => true,
            Err(error) => matches!(
                error.kind(),
                ErrorKind::InvalidInput | ErrorKind::Unsupported
            ),
        },
        Err(_) => true,
    }
}
