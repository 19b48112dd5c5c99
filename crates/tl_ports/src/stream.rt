//! Whole files in and whole pieces out, by single reads and writes.
//! A call that a signal interrupts is made again, and isn't a fault.

ghost use Rattle.std.specs.Prelude.{◌≡◌, ◌+◌, ◌-◌, ◌^◌, ◌<◌, ◌≤◌, length, take, drop, ◌++◌, ℕ, IfSome, IfOk, IfErr, OnOk, IsOkUnless, vec_len};
ghost use Rattle.tl_ports.specs.Outside.{PutHasCause};
ghost use Rattle.tl_ports.specs.FaultPlan.{CountsPut};
ghost use Rattle.tl_ports.specs.Stream.{Writes, IsReadFault, IsOver};
ghost use Rattle.std.specs.Io.{ReadsAtMost, StartsWith};
ghost use Rattle.std.specs.Io.KnownBytes.{Consumes, IsAtEnd};

use crate::fault::{FetchFault, PutFault};
use std::io::{Error, ErrorKind, Read, Write};

/// The most bytes of one read: enough for the speed of a disk, and few enough for a processor's cache.
const LONGEST_READ: usize = 256 * 1024;

fn is_interrupted(error: &Error) -> bool {
    error.kind() == ErrorKind::Interrupted
}

/// Writes all of the bytes. A write that takes none of them is a fault.
pub(crate) fn write_whole<W: Write>(to: &mut W, bytes: &[u8]) -> Result<(), PutFault>
    ensures { Writes (W.contents to.old) (W.contents to.new) bytes.now result }
{
    let mut rest = bytes;
    for _ in 0..u64::MAX {
        if rest.is_empty() {
            return Ok(());
        }
        match to.write(rest) {
            Ok(0) => return Err(PutFault::Failed),
            Ok(count) => rest = &rest[count..],
            Err(error) => {
                if !is_interrupted(&error) {
                    return Err(PutFault::Failed);
                }
            }
        }
    }
    Err(PutFault::Failed)
}

/// Writes all of the bytes, or counts a fault.
pub(crate) fn write_counted<W: Write>(
    to: &mut W,
    bytes: &[u8],
    faults: &mut u64,
) -> Result<(), PutFault>
    ensures written { Writes (W.contents to.old) (W.contents to.new) bytes.now result }
    ensures counted { CountsPut faults.old faults.new result }
    ensures known { IsOkUnless result PutFault.Failed }
    ensures later { faults.old ≤ faults.new }
    ensures cause { PutHasCause faults.old faults.new result }
{
    match write_whole(to, bytes) {
        Ok(()) => Ok(()),
        Err(_) => {
            *faults = faults.saturating_add(1);
            Err(PutFault::Failed)
        }
    }
}

fn read_once<R: Read>(file: &mut R, buffer: &mut [u8]) -> Result<usize, FetchFault>
    ensures bound { ReadsAtMost result buffer.new }
    ensures bytes { IfOk result (λ count. Consumes (R.remaining file.old) (R.remaining file.new) (take count buffer.new)) }
    ensures end { IfOk result (λ count. count ≡ 0 → 0 < length buffer.old → IsAtEnd (R.remaining file.new)) }
    ensures fails { IsOkUnless result FetchFault.Failed }
{
    for _ in 0..u64::MAX {
        match file.read(buffer) {
            Ok(count) => return Ok(count),
            Err(error) => {
                if !is_interrupted(&error) {
                    return Err(FetchFault::Failed);
                }
            }
        }
    }
    Err(FetchFault::Failed)
}

fn read_at<R: Read>(file: &mut R, buffer: &mut [u8], at: usize) -> Result<usize, FetchFault>
    requires { at < length buffer.old }
    ensures front { take at buffer.new ≡ take at buffer.old }
    ensures fits { IfOk result (λ count. at + count ≤ length buffer.new) }
    ensures bytes { IfOk result (λ count. Consumes (R.remaining file.old) (R.remaining file.new) (take count (drop at buffer.new))) }
    ensures end { IfOk result (λ count. count ≡ 0 → IsAtEnd (R.remaining file.new)) }
    ensures fails { IsOkUnless result FetchFault.Failed }
{
    read_once(file, &mut buffer[at..])
}

/// Makes the buffer longer by at least one byte and at most `most`, all 0, within its capacity where it has some left.
fn make_room(most: usize, into: &mut Vec<u8>) -> Result<(), FetchFault>
    requires { 0 < most }
    ensures front { StartsWith into.new.items into.old.items }
    ensures room { OnOk result (vec_len into.old < vec_len into.new) }
    ensures within { OnOk result (vec_len into.new ≤ vec_len into.old + most) }
    ensures fails { IsOkUnless result FetchFault.NoMemory }
{
    let len = into.len();
    if into.reserve(1).is_err() {
        return Err(FetchFault::NoMemory);
    }
    let room = (into.capacity() - len).min(most);
    match into.resize(len + room, 0) {
        Ok(()) => Ok(()),
        Err(_) => Err(FetchFault::NoMemory),
    }
}

/// Appends what one read gives, at most `most` bytes. At the end of the file it appends nothing.
fn read_piece<R: Read>(file: &mut R, most: usize, into: &mut Vec<u8>) -> Result<usize, FetchFault>
    requires { 0 < most }
    ensures front { StartsWith into.new.items into.old.items }
    ensures len { IfOk result (λ count. vec_len into.new ≡ vec_len into.old + count) }
    ensures within { IfOk result (λ count. count ≤ most) }
    ensures bytes { OnOk result (Consumes (R.remaining file.old) (R.remaining file.new) (drop (length into.old.items) into.new.items)) }
    ensures end { IfOk result (λ count. count ≡ 0 → IsAtEnd (R.remaining file.new)) }
    ensures fails { IfErr result IsReadFault }
{
    let len = into.len();
    make_room(most, into)?;
    let count = read_at(file, into.as_mut_slice(), len)?;
    into.truncate(len + count);
    Ok(count)
}

/// Appends the rest of a file, which is to have at most `limit` bytes.
pub(crate) fn read_whole<R: Read>(
    file: &mut R,
    limit: u64,
    into: &mut Vec<u8>,
) -> Result<(), FetchFault>
    ensures front { StartsWith into.new.items into.old.items }
    ensures within { OnOk result (vec_len into.new ≤ vec_len into.old + limit) }
    ensures whole { OnOk result (IfSome (R.remaining file.old) (λ text. into.new.items ≡ into.old.items ++ text)) }
    ensures over { IfErr result (IsOver limit (R.remaining file.old)) }
{
    let mut left = limit;
    for _ in 0..u64::MAX {
        let most = LONGEST_READ.min(left.saturating_add(1) as usize);
        let count = read_piece(file, most, into)? as u64;
        if count == 0 {
            return Ok(());
        }
        if count > left {
            return Err(FetchFault::TooLarge { limit });
        }
        left -= count;
    }
    Err(FetchFault::Failed)
}
