//! The written file, byte by byte where it matters.

ghost use Rattle.std.specs.Prelude.{IsTrue, ◌≡◌, ◌+◌, ◌≤◌, ◌^◌, length, None, IsSome, IfOk, OnOk};
ghost use Rattle.tl_limits.specs.Limits.{IsRecordLength, IsRate};
ghost use Rattle.mkv_write.specs.Writing.{put_of};

use mkv_write::{MkvWriter, WriteFault};
use std::alloc::{AllocError, Global};
use std::process::Abort;
use std::test::Fail;
use tl_ports::{MemVault, Vault};

/// Where the Segment's content begins.
const CONTENT: usize = 52;

const PACKET: [u8; 5] = [0xFF, 0xFF, 0, 0, 2];

/// What another thread may be given.
fn is_sent<T: Send>(_value: &T) {}

/// Begins the file `o` and starts its writer, for pictures of 2x2.
fn begin<V: Vault>(
    alloc: Global,
    vault: &mut V,
    private: &[u8],
    rate: u32,
) -> Result<MkvWriter, WriteFault>
    requires begun { (V.seen vault.old).begun ≡ None }
    requires private { IsRecordLength (length private.now) }
    requires rate { IsRate rate }
    ensures begun { OnOk result (IsSome (V.seen vault.new).begun) }
    ensures held { IfOk result (λ writer. IsTrue V.tells → (V.seen vault.new).held ≡ put_of writer) }
    ensures packets { IfOk result (λ writer. length writer.packets ≡ 0) }
{
    vault.begin("o")?;
    let writer = MkvWriter::start(alloc, vault, 2, 2, private, rate)?;
    Ok(writer)
}

/// Gives the packet so many times.
fn give<V: Vault>(writer: &mut MkvWriter, vault: &mut V, count: u32) -> Result<(), WriteFault>
    requires begun { IsSome (V.seen vault.old).begun }
    requires held { IsTrue V.tells → (V.seen vault.old).held ≡ put_of writer.old }
    requires room { length writer.old.packets + count ≤ 1000000 }
    ensures begun { OnOk result (IsSome (V.seen vault.new).begun) }
    ensures held { OnOk result (IsTrue V.tells → (V.seen vault.new).held ≡ put_of writer.new) }
    ensures packets { OnOk result (length writer.new.packets ≡ length writer.old.packets + count) }
{
    for _ in 0..count {
        writer.frame(vault, &PACKET)?;
    }
    Ok(())
}

/// The file of so many frames.
fn written(
    rt: &(impl Abort + AllocGlobal),
    private: &[u8],
    rate: u32,
    frames: u32,
) -> Result<Vec<u8>, Fail>
    requires private { IsRecordLength (length private.now) }
    requires rate { IsRate rate }
    requires frames { (1 ≤ frames) × (frames ≤ 1000) }
{
    let alloc = rt.alloc();
    let mut vault = MemVault::start(alloc, Vec::new(alloc));
    let mut writer = begin(alloc, &mut vault, private, rate)?;
    give(&mut writer, &mut vault, frames)?;
    let count = writer.finish(&mut vault)?;
    assert_eq!(rt; count, frames);
    let file = vault.file("o").ok_or("the vault has the file")?;
    Ok(Vec::from_slice(alloc, file)?)
}

/// The bytes of the file from this place in the Segment's content on.
fn assert_at(rt: &impl Abort, file: &[u8], place: usize, bytes: &[u8])
    requires { place + length bytes.now ≤ 2 ^ 32 }
{
    let from = CONTENT + place;
    let found = file.get(from..from + bytes.len());
    assert!(rt; found == Some(bytes), "at place {place}");
}

/// The time of each block of the first Cluster, and the packet in each.
fn assert_blocks(rt: &impl Abort, file: &[u8], size: usize, times: &[u16])
    requires size { size ≤ 65536 }
    requires times { length times.now ≤ 25 }
{
    for (index, time) in times.iter().enumerate() {
        let block = 94 + size + 22 + 18 * index;
        assert_at(rt, file, block, &[0xA3, 1, 0, 0, 0, 0, 0, 0, 9, 0x81]);
        assert_at(rt, file, block + 10, &time.to_be_bytes());
        assert_at(rt, file, block + 12, &[0x80]);
        assert_at(rt, file, block + 13, &PACKET);
    }
}

#[test]
fn one_cluster(rt: HostRuntime) -> Result<(), Fail> {
    for size in [1, 42, 256] {
        let record = vec![in rt.alloc(); 7u8; size]?;
        let file = written(&rt, &record, 25, 3)?;
        assert_eq!(rt; file.len(), 261 + size);
        assert_at(
            &rt,
            &file,
            94 + size,
            &[0x1F, 0x43, 0xB6, 0x75, 1, 0, 0, 0, 0, 0, 0, 0x40],
        );
        assert_blocks(&rt, &file, size, &[0, 40, 80]);
    }
    let file = written(&rt, &[7], 30, 4)?;
    assert_blocks(&rt, &file, 1, &[0, 33, 67, 100]);
    let file = written(&rt, &[7], 24, 2)?;
    assert_blocks(&rt, &file, 1, &[0, 42]);
    Ok(())
}

/// How many bytes the file has.
fn assert_len(rt: &impl Abort, vault: &MemVault, len: usize) {
    let file = vault.file("o");
    assert!(rt; file.map(|bytes| bytes.len()) == Some(len), "{len} bytes");
}

/// The Cues of two Clusters behind a record of `size` bytes: the times 0 and 1,000, and the places 94 and 566 after it.
#[rattlefmt::skip]
fn two_cues(alloc: Global, size: u64) -> Result<Vec<u8>, AllocError>
    requires { size ≤ 65536 }
{
    let mut cues = Vec::new(alloc);
    cues.extend_from_slice(&[0x1C, 0x53, 0xBB, 0x6B, 1, 0, 0, 0, 0, 0, 0, 54])?;
    cues.extend_from_slice(&[0xBB, 0x99, 0xB3, 0x88, 0, 0, 0, 0, 0, 0, 0, 0])?;
    cues.extend_from_slice(&[0xB7, 0x8D, 0xF7, 0x81, 1, 0xF1, 0x88])?;
    cues.extend_from_slice(&(94 + size).to_be_bytes())?;
    cues.extend_from_slice(&[0xBB, 0x99, 0xB3, 0x88, 0, 0, 0, 0, 0, 0, 3, 0xE8])?;
    cues.extend_from_slice(&[0xB7, 0x8D, 0xF7, 0x81, 1, 0xF1, 0x88])?;
    cues.extend_from_slice(&(566 + size).to_be_bytes())?;
    Ok(cues)
}

/// Two Clusters behind a record of `size` bytes: the bytes that stand in the vault after each call.
fn assert_streamed(rt: &(impl Abort + AllocGlobal), size: u32) -> Result<(), Fail>
    requires { (1 ≤ size) × (size ≤ 65536) }
{
    let alloc = rt.alloc();
    let record = vec![in alloc; 7u8; size as usize]?;
    let mut vault = MemVault::start(alloc, Vec::new(alloc));
    let mut writer = begin(alloc, &mut vault, &record, 25)?;
    let size = size as usize;
    assert_len(rt, &vault, 146 + size);
    give(&mut writer, &mut vault, 24)?;
    assert_len(rt, &vault, 146 + size);
    give(&mut writer, &mut vault, 1)?;
    assert_len(rt, &vault, 618 + size);
    give(&mut writer, &mut vault, 1)?;
    assert_len(rt, &vault, 618 + size);
    assert_eq!(rt; writer.finish(&mut vault)?, 26);
    assert_len(rt, &vault, 724 + size);
    let file = vault.file("o").ok_or("the vault has the file")?;
    let cues = two_cues(alloc, size as u64)?;
    assert!(rt; file.get(CONTENT + 606 + size..) == Some(cues.as_slice()));
    Ok(())
}

#[test]
fn two_clusters(rt: HostRuntime) -> Result<(), Fail> {
    for size in [1, 3, 256] {
        assert_streamed(&rt, size)?;
    }
    Ok(())
}

#[test]
fn failing_vault(rt: HostRuntime) -> Result<(), Fail> {
    let alloc = rt.alloc();
    let mut vault = MemVault::start(alloc, vec![in alloc; 2]?);
    let outcome = begin(alloc, &mut vault, &[7], 25);
    assert!(rt; matches!(outcome, Err(WriteFault::Sink)));
    is_sent(&outcome);
    Ok(())
}
