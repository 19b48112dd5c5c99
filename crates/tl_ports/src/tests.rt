//! Each object by its trait: the path that succeeds, and each refusal.

ghost use Rattle.std.specs.Prelude.{◌≡◌, None};

use crate::{
    CleanStore, CleanVault, FetchFault, FileSink, FolderStore, FolderVault, Gate, MemSink,
    MemStore, MemVault, OpenGate, OutSink, Point, PutFault, Sink, Store, Vault,
};
use std::fs;
use std::os::unix::fs::symlink;
use std::process::Abort;
use std::test::Fail;

/// What another thread may be given.
fn is_sent<T: Send>(_value: &T) {}

/// Writes a file in two pieces.
fn save<V: Vault>(vault: &mut V, name: &str, first: &[u8], second: &[u8]) -> Result<(), PutFault>
    requires { (V.seen vault.old).begun ≡ None }
    ensures { (V.seen vault.new).begun ≡ None }
{
    vault.begin(name)?;
    let first_put = vault.append(first);
    let second_put = vault.append(second);
    let ended = vault.end();
    first_put?;
    second_put?;
    ended
}

/// A fetch: the name, the limit, the answer, and what the buffer gains.
#[derive(Drop)]
struct Fetch<'a>(&'a str, u64, Result<(), FetchFault>, &'a [u8]);

/// Fetches behind the byte 9, and compares each answer and the buffer.
fn fetches<S: Store>(
    rt: &(impl Abort + AllocGlobal),
    store: &mut S,
    rows: &[Fetch<'_>],
) -> Result<(), Fail> {
    for Fetch(name, limit, answer, text) in rows {
        let mut into = vec![in rt.alloc(); 9u8]?;
        let outcome = store.fetch(name, *limit, &mut into);
        assert!(rt; outcome == *answer, "the answer for {name}");
        assert!(rt;
            into.first() == Some(&9) && into.get(1..) == Some(*text),
            "the buffer for {name}"
        );
    }
    Ok(())
}

/// Puts three pieces of three bytes, and compares the answers.
fn puts<S: Sink>(rt: &impl Abort, sink: &mut S, second: Result<(), PutFault>) {
    assert!(rt; sink.put(b"one") == Ok(()));
    assert!(rt; sink.put(b"two") == second);
    assert!(rt; sink.put(b"six") == Ok(()));
}

const TOO_LARGE: Result<(), FetchFault> = Err(FetchFault::TooLarge { limit: 2 });

const MISSING: Result<(), FetchFault> = Err(FetchFault::Missing);

const FAILED: Result<(), FetchFault> = Err(FetchFault::Failed);

#[rattlefmt::skip]
#[test]
fn stores_in_memory(rt: HostRuntime) -> Result<(), Fail> {
    let alloc = rt.alloc();
    let mut store = MemStore::start(alloc, vec![in alloc; 4]?);
    store.add("a", vec![in alloc; 7]?)?;
    store.add("b", vec![in alloc; 0]?)?;
    store.add("a", vec![in alloc; 1, 2, 3]?)?;
    fetches(&rt, &mut store, &[
        Fetch("a", 3, Ok(()), &[1, 2, 3]),
        Fetch("b", 3, Ok(()), &[0]),
        Fetch("c", 3, MISSING, &[]),
        Fetch("a", 3, FAILED, &[]),
        Fetch("a", 2, TOO_LARGE, &[]),
    ])?;
    is_sent(&store);
    let mut clean = CleanStore::start(alloc);
    clean.add("a", vec![in alloc; 7]?)?;
    clean.add("a", vec![in alloc; 1, 2, 3]?)?;
    fetches(&rt, &mut clean, &[
        Fetch("a", 3, Ok(()), &[1, 2, 3]),
        Fetch("a", 2, TOO_LARGE, &[]),
        Fetch("b", 3, MISSING, &[]),
    ])?;
    is_sent(&clean);
    Ok(())
}

#[test]
fn vaults_in_memory(rt: HostRuntime) -> Result<(), Fail> {
    let alloc = rt.alloc();
    let mut vault = MemVault::start(alloc, vec![in alloc; 6]?);
    assert!(rt; save(&mut vault, "a", &[1, 2], &[3]) == Ok(()));
    assert!(rt; save(&mut vault, "b", &[4, 5, 6], &[7]) == Err(PutFault::Failed));
    assert!(rt; save(&mut vault, "a", &[], &[8]) == Ok(()));
    assert!(rt; vault.file("a") == Some([8].as_slice()));
    assert!(rt; vault.file("b") == Some([4, 7].as_slice()));
    assert!(rt; vault.file("c").is_none());
    is_sent(&vault);
    let mut clean = CleanVault::start(alloc);
    assert!(rt; save(&mut clean, "a", &[1, 2], &[3]) == Ok(()));
    assert!(rt; clean.file("a") == Some([1, 2, 3].as_slice()));
    assert!(rt; clean.file("b").is_none());
    is_sent(&clean);
    Ok(())
}

#[test]
fn sink_in_memory(rt: HostRuntime) -> Result<(), Fail> {
    let alloc = rt.alloc();
    let mut sink = MemSink::start(alloc, vec![in alloc; 2]?);
    puts(&rt, &mut sink, Err(PutFault::Failed));
    assert!(rt; sink.bytes() == b"onetsix".as_slice());
    is_sent(&sink);
    OpenGate.at(Point::Idle, 3);
    Ok(())
}

/// Makes a folder for one test, in the place of one that is there.
fn make_folder(rt: &HostRuntime, name: &str) -> Result<(), Fail> {
    let _ = fs::remove_dir_all(rt, name);
    fs::create_dir(rt, name)?;
    Ok(())
}

#[rattlefmt::skip]
#[test]
fn folder(rt: HostRuntime) -> Result<(), Fail> {
    let alloc = rt.alloc();
    make_folder(&rt, "folder")?;
    // More than one read.
    let large = vec![in alloc; 5u8; 600_000]?;
    let mut vault = FolderVault::start(&rt);
    assert!(rt; save(&mut vault, "folder/a", &[1; 40], &[2]) == Ok(()));
    assert!(rt; save(&mut vault, "folder/a", &[1, 2], &[3]) == Ok(()));
    assert!(rt; save(&mut vault, "./folder/large", large.as_slice(), &[]) == Ok(()));
    assert!(rt; save(&mut vault, "folder/none/a", &[], &[]) == Err(PutFault::Failed));
    is_sent(&vault);
    let mut store = FolderStore::start(&rt);
    fetches(&rt, &mut store, &[
        Fetch("folder/a", 3, Ok(()), &[1, 2, 3]),
        Fetch("folder/large", u64::MAX, Ok(()), large.as_slice()),
        Fetch("folder/a", 2, TOO_LARGE, &[]),
        Fetch("folder/b", 3, MISSING, &[]),
        Fetch("folder", 3, FAILED, &[]),
    ])?;
    is_sent(&store);
    fs::remove_dir_all(&rt, "folder")?;
    Ok(())
}

/// Saves the bytes 1, 2, 3 under each name, and compares each answer.
fn saves<V: Vault>(rt: &impl Abort, vault: &mut V, rows: &[(&str, Result<(), PutFault>)])
    requires { (V.seen vault.old).begun ≡ None }
{
    for (name, answer) in rows {
        assert!(rt;
            save(vault, name, &[1, 2], &[3]) == *answer,
            "the answer for {name}"
        );
    }
}

/// Files, links, a folder, devices and parts that are there before.
#[rattlefmt::skip]
fn lay(rt: &HostRuntime) -> Result<(), Fail> {
    make_folder(rt, "laid")?;
    fs::create_dir(rt, "laid/folder")?;
    for name in ["laid/first", "laid/second", "laid/third", "laid/left.part"] {
        fs::write(rt, name, b"old")?;
    }
    symlink(rt, "first", "laid/link")?;
    fs::hard_link(rt, "laid/second", "laid/hard")?;
    symlink(rt, "nowhere", "laid/dangling")?;
    symlink(rt, "third", "laid/linked.part")?;
    symlink(rt, "/dev/full", "laid/full")?;
    Ok(())
}

#[rattlefmt::skip]
#[test]
fn replaced(rt: HostRuntime) -> Result<(), Fail> {
    lay(&rt)?;
    let mut vault = FolderVault::start(&rt);
    saves(&rt, &mut vault, &[
        ("laid/link", Ok(())),
        ("laid/hard", Ok(())),
        ("laid/dangling", Ok(())),
        ("laid/left", Ok(())),
        ("laid/linked", Ok(())),
        ("laid/folder", Err(PutFault::Failed)),
        ("laid/full", Err(PutFault::Failed)),
        ("/dev/null", Ok(())),
    ]);
    let mut store = FolderStore::start(&rt);
    fetches(&rt, &mut store, &[
        Fetch("laid/link", 9, Ok(()), &[1, 2, 3]),
        Fetch("laid/hard", 9, Ok(()), &[1, 2, 3]),
        Fetch("laid/dangling", 9, Ok(()), &[1, 2, 3]),
        Fetch("laid/left", 9, Ok(()), &[1, 2, 3]),
        Fetch("laid/linked", 9, Ok(()), &[1, 2, 3]),
        // What the links pointed to.
        Fetch("laid/first", 9, Ok(()), b"old"),
        Fetch("laid/second", 9, Ok(()), b"old"),
        Fetch("laid/third", 9, Ok(()), b"old"),
        Fetch("laid/nowhere", 9, MISSING, &[]),
        // No part is left.
        Fetch("laid/left.part", 9, MISSING, &[]),
        Fetch("laid/linked.part", 9, MISSING, &[]),
        Fetch("laid/folder.part", 9, MISSING, &[]),
        Fetch("laid/full.part", 9, MISSING, &[]),
    ])?;
    assert!(rt; fs::symlink_metadata(&rt, "laid/full")?.is_symlink());
    fs::remove_dir_all(&rt, "laid")?;
    Ok(())
}

#[test]
fn file_sink(rt: HostRuntime) -> Result<(), Fail> {
    make_folder(&rt, "sink")?;
    let mut sink = FileSink::start(&rt, String::from_str(rt.alloc(), "sink/out")?);
    puts(&rt, &mut sink, Ok(()));
    is_sent(&sink);
    let mut store = FolderStore::start(&rt);
    fetches(
        &rt,
        &mut store,
        &[Fetch("sink/out", 9, Ok(()), b"onetwosix")],
    )?;
    let mut nowhere = FileSink::start(&rt, String::from_str(rt.alloc(), "sink/none/out")?);
    assert!(rt; nowhere.put(&[]) == Err(PutFault::Failed));
    fs::remove_dir_all(&rt, "sink")?;
    Ok(())
}

#[test]
fn out_sink(rt: HostRuntime) {
    let mut sink = OutSink::start(&rt);
    puts(&rt, &mut sink, Ok(()));
    is_sent(&sink);
}
