//! What a run is over, in memory, and what is looked at afterwards.

ghost use Rattle.std.specs.Prelude.{◌≡◌, IfOk, IsSome, IsTrue, None, length};
ghost use Rattle.std.specs.List.{concat};

use crate::clips::{grey, whites, zeros};
use crate::made::summed;
use std::alloc::{AllocError, Global};
use tl_ports::{MemSink, MemStore, MemVault, Sink, Vault};

/// Which calls fail, counted from 1: of the store, of the vault, of the screen and of `out`.
#[derive(Clone, Copy)]
pub struct Failing {
    pub store: &'static [u64],
    pub vault: &'static [u64],
    pub screen: &'static [u64],
    pub out: &'static [u64],
}

/// None fails.
pub const NONE_FAILS: Failing = Failing {
    store: &[],
    vault: &[],
    screen: &[],
    out: &[],
};

/// How a run is to end: its status, its lines, how many bytes `o.mkv` has if it is there, and the samples that the screen got.
#[derive(Clone, Copy)]
pub struct Ended {
    pub status: u8,
    pub lines: &'static str,
    pub exported: Option<usize>,
    pub shown: &'static [u8],
}

/// A list of a cut to the clip `A`, three frames of black, and its first two frames again.
const CUT: &str = "TITLE: CUT\nFCM: NON-DROP FRAME\n\
    001  A        V     C        00:00:00:01 00:00:00:03 01:00:00:00 01:00:00:02\n\
    002  A        V     C        00:00:00:00 00:00:00:02 01:00:00:05 01:00:00:07\n";

/// A list whose second line is a speed change.
const BAD: &str = "TITLE: BAD\nM2   A       025.0                00:00:00:00\n";

/// A list of 100 frames, and of a dissolve over 25 frames into 125.
const REEL: &str = "TITLE: REEL ONE\nFCM: NON-DROP FRAME\n\
    001  AX       V     C        00:00:00:00 00:00:04:00 01:00:00:00 01:00:04:00\n* FROM CLIP NAME: a.mov\n\
    002  AX       V     C        00:00:04:00 00:00:04:00 01:00:04:00 01:00:04:00\n\
    002  AX       V     D    025 00:00:01:00 00:00:06:00 01:00:04:00 01:00:09:00\n\
    * EFFECT NAME: CROSS DISSOLVE\n* FROM CLIP NAME: a.mov\n* TO CLIP NAME: b.mov\n";

/// Objects in memory.
#[derive(Drop)]
pub struct Outside {
    pub store: MemStore,
    pub vault: MemVault,
    pub screen: MemSink,
    pub out: MemSink,
}

/// Puts the edit list `reel.edl` and its clips: `zeros.mkv`, whose samples are all 0, and `whites.mkv`, whose samples are all 255.
fn add_reel(alloc: Global, store: &mut MemStore) -> Result<(), AllocError> {
    store.add("reel.edl", Vec::from_slice(alloc, REEL.as_bytes())?)?;
    store.add("zeros.mkv", zeros(alloc)?)?;
    store.add("whites.mkv", whites(alloc)?)?;
    Ok(())
}

/// A store with a script `s`, the clip `a.mkv`, the clip `b.mkv` with a damaged third packet, the edit lists `cut.edl` and `bad.edl`, and
/// `reel.edl` with its clips.
fn store_of(alloc: Global, script: &str, fail: &[u64]) -> Result<MemStore, AllocError> {
    let mut store = MemStore::start(alloc, Vec::from_slice(alloc, fail)?);
    store.add("s", Vec::from_slice(alloc, script.as_bytes())?)?;
    store.add("a.mkv", grey(alloc, 0x02)?)?;
    store.add("b.mkv", grey(alloc, 0x03)?)?;
    store.add("cut.edl", Vec::from_slice(alloc, CUT.as_bytes())?)?;
    store.add("bad.edl", Vec::from_slice(alloc, BAD.as_bytes())?)?;
    add_reel(alloc, &mut store)?;
    Ok(store)
}

impl Outside {
    /// A store with a script `s`, the clip `a.mkv`, the clip `b.mkv` with a damaged third packet, the edit lists `cut.edl` and `bad.edl`,
    /// and `reel.edl` with its clips; a vault without files; and a screen and `out` without bytes. Calls of these numbers fail.
    pub fn start(alloc: Global, script: &str, failing: Failing) -> Result<Outside, AllocError>
        ensures idle { IfOk result (λ outside. (⟦<MemVault as Vault>⟧.seen outside.vault).begun ≡ None) }
    {
        Ok(Outside {
            store: store_of(alloc, script, failing.store)?,
            vault: MemVault::start(alloc, Vec::from_slice(alloc, failing.vault)?),
            screen: MemSink::start(alloc, Vec::from_slice(alloc, failing.screen)?),
            out: MemSink::start(alloc, Vec::from_slice(alloc, failing.out)?),
        })
    }

    /// Whether these lines were put to `out`, and nothing else.
    pub fn has_lines(&self, lines: &str) -> bool
        ensures { IsTrue result → concat (⟦<MemSink as Sink>⟧.seen self.now.out).pieces ≡ lines.now }
    {
        self.out.bytes() == lines.as_bytes()
    }

    /// What is otherwise than it was to be after a run with this status, or nothing.
    pub fn differs(&self, status: u8, ended: Ended) -> Option<&'static str>
        ensures status { result ≡ None → status ≡ ended.status }
        ensures lines { result ≡ None → concat (⟦<MemSink as Sink>⟧.seen self.now.out).pieces ≡ ended.lines.now }
        ensures shown { result ≡ None → concat (⟦<MemSink as Sink>⟧.seen self.now.screen).pieces ≡ ended.shown.now }
    {
        if status != ended.status {
            return Some("the status");
        }
        if !self.has_lines(ended.lines) {
            return Some("the lines");
        }
        if self.vault.file("o.mkv").map(|file| file.len()) != ended.exported {
            return Some("the export");
        }
        if self.screen.bytes() != ended.shown {
            return Some("the screen");
        }
        None
    }

    /// Whether the vault has a file of this name, of so many bytes with this sum.
    pub fn has_file(&self, name: &str, wanted: (usize, u32)) -> bool
        ensures { IsTrue result → IsSome ((⟦<MemVault as Vault>⟧.seen self.now.vault).file name.now) }
    {
        match self.vault.file(name) {
            Some(bytes) => summed(bytes) == wanted,
            None => false,
        }
    }

    /// Whether the screen got so many samples with this sum.
    pub fn has_shown(&self, wanted: (usize, u32)) -> bool
        ensures { IsTrue result → length (concat (⟦<MemSink as Sink>⟧.seen self.now.screen).pieces) ≡ wanted.0 }
    {
        summed(self.screen.bytes()) == wanted
    }
}
