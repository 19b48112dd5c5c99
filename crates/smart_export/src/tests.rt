//! Exports over a library whose pictures are numbers: some black frames, and one more.

mod numbers;

ghost use Rattle.std.specs.Prelude.{◌≡◌, ◌+◌, ◌≤◌, IfOk, length};
ghost use Rattle.tl_model.specs.Cells.{cells, cells_of};
ghost use Rattle.tl_model.specs.Segment.{IsPiece, ArePieces};
ghost use Rattle.tl_model.specs.Sound.{AreSound, IsSound};
ghost use Rattle.smart_export.specs.Numbers.{numbers};

use crate::export;
use numbers::Numbers;
use std::alloc::{AllocError, Global};
use std::process::Abort;
use std::test::Fail;
use tl_model::{Ending, FrameFault, Mix, RenderFault, Segment, Segments, Side};
use tl_ports::{MemVault, Vault};

/// The frame after the black ones.
#[derive(Clone, Copy, Debug, PartialEq, Eq)]
enum Last {
    /// One whose own packet is copied.
    Copied,
    /// One that would be too long if it were coded; its own packet is copied.
    CopiedLong,
    /// One of a clip whose packets can't be copied.
    Coded,
    /// Half of a dissolve from black.
    Mixed,
    /// One that can't be rendered.
    Faulty,
    /// One whose packet is too long.
    Long,
}

impl Last {
    fn segment(self) -> Segment
        ensures piece { IsPiece result }
        ensures sound { AreSound numbers (cells_of result) }
        ensures len { result.len ≡ 1 }
    {
        let (clip, frame, mix) = match self {
            Last::Copied => (0, 0, None),
            Last::CopiedLong => (0, 1, None),
            Last::Coded => (1, 0, None),
            Last::Mixed => (
                0,
                0,
                Some(Mix {
                    from: Side::Black,
                    done: 0,
                    steps: 1,
                    total: 1,
                }),
            ),
            Last::Faulty => (0, 2, None),
            Last::Long => (1, 1, None),
        };
        Segment {
            first: Side::Clip { clip, frame },
            len: 1,
            mix,
        }
    }
}

/// So many black frames, and one more.
fn timeline(alloc: Global, black: u32, last: Last) -> Result<Segments, AllocError>
    requires { black ≤ 1000 }
    ensures pieces { IfOk result (λ segments. ArePieces segments) }
    ensures sound { IfOk result (λ segments. IsSound numbers (cells segments)) }
    ensures len { IfOk result (λ segments. length (cells segments) ≡ black + 1) }
{
    let last = last.segment();
    if black == 0 {
        return Ok(Segments::from_vec(vec![in alloc; last]?));
    }
    let first = Segment {
        first: Side::Black,
        len: black,
        mix: None,
    };
    Ok(Segments::from_vec(vec![in alloc; first, last]?))
}

/// Exports that timeline to a vault of which the call of a number fails. Answers how it ended, and what was written.
fn exported(alloc: Global, black: u32, last: Last, fail: u64) -> Result<(Ending, Vec<u8>), Fail>
    requires { black ≤ 1000 }
{
    let mut vault = MemVault::start(alloc, vec![in alloc; fail]?);
    let state = timeline(alloc, black, last)?;
    vault.begin("o")?;
    let ending = export(alloc, &state, &Numbers, &mut vault, 25);
    let file = vault.file("o").ok_or("the vault has the file")?;
    Ok((ending, Vec::from_slice(alloc, file)?))
}

/// How many black frames, which one more, how the export ends, how long the file is, and the packet of the last frame in it.
struct Row {
    black: u32,
    last: Last,
    ending: Ending,
    len: usize,
    packet: &'static [u8],
}

const FAULT: RenderFault = RenderFault {
    clip: 0,
    frame: 2,
    kind: FrameFault::Empty,
};

/// 147 bytes stand before the first Cluster, 22 before the blocks in it, 13 before the packet in a block, and 39 behind one
/// Cluster. A full Cluster of black frames has 372.
#[rattlefmt::skip]
static ROWS: [Row; 8] = [
    Row { black: 0, last: Last::Copied, ending: Ending::Done { frames: 1 }, len: 223, packet: &[0, 7] },
    Row { black: 1, last: Last::CopiedLong, ending: Ending::Done { frames: 2 }, len: 237, packet: &[1, 7] },
    Row { black: 2, last: Last::Coded, ending: Ending::Done { frames: 3 }, len: 250, packet: &[0] },
    Row { black: 3, last: Last::Mixed, ending: Ending::Done { frames: 4 }, len: 264, packet: &[128] },
    Row { black: 0, last: Last::Faulty, ending: Ending::ClipFault { at: 0, fault: FAULT }, len: 147, packet: &[] },
    Row { black: 24, last: Last::Faulty, ending: Ending::ClipFault { at: 24, fault: FAULT }, len: 147, packet: &[] },
    Row { black: 25, last: Last::Faulty, ending: Ending::ClipFault { at: 25, fault: FAULT }, len: 519, packet: &[] },
    Row { black: 25, last: Last::Long, ending: Ending::SliceTooLong { at: 25 }, len: 519, packet: &[] },
];

#[test]
fn frames_are_copied_or_coded(rt: HostRuntime) -> Result<(), Fail> {
    for row in &ROWS {
        let (ending, file) = exported(rt.alloc(), row.black.min(1000), row.last, 0)?;
        assert_eq!(rt; ending, row.ending);
        assert_eq!(rt; file.len(), row.len);
        let from = 182 + 14 * row.black.min(1000) as usize;
        let found = file.get(from..from + row.packet.len());
        assert!(rt; row.packet.is_empty() || found == Some(row.packet));
    }
    Ok(())
}

/// The first call begins the file, two start it, two put each of the two Clusters, and one the Cues.
#[test]
fn each_failing_call_ends_it(rt: HostRuntime) -> Result<(), Fail> {
    for fail in 2..9 {
        let (ending, _) = exported(rt.alloc(), 25, Last::Copied, fail)?;
        assert_eq!(rt; ending, Ending::Sink);
    }
    let (ending, file) = exported(rt.alloc(), 25, Last::Copied, 9)?;
    assert_eq!(rt; ending, Ending::Done { frames: 26 });
    assert_eq!(rt; file.len(), 622);
    Ok(())
}
