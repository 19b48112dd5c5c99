//! Worked values.

ghost use Rattle.std.specs.Prelude.{◌≡◌, negsuc};
ghost use Rattle.ffv1_rice.specs.State.{fresh, updated};

use ffv1_rice::{BitReader, BitWriter, RunReader, RunWriter, Step, VlcState, raise};
use std::process::Abort;
use std::test::Fail;

// Bytes, and the difference that a fresh state reads: the code 13 with parameter 2, the escape, and an escape that is too large.
#[rattlefmt::skip]
static READ: [([u8; 3], Option<i32>); 3] = [
    ([0x14, 0x00, 0x00], Some(-7)),
    ([0x00, 0x00, 0x00], Some(-6)),
    ([0x00, 0x0F, 0x50], None),
];

#[test]
fn values_read(rt: HostRuntime) -> Result<(), Fail> {
    for (bytes, difference) in &READ {
        let mut state = VlcState::fresh();
        assert_eq!(rt; state.read(&mut BitReader::over(bytes)).ok(), *difference);
    }
    let mut state = VlcState::fresh();
    let mut bits = BitReader::over(&READ[0].0);
    assert_eq!(rt; state.read(&mut bits), Ok(-7));
    assert_eq!(rt; bits.taken(), 6);
    worked_state();
    Ok(())
}

// A fresh state after the residual -7, by the definition.
fn worked_state()
    ensures { updated fresh (negsuc 6) ≡ record { drift = negsuc 0; error_sum = 11; bias = negsuc 0; count = 2 } }
{}

#[test]
fn values_written(rt: HostRuntime) -> Result<(), Fail> {
    let mut bits = BitWriter::start(rt.alloc());
    VlcState::fresh().write(&mut bits, -7)?;
    bits.bit(true)?;
    bits.put(0x1_0001, 20)?;
    bits.put(0xFFFF_FFFF, 32)?;
    bits.put(0x8000_0001, 32)?;
    assert_eq!(rt;
        bits.finish().as_slice(),
        [
            0x16, 0x20, 0x00, 0x3F, 0xFF, 0xFF, 0xFF, 0xF0, 0x00, 0x00, 0x00, 0x20
        ]
        .as_slice()
    );
    Ok(())
}

#[test]
fn lines_written(rt: HostRuntime) -> Result<(), Fail> {
    let mut states = [VlcState::fresh()];
    let mut differences = [0; 301];
    differences[300] = 5;
    let contexts = [0; 301];
    let mut bits = BitWriter::start(rt.alloc());
    let mut run = RunWriter::start();
    run.line(
        &mut bits,
        &mut states,
        &contexts[..300],
        &differences[..300],
    )?;
    assert_eq!(rt; bits.finish().as_slice(), [0xFF, 0xFF, 0xFE].as_slice());
    let mut states = [VlcState::fresh()];
    let mut bits = BitWriter::start(rt.alloc());
    let mut run = RunWriter::start();
    run.line(&mut bits, &mut states, &contexts, &differences)?;
    assert_eq!(rt; bits.finish().as_slice(), LINE.as_slice());
    Ok(())
}

// After a line of 300 samples 0 the next run has 128 samples: 2 of them and a 5 are 0, 7 bits and 00100.
#[test]
fn a_run_goes_on(rt: HostRuntime) -> Result<(), Fail> {
    let mut states = [VlcState::fresh()];
    let contexts = [0; 300];
    let mut bits = BitWriter::start(rt.alloc());
    let mut run = RunWriter::start();
    run.line(&mut bits, &mut states, &contexts, &[0; 300])?;
    let mut fresh = [VlcState::fresh()];
    run.line(&mut bits, &mut fresh, &contexts[..3], &[0, 0, 5])?;
    assert_eq!(rt;
        bits.finish().as_slice(),
        [0xFF, 0xFF, 0xFE, 0x04, 0x40].as_slice()
    );
    Ok(())
}

// 300 samples 0 and a 5: 22 bits 1, 00010000 and 00100.
static LINE: [u8; 5] = [0xFF, 0xFF, 0xFC, 0x40, 0x80];

// How many samples are left, and how many are 0 at once.
#[rattlefmt::skip]
static RUNS: [(u32, u32); 23] = [
    (301, 1), (300, 1), (299, 1), (298, 1), (297, 2), (295, 2), (293, 2), (291, 2), (289, 4), (285, 4), (281, 4), (277, 4),
    (273, 8), (265, 8), (257, 8), (249, 8), (241, 16), (225, 16), (209, 32), (177, 32), (145, 64), (81, 64), (17, 16),
];

#[test]
fn lines_read(rt: HostRuntime) -> Result<(), Fail> {
    let mut bits = BitReader::over(&LINE);
    let mut run = RunReader::start();
    run.start_line();
    for (left, count) in &RUNS {
        zeros_read(&rt, &mut run, &mut bits, *left, *count);
    }
    assert_eq!(rt; run.next(&mut bits, true, 1), Step::AfterRun);
    let mut state = VlcState::fresh();
    let difference = state.read(&mut bits).ok().ok_or("in range")?;
    assert!(rt; difference >= -128 && difference <= 127);
    assert_eq!(rt; raise(difference), 5);
    assert_eq!(rt; bits.taken(), 35);
    Ok(())
}

fn zeros_read(rt: &impl Abort, run: &mut RunReader, bits: &mut BitReader, left: u32, count: u32) {
    assert!(rt; left > 0 && left < 1000);
    assert_eq!(rt; run.next(bits, true, left), Step::Zeros(count));
}
