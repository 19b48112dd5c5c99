//! A row of a slice's plane, read in Golomb-Rice mode. RFC 9043 sections 3.8.2 and 4.8.
ghost use Rattle.std.specs.Prelude.{◌≡◌, ℕ, ◌+◌, ◌-◌, ◌<◌, ◌≤◌, ◌^◌, IfOk, OnErr, Some, None, length, nat_abs, pos, negsuc, ◌≤ℤ◌, false};
ghost use Rattle.ffv1_rice.specs.Runs.{coding, source, sample_at, FitsLine};
ghost use Rattle.ffv1_predict.specs.Near.{context, AreNear};
ghost use Rattle.ffv1_predict.specs.Border.{rows};
ghost use Rattle.ffv1_slice.specs.Reading.{ContextsFit};
ghost use Rattle.ffv1_golomb.specs.Reading.{line, ReadsSample, ReadsRow, OutOfRangeInRow};
ghost use Rattle.ffv1_golomb.specs.Ahead.{coding_ahead, zeros_of, raising, IsInRun, is_outside};

use ffv1_predict::{Left, Near};
use ffv1_rice::{BitReader, Mode, OutOfRange, RunReader, Step, VlcState, raise};

/// The difference of a sample, and how many samples behind it lie in a run.
#[derive(Clone, Copy)]
struct Found {
    difference: i32,
    zeros: usize,
}

// Reads the difference of a sample in a context, where so many samples are left in the line, and a run goes on or may begin.
#[inline(never)]
fn read_difference(
    bits: &mut BitReader,
    run: &mut RunReader,
    states: &mut [VlcState],
    context: usize,
    left: u32,
) -> Result<Found, OutOfRange>
    requires context { context < length states.old }
    requires some { 0 < left }
    requires short { left < 2 ^ 24 }
    ensures ok { IfOk result (λ found. sample_at left context (coding (source run.old bits.old) states.old)
        ≡ Some (found.difference, coding_ahead found.zeros run.new states.new bits.new)) }
    ensures out_of_range { OnErr result (sample_at left context (coding (source run.old bits.old) states.old) ≡ None) }
    ensures in_run { IfOk result (λ found. 0 < found.zeros → IsInRun run.new.mode) }
    ensures fits { IfOk result (λ found. found.zeros < left) }
    ensures small { IfOk result (λ found. nat_abs found.difference < 256) }
{
    let step = run.next(bits, context == 0, left);
    let count = zeros_of(step);
    if count > 0 {
        return Ok(Found {
            difference: 0,
            zeros: (count - 1) as usize,
        });
    }
    let difference = states[context].read(bits)?;
    Ok(Found {
        difference: raise_by(step, difference),
        zeros: 0,
    })
}

// Whether no run goes on.
#[inline(always)]
fn is_outside(mode: Mode) -> bool
    ensures { result ≡ is_outside mode }
{
    match mode {
        Mode::Outside => true,
        Mode::Running => false,
        Mode::Ending => false,
    }
}

// How many samples a step takes of a run.
#[inline(always)]
fn zeros_of(step: Step) -> u32
    ensures zeros { result ≡ zeros_of step }
    ensures few { (left : ℕ) → FitsLine left step → result ≤ left }
{
    match step {
        Step::Zeros(count) => count,
        Step::Difference => 0,
        Step::AfterRun => 0,
    }
}

// A difference that was read at a step.
#[inline(always)]
fn raise_by(step: Step, difference: i32) -> i32
    requires least { negsuc 127 ≤ℤ difference }
    requires most { difference ≤ℤ pos 127 }
    ensures raised { result ≡ raising step difference }
    ensures small { nat_abs result < 256 }
{
    match step {
        Step::Zeros(_) => difference,
        Step::Difference => difference,
        Step::AfterRun => raise(difference),
    }
}

/// A sample, and how many samples behind it lie in a run.
#[derive(Clone, Copy)]
struct Seen {
    sample: u8,
    zeros: usize,
}

// Reads a sample where so many are left in the line, of which so many from this one on lie in a run that was read.
#[inline(always)]
fn read_sample(
    bits: &mut BitReader,
    run: &mut RunReader,
    states: &mut [VlcState],
    tables: &[[i16; 256]; 5],
    far: bool,
    near: Near,
    left: u32,
    zeros: usize,
) -> Result<Seen, OutOfRange>
    requires far { far ≡ false → AreNear tables.now }
    requires fit { ContextsFit tables.now (length states.old) }
    requires some { 0 < left }
    requires short { left < 2 ^ 24 }
    requires zeros { zeros ≤ left }
    requires in_run { 0 < zeros → IsInRun run.old.mode }
    ensures ok { IfOk result (λ seen. ReadsSample tables.now near seen.sample
        (line left (coding_ahead zeros run.old states.old bits.old))
        (line (left - 1) (coding_ahead seen.zeros run.new states.new bits.new))) }
    ensures out_of_range { OnErr result (sample_at left (nat_abs (context tables.now near))
        (coding_ahead zeros run.old states.old bits.old) ≡ None) }
    ensures in_run { IfOk result (λ seen. 0 < seen.zeros → IsInRun run.new.mode) }
    ensures fits { IfOk result (λ seen. seen.zeros < left) }
{
    let predicted = near.restored(0, 0);
    if zeros > 0 {
        return Ok(Seen {
            sample: predicted,
            zeros: zeros - 1,
        });
    }
    let context = near.context_by(tables, far);
    let magnitude = context.unsigned_abs() as usize;
    if magnitude > 0 && is_outside(run.mode()) {
        let difference = states[magnitude].read(bits)?;
        return Ok(Seen {
            sample: near.restored(context, i64::from(difference)),
            zeros: 0,
        });
    }
    let found = read_difference(bits, run, states, magnitude, left)?;
    Ok(Seen {
        sample: near.restored(context, i64::from(found.difference)),
        zeros: found.zeros,
    })
}

/// Reads the samples of a row below two others, by tables where the far neighbours count or that are flat for them. `OutOfRange`
/// comes exactly at the first sample whose residual is out of range.
#[inline(always)]
pub(crate) fn decode_row<'a>(
    mut bits: BitReader<'a>,
    run: &mut RunReader,
    states: &mut [VlcState],
    tables: &[[i16; 256]; 5],
    far: bool,
    above2: &[u8],
    above: &[u8],
    row: &mut [u8],
) -> Result<BitReader<'a>, OutOfRange>
    requires far { far ≡ false → AreNear tables.now }
    requires some { 0 < length row.old }
    requires short { length row.old < 2 ^ 24 }
    requires above2 { length above2.now ≡ length row.old }
    requires above { length above.now ≡ length row.old }
    requires fit { ContextsFit tables.now (length states.old) }
    ensures ok { IfOk result (λ after. ReadsRow tables.now (rows above2.now above.now row.new)
        (coding (source run.old bits.entry) states.old) (coding (source run.new after) states.new)) }
    ensures out_of_range { OnErr result (OutOfRangeInRow tables.now (rows above2.now above.now row.new)
        (coding (source run.old bits.entry) states.old)) }
{
    run.start_line();
    let mut here = *run;
    let mut left = Left::start(above2, above);
    let mut zeros = 0;
    for x in 0..row.len() {
        let near = left.near(above2, above, x);
        let rest = (row.len() - x) as u32;
        let seen = read_sample(&mut bits, &mut here, states, tables, far, near, rest, zeros)?;
        row[x] = seen.sample;
        left = Left::after(near, seen.sample);
        zeros = seen.zeros;
    }
    *run = here;
    Ok(bits)
}
