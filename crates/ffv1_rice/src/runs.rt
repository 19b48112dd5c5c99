//! Runs of a line, read. RFC 9043 section 3.8.2.4.
ghost use Rattle.std.specs.Prelude.{◌≡◌, ℕ, ◌+◌, ◌-◌, ◌^◌, ◌<◌, ◌≤◌, ◌==◌, nat_le, min, if◌then◌else◌, ◌≤ℤ◌, pos, negsuc};
ghost use Rattle.ffv1_rice.specs.Bits.{Reading, number_at, skipped};
ghost use Rattle.ffv1_rice.specs.Runs.{run_bits, whole_run, first_run, line_run, source, entered, whole, broken, refilled, at_sample, stepped, next_step, raised, FitsLine};
ghost use Rattle.ffv1_rice.specs.Place.{run_of, IsPlace};

use crate::code::power;
use crate::reader::BitReader;
use std::marker::Model;

/// The run mode of RFC 9043: 0, 1 and 2.
#[derive(Clone, Copy, Debug, PartialEq, Eq)]
pub enum Mode {
    /// Each difference is read by the state of its context.
    Outside,
    /// A run goes on.
    Running,
    /// A run goes on up to a difference that breaks it.
    Ending,
}

/// What is to do at a sample.
#[derive(Clone, Copy, Debug, PartialEq, Eq)]
pub enum Step {
    /// So many samples, from this one on, have the difference 0, and no bits.
    Zeros(u32),
    /// The difference is read by the state of the sample's context.
    Difference,
    /// So it is, and a difference from 0 on is raised by 1.
    AfterRun,
}

#[derive(Clone, Copy)]
pub(crate) struct Place {
    mode: Mode,
    count: u32,
    index: u32,
}

// log2_run: how many bits tell where a run is broken.
#[rattlefmt::skip]
static LOG2_RUN: [u8; 41] = [
    0, 0, 0, 0, 1, 1, 1, 1, 2, 2, 2, 2, 3, 3, 3, 3,
    4, 4, 5, 5, 6, 6, 7, 7, 8, 9, 10, 11, 12, 13, 14, 15,
    16, 17, 18, 19, 20, 21, 22, 23, 24,
];

/// The run of a plane as its lines are read.
#[derive(Clone, Copy, Drop)]
pub struct RunReader {
    at: Place,
}

// Clauses see the mode, how many samples of the run are left, and the run index.
impl Model for RunReader {
    ghost use Rattle.ffv1_rice.specs.Runs.{Run};
    ghost use Rattle.ffv1_rice.specs.Place.{run_of, IsPlace};

    ghost Value = { Run };

    ghost view = { λ a. run_of a.at };

    ghost invariant = { λ a. IsPlace a.at };

    ghost inverse = { λ r. record { at = record { mode = r.mode; count = r.count; index = r.index } } };
}

impl RunReader {
    /// The run at the start of a plane of a slice.
    #[tactic(auto, unfolding(crate::specs::Runs::first_run))]
    pub fn start() -> RunReader
        ensures { result ≡ first_run }
    {
        RunReader {
            at: Place {
                mode: Mode::Outside,
                count: 0,
                index: 0,
            },
        }
    }

    /// The mode of the run.
    #[inline(always)]
    pub fn mode(&self) -> Mode
        ensures { result ≡ self.now.mode }
    {
        self.at.mode
    }

    /// Begins a line: only the run index goes on.
    #[tactic(auto, unfolding(crate::specs::Runs::line_run))]
    pub fn start_line(&mut self)
        ensures { self.new ≡ line_run self.old.index }
    {
        self.at = Place {
            mode: Mode::Outside,
            count: 0,
            index: self.at.index,
        };
    }

    /// What is to do at a sample whose context is 0 or isn't, where so many samples are left in the line, this one too. A run gives
    /// as many samples at once as it has in the line.
    #[inline]
    #[tactic(auto, unfolding(crate::specs::Runs::next_step))]
    pub fn next(&mut self, bits: &mut BitReader, context_is_zero: bool, left: u32) -> Step
        requires some { 0 < left }
        requires short { left < 2 ^ 24 }
        ensures step { next_step left left context_is_zero (source self.old bits.old) ≡ (result, source self.new bits.new) }
        ensures fits { FitsLine left result }
    {
        let at = arrive(self.at, bits, context_is_zero, left);
        let taken = take_step(at, left);
        self.at = taken.at;
        taken.step
    }
}

/// A difference that was read after a run: from 0 on it is raised by 1.
#[inline]
pub fn raise(difference: i32) -> i32
    requires least { negsuc 127 ≤ℤ difference }
    requires most { difference ≤ℤ pos 127 }
    ensures { result ≡ raised difference }
{
    if difference < 0 {
        difference
    } else {
        difference + 1
    }
}

// How many bits tell where a run is broken.
#[inline(always)]
pub(crate) fn run_bits(index: u32) -> u32
    requires { index ≤ 40 }
    ensures bits { result ≡ run_bits index }
    ensures few { result ≤ 24 }
    ensures last { index ≡ 40 → result ≡ 24 }
{
    u32::from(LOG2_RUN[index as usize])
}

// The run at a sample.
#[inline(always)]
#[tactic(auto, unfolding(crate::specs::Runs::at_sample))]
fn arrive(at: Place, bits: &mut BitReader, is_zero: bool, left: u32) -> Place
    requires place { IsPlace at }
    requires short { left < 2 ^ 24 }
    ensures source { at_sample left is_zero (source (run_of at) bits.old) ≡ source (run_of result) bits.new }
    ensures place { IsPlace result }
{
    let mode = enter(at.mode, is_zero);
    let inside = Place {
        mode,
        count: at.count,
        index: at.index,
    };
    if mode == Mode::Running && at.count == 0 {
        refill(inside, bits, left)
    } else {
        inside
    }
}

#[inline(always)]
fn enter(mode: Mode, is_zero: bool) -> Mode
    ensures { result ≡ entered mode is_zero }
{
    match mode {
        Mode::Outside => {
            if is_zero {
                Mode::Running
            } else {
                Mode::Outside
            }
        }
        Mode::Running => Mode::Running,
        Mode::Ending => Mode::Ending,
    }
}

// A bit says how a run goes on.
#[inline(always)]
#[tactic(auto, unfolding(crate::specs::Runs::whole, crate::specs::Runs::broken, crate::specs::Runs::whole_run))]
fn refill(at: Place, bits: &mut BitReader, left: u32) -> Place
    requires place { IsPlace at }
    requires short { left < 2 ^ 24 }
    ensures source { let s = source (run_of at) bits.old in
        (if number_at 1 bits.old.bits == 1 then whole left s else broken s) ≡ source (run_of result) bits.new }
    ensures place { IsPlace result }
{
    let length = run_bits(at.index);
    if bits.bit() {
        let count = power(length);
        Place {
            mode: Mode::Running,
            count,
            index: if count <= left {
                at.index + 1
            } else {
                at.index
            },
        }
    } else {
        Place {
            mode: Mode::Ending,
            count: bits.number(length),
            index: at.index.saturating_sub(1),
        }
    }
}

#[derive(Clone, Copy)]
struct StepTaken {
    step: Step,
    at: Place,
}

// A run goes on, or else a difference is read.
#[inline(always)]
#[tactic(auto, unfolding(crate::specs::Runs::zeros, crate::specs::Runs::after_run))]
fn take_step(at: Place, left: u32) -> StepTaken
    requires place { IsPlace at }
    requires some { 0 < left }
    ensures step { (r : Reading) → stepped left at.mode at.count (source (run_of at) r) ≡ (result.step, source (run_of result.at) r) }
    ensures fits { FitsLine left result.step }
    ensures place { IsPlace result.at }
{
    if at.mode == Mode::Outside {
        return StepTaken {
            step: Step::Difference,
            at,
        };
    }
    if at.count == 0 {
        return StepTaken {
            step: Step::AfterRun,
            at: Place {
                mode: Mode::Outside,
                count: at.count,
                index: at.index,
            },
        };
    }
    let count = at.count.min(left);
    StepTaken {
        step: Step::Zeros(count),
        at: Place {
            mode: at.mode,
            count: at.count - count,
            index: at.index,
        },
    }
}
