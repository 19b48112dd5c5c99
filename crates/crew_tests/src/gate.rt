//! A gate that holds threads where a run is to show that its parts are played at the same time.

use std::sync::atomic::AtomicU64;
use std::sync::atomic::Ordering::SeqCst;
use std::thread;
use tl_ports::{Gate, Point};

/// How many turns a hold has.
const HOLD_TURNS: u32 = 1_000_000_000;

/// After how many turns a hold lets other threads run.
const REST_TURNS: u32 = 1_000;

/// The bits of a gate's word: which points were called.
const PLAYED_0: u64 = 1;

const PLAYED_1: u64 = 2;

const TAKEN: u64 = 4;

const CLAIMED_1: u64 = 8;

const CLAIMED_2: u64 = 16;

const RENDERED_1: u64 = 32;

const RENDERED_2: u64 = 64;

/// A hold reached its limit.
const OVER: u64 = 128;

/// A gate that lets frame 0's play end only when an export was taken and the jobs 1 and 2 were rendered, which it holds at their claims
/// until both were claimed and frame 0 was played, and at their results until frame 1 was played. A hold whose turns are over ends all
/// holds.
#[derive(Drop)]
pub(crate) struct MeetingGate {
    word: AtomicU64,
}

/// The bit of a point that holds wait for, or 0.
fn bit_of(point: Point, number: u64) -> u64 {
    match (point, number) {
        (Point::Played, 0) => PLAYED_0,
        (Point::Played, 1) => PLAYED_1,
        (Point::Taken, _) => TAKEN,
        (Point::Claimed, 1) => CLAIMED_1,
        (Point::Claimed, 2) => CLAIMED_2,
        (Point::Rendered, 1) => RENDERED_1,
        (Point::Rendered, 2) => RENDERED_2,
        _ => 0,
    }
}

/// The bits that a thread waits for at a point.
fn awaited_at(point: Point, number: u64) -> u64 {
    match (point, number) {
        (Point::Played, 0) => TAKEN | RENDERED_1 | RENDERED_2,
        (Point::Taken, _) => PLAYED_0,
        (Point::Idle, _) => PLAYED_0,
        (Point::Claimed, 1) => PLAYED_0 | CLAIMED_1 | CLAIMED_2,
        (Point::Claimed, 2) => PLAYED_0 | CLAIMED_1 | CLAIMED_2,
        (Point::Rendered, 1) => PLAYED_1,
        (Point::Rendered, 2) => PLAYED_1,
        _ => 0,
    }
}

impl MeetingGate {
    /// A gate that was called at no point.
    pub(crate) fn new() -> MeetingGate {
        MeetingGate {
            word: AtomicU64::new(0),
        }
    }

    /// Whether a hold reached its limit.
    pub(crate) fn is_over(&self) -> bool {
        self.word.load(SeqCst) & OVER != 0
    }

    /// Waits for all of some bits. Each turn reads the word once.
    fn hold(&self, bits: u64) {
        for turn in 0..HOLD_TURNS {
            let word = self.word.load(SeqCst);
            if word & bits == bits || word & OVER != 0 {
                return;
            }
            if turn % REST_TURNS == 0 {
                thread::yield_now();
            }
        }
        self.word.fetch_or(OVER, SeqCst);
    }
}

impl Gate for MeetingGate {
    fn at(&self, point: Point, number: u64) {
        self.word.fetch_or(bit_of(point, number), SeqCst);
        self.hold(awaited_at(point, number));
    }
}
