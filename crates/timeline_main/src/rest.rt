//! The gate of the program: a thread that finds nothing to do rests there for a moment.

use std::thread;
use std::time::{Clock, Duration};
use tl_ports::{Gate, Point};

/// How long a thread rests, in microseconds.
const REST: u64 = 500;

/// Lets a thread rest where it finds nothing to do, and holds none at the other points.
#[derive(Clone, Copy, Drop)]
pub struct RestingGate<'a, R: Clock> {
    pub clock: &'a R,
}

impl<R: Clock> Gate for RestingGate<'_, R> {
    fn at(&self, point: Point, _number: u64) {
        match point {
            Point::Idle => thread::sleep(self.clock, Duration::from_micros(REST)),
            Point::Claimed | Point::Rendered | Point::Taken | Point::Played => {}
        }
    }
}
