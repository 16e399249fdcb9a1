//! A gate that lets a tick pass each tenth of a second, or as often as it is told.

use crate::bell::Bell;
use crate::{Gate, Point};
use std::sync::Wait;
use std::sync::atomic::{AtomicBool, Ordering};
use std::time::Duration;

/// How long a turn of the flusher is, and a tick where nothing else is said, in milliseconds.
pub const PACE: u16 = 100;

/// The first tick passes at once, so that a driver is there for the first request; each later one after the length of a tick, and each turn
/// of the flusher after a tenth of a second, or as soon as the thread is told to end. Steps of drivers pass at once.
pub struct Paced<R: Wait + Copy> {
    rt: R,
    // The length of a tick, in milliseconds.
    tick: u16,
    // Whether a tick has passed.
    ticked: AtomicBool,
}

impl<R: Wait + Copy> Drop for Paced<R> {
    fn drop(self) {
        let Self {
            rt: _,
            tick: _,
            ticked: _,
        } = self;
    }
}

impl<R: Wait + Copy> Paced<R> {
    /// No tick has passed. One is a tenth of a second.
    pub fn new(rt: R) -> Paced<R> {
        Paced::ticking(rt, PACE)
    }

    /// No tick has passed. One is so many milliseconds.
    pub fn ticking(rt: R, tick: u16) -> Paced<R> {
        Paced {
            rt,
            tick,
            ticked: AtomicBool::new(false),
        }
    }

    fn wait(&self, end: &Bell, millis: u16) {
        end.rest(&self.rt, Duration::from_millis(u64::from(millis)));
    }
}

impl<R: Wait + Copy + Send + Sync> Gate for Paced<R> {
    fn pass(&self, at: Point) {
        self.pass_or_end(at, &Bell::new());
    }

    fn pass_or_end(&self, at: Point, end: &Bell) {
        match at {
            Point::DriverStep(_) => {}
            Point::FlusherTurn => self.wait(end, PACE),
            Point::Tick => {
                if self.ticked.swap(true, Ordering::SeqCst) {
                    self.wait(end, self.tick);
                }
            }
        }
    }
}
