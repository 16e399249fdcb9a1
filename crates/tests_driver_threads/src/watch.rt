//! A gate that holds the first driver back, and sets the pace of ticks.
//!
//! Whoever waits here waits until what is awaited comes, however long that takes; a test in which it never comes is ended by the limit that
//! each test has.

use gate::bell::Bell;
use gate::{Gate, Point};
use std::sync::Arc;
use std::sync::atomic::{AtomicU64, Ordering};
use std::thread;
use std::time::{Clock, Duration};

/// How many milliseconds a tick takes at least. A driver is replaced that doesn't beat for sixteen: so one that waits for a processor isn't.
const PACE: u64 = 100;

/// A gate that holds each step of the driver of generation 1 until a count isn't 0, and each tick until it is allowed or all is to end.
pub(crate) struct Watch<R: Clock + Copy> {
    rt: R,
    // None where no driver is held.
    until: Option<Arc<AtomicU64>>,
    // Steps of driver 1 that came here, held or not.
    came: AtomicU64,
    // Steps of driver 1 that passed.
    passed: AtomicU64,
    // Ticks that came here, how many may pass, and how many passed.
    ticks: AtomicU64,
    allowed: AtomicU64,
    ticks_passed: AtomicU64,
}

impl<R: Clock + Copy> Drop for Watch<R> {
    fn drop(self) {
        let Self {
            rt: _,
            until: _,
            came: _,
            passed: _,
            ticks: _,
            allowed: _,
            ticks_passed: _,
        } = self;
    }
}

impl<R: Clock + Copy> Watch<R> {
    // A gate under which so many ticks may pass.
    fn new(rt: R, until: Option<Arc<AtomicU64>>, ticks: u64) -> Watch<R> {
        Watch {
            rt,
            until,
            came: AtomicU64::new(0),
            passed: AtomicU64::new(0),
            ticks: AtomicU64::new(0),
            allowed: AtomicU64::new(ticks),
            ticks_passed: AtomicU64::new(0),
        }
    }

    /// A gate that holds nobody.
    pub(crate) fn open(rt: R) -> Watch<R> {
        Watch::new(rt, None, u64::MAX)
    }

    /// A gate that holds the first driver until this count isn't 0.
    pub(crate) fn holding(rt: R, until: Arc<AtomicU64>) -> Watch<R> {
        Watch::new(rt, Some(until), u64::MAX)
    }

    /// A gate that holds no driver, and lets one tick pass, by which the first driver is started: until more are allowed none is replaced.
    pub(crate) fn ticking(rt: R) -> Watch<R> {
        Watch::new(rt, None, 1)
    }

    /// So many ticks may pass, from the first one on.
    pub(crate) fn allow(&self, ticks: u64) {
        self.allowed.store(ticks, Ordering::SeqCst);
    }

    /// How many ticks passed.
    pub(crate) fn ticks_passed(&self) -> u64 {
        self.ticks_passed.load(Ordering::SeqCst)
    }

    /// Waits until so many ticks have come here: what was to be done in each before the last is done.
    pub(crate) fn await_ticks(&self, ticks: u64) {
        await_count(&self.ticks, ticks);
    }

    /// How many steps of the first driver passed.
    pub(crate) fn passed(&self) -> u64 {
        self.passed.load(Ordering::SeqCst)
    }

    /// Waits until the first driver has come here for so many steps.
    pub(crate) fn await_come(&self, steps: u64) {
        await_count(&self.came, steps);
    }

    /// Waits until so many steps of the first driver have passed.
    pub(crate) fn await_passed(&self, steps: u64) {
        await_count(&self.passed, steps);
    }

    // A step of the first driver.
    fn step(&self) {
        self.came.fetch_add(1, Ordering::SeqCst);
        if let Some(count) = &self.until {
            await_count(count, 1);
        }
        self.passed.fetch_add(1, Ordering::SeqCst);
    }

    // A tick.
    fn tick(&self, end: &Bell) {
        thread::sleep(&self.rt, Duration::from_millis(PACE));
        let number = self.ticks.fetch_add(1, Ordering::SeqCst).saturating_add(1);
        for _ in 0..u64::MAX {
            if end.is_rung() || self.allowed.load(Ordering::SeqCst) >= number {
                break;
            }
            thread::yield_now();
        }
        self.ticks_passed.fetch_add(1, Ordering::SeqCst);
    }
}

/// Waits until a count is reached.
pub(crate) fn await_count(count: &AtomicU64, least: u64) {
    for _ in 0..u64::MAX {
        if count.load(Ordering::SeqCst) >= least {
            return;
        }
        thread::yield_now();
    }
}

impl<R: Clock + Copy + Send + Sync> Gate for Watch<R> {
    fn pass(&self, at: Point) {
        self.pass_or_end(at, &Bell::new());
    }

    fn pass_or_end(&self, at: Point, end: &Bell) {
        match at {
            Point::DriverStep(1) => self.step(),
            Point::DriverStep(_) => {}
            Point::FlusherTurn | Point::Tick => self.tick(end),
        }
    }
}
