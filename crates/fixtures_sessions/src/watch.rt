//! A gate that holds threads back and sets the pace of ticks.
//!
//! Whoever waits at it waits until what is awaited comes, however long that takes; a test in which it never comes is ended by the limit that
//! each test has.

use fixtures::gates::Ticking;
use gate::bell::Bell;
use gate::{Gate, Point};
use std::sync::Arc;
use std::sync::atomic::{AtomicBool, AtomicU64, Ordering};
use std::thread;
use std::time::Clock;

/// How many milliseconds a tick takes at least, and a turn of the flusher. A driver is replaced that doesn't beat for sixteen ticks: so one
/// that waits for a processor isn't.
pub const PACE: u64 = 100;

/// Which threads a gate can hold.
#[derive(Clone, Copy, Debug, PartialEq, Eq)]
pub enum Holds {
    /// The flusher.
    Flusher,
    /// The first driver.
    FirstDriver,
    /// Each driver.
    Drivers,
}

impl Holds {
    // Whether it is held at this place.
    fn has(self, at: Point) -> bool {
        match at {
            Point::DriverStep(1) => self != Holds::Flusher,
            Point::DriverStep(_) => self == Holds::Drivers,
            Point::FlusherTurn => self == Holds::Flusher,
            Point::Tick => false,
        }
    }
}

/// A gate that holds some threads from `hold` on until `let_go`.
pub struct Watch<R: Clock + Copy> {
    ticking: Ticking<R>,
    holds: Holds,
    holding: AtomicBool,
    // Steps of drivers that came while drivers were held, and those of them that passed.
    came: AtomicU64,
    passed: AtomicU64,
    // Turns of the flusher that came, and that passed.
    flusher_came: AtomicU64,
    flusher_passed: AtomicU64,
    // Steps of drivers but the first.
    later: AtomicU64,
}

impl<R: Clock + Copy> Drop for Watch<R> {
    fn drop(self) {
        let Self {
            ticking: _,
            holds: _,
            holding: _,
            came: _,
            passed: _,
            flusher_came: _,
            flusher_passed: _,
            later: _,
        } = self;
    }
}

impl<R: Clock + Copy> Watch<R> {
    /// A gate that can hold these, and holds nobody yet. A tick takes so many milliseconds.
    pub fn new(rt: R, holds: Holds, pace: u64) -> Watch<R> {
        Watch {
            ticking: Ticking::new(rt, pace),
            holds,
            holding: AtomicBool::new(false),
            came: AtomicU64::new(0),
            passed: AtomicU64::new(0),
            flusher_came: AtomicU64::new(0),
            flusher_passed: AtomicU64::new(0),
            later: AtomicU64::new(0),
        }
    }

    /// Who comes from now on is held.
    pub fn hold(&self) {
        self.holding.store(true, Ordering::SeqCst);
    }

    /// All go on.
    pub fn let_go(&self) {
        self.holding.store(false, Ordering::SeqCst);
    }

    /// How many held steps of drivers have passed.
    pub fn passed(&self) -> u64 {
        self.passed.load(Ordering::SeqCst)
    }

    /// How many turns of the flusher have passed.
    pub fn flusher_passed(&self) -> u64 {
        self.flusher_passed.load(Ordering::SeqCst)
    }

    /// How many steps drivers but the first have taken.
    pub fn later(&self) -> u64 {
        self.later.load(Ordering::SeqCst)
    }

    /// Waits until a driver is held.
    pub fn awaits_held(&self) {
        await_count(&self.came, 1);
    }

    /// Waits until a held step of a driver has passed.
    pub fn awaits_passed(&self) {
        await_count(&self.passed, 1);
    }

    /// Waits until the flusher has come for its turn.
    pub fn awaits_flusher(&self) {
        await_count(&self.flusher_came, 1);
    }

    /// Waits until the flusher has passed.
    pub fn awaits_flush(&self) {
        await_count(&self.flusher_passed, 1);
    }

    // Holds a thread until all go on, or it is told to end.
    fn stand(&self, end: &Bell) {
        for _ in 0..u64::MAX {
            if end.is_rung() || !self.holding.load(Ordering::SeqCst) {
                return;
            }
            thread::yield_now();
        }
    }

    // Holds a thread, if it is to be held here now. Whether it was.
    fn is_held(&self, at: Point, came: &AtomicU64, end: &Bell) -> bool {
        if !self.holds.has(at) || !self.holding.load(Ordering::SeqCst) {
            return false;
        }
        came.fetch_add(1, Ordering::SeqCst);
        self.stand(end);
        true
    }

    // A step of a driver.
    fn step(&self, at: Point, end: &Bell) {
        if self.is_held(at, &self.came, end) {
            self.passed.fetch_add(1, Ordering::SeqCst);
        }
        if at != Point::DriverStep(1) {
            self.later.fetch_add(1, Ordering::SeqCst);
        }
    }

    // A turn of the flusher.
    fn turn(&self, end: &Bell) {
        self.ticking.turn(end);
        if !self.is_held(Point::FlusherTurn, &self.flusher_came, end) {
            self.flusher_came.fetch_add(1, Ordering::SeqCst);
        }
        self.flusher_passed.fetch_add(1, Ordering::SeqCst);
    }
}

/// Waits until a count is reached.
pub fn await_count(count: &AtomicU64, least: u64) {
    for _ in 0..u64::MAX {
        if count.load(Ordering::SeqCst) >= least {
            return;
        }
        thread::yield_now();
    }
}

/// Waits until nobody else has a gate: all threads that ask it have ended then.
pub fn await_alone<R: Clock + Copy>(gate: &Arc<Watch<R>>) {
    for _ in 0..u64::MAX {
        if Arc::strong_count(gate) == 1 {
            return;
        }
        thread::yield_now();
    }
}

impl<R: Clock + Copy + Send + Sync> Gate for Watch<R> {
    fn pass(&self, at: Point) {
        self.pass_or_end(at, &Bell::new());
    }

    fn pass_or_end(&self, at: Point, end: &Bell) {
        match at {
            Point::DriverStep(_) => self.step(at, end),
            Point::FlusherTurn => self.turn(end),
            Point::Tick => {
                self.ticking.tick(end);
            }
        }
    }
}
