//! A gate under which time may stand.

use gate::bell::Bell;
use gate::paced_gate::Paced;
use gate::{Gate, Point};
use std::sync::Wait;
use std::sync::atomic::{AtomicBool, Ordering};

/// A gate with the pace of a program's, under which no tick passes while time stands: no driver counts as hung then, however long its thread
/// waits for a processor.
#[derive(Drop)]
pub(crate) struct Standing<R: Wait + Copy> {
    paced: Paced<R>,
    stands: AtomicBool,
}

impl<R: Wait + Copy> Standing<R> {
    /// No tick has passed, and time goes on.
    pub(crate) fn new(rt: R) -> Standing<R> {
        Standing {
            paced: Paced::new(rt),
            stands: AtomicBool::new(false),
        }
    }

    /// From now on time stands, or goes on.
    pub(crate) fn set(&self, stands: bool) {
        self.stands.store(stands, Ordering::SeqCst);
    }
}

impl<R: Wait + Copy + Send + Sync> Gate for Standing<R> {
    fn pass(&self, at: Point) {
        self.pass_or_end(at, &Bell::new());
    }

    fn pass_or_end(&self, at: Point, end: &Bell) {
        self.paced.pass_or_end(at, end);
        for _ in 0..u64::MAX {
            if at != Point::Tick || end.is_rung() || !self.stands.load(Ordering::SeqCst) {
                return;
            }
            self.paced.pass_or_end(at, end);
        }
    }
}
