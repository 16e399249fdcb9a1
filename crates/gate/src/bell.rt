//! A bell that ends a thread.

use std::sync::Wait;
use std::sync::atomic::{AtomicBool, Ordering};
use std::thread::Parker;
use std::time::Duration;

/// A bell that tells threads to end. One of them at a time may rest on it.
#[derive(Drop)]
pub struct Bell {
    rung: AtomicBool,
    parker: Parker,
}

impl Bell {
    /// It wasn't rung.
    pub fn new() -> Bell {
        Bell {
            rung: AtomicBool::new(false),
            parker: Parker::new(),
        }
    }

    /// Rings it for good: whoever rests on it goes on, and nobody rests on it any more.
    pub fn ring(&self) {
        self.rung.store(true, Ordering::SeqCst);
        self.parker.unpark();
    }

    /// Whether it was rung.
    pub fn is_rung(&self) -> bool {
        self.rung.load(Ordering::SeqCst)
    }

    /// Sleeps for so long, or until it is rung. It may come back earlier.
    pub fn rest<R: Wait>(&self, rt: &R, time: Duration) {
        if !self.is_rung() {
            self.parker.park_timeout(rt, time);
        }
    }
}
