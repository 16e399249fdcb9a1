//! A driver that counts the requests that it takes.

use lecternowl::{Accept, BlockDriver, BlockRequest, Media, Step};
use std::sync::Arc;
use std::sync::atomic::{AtomicU64, Ordering};

/// A driver that works as the one in it, and counts the requests that it takes.
#[derive(Drop)]
pub struct CountingDriver<D: BlockDriver> {
    driver: D,
    taken: Arc<AtomicU64>,
}

impl<D: BlockDriver> CountingDriver<D> {
    /// A driver that counts there.
    pub fn new(driver: D, taken: Arc<AtomicU64>) -> CountingDriver<D> {
        CountingDriver { driver, taken }
    }
}

impl<D: BlockDriver> BlockDriver for CountingDriver<D> {
    ghost state = { λ d. D.state d.driver };

    fn accept(&mut self, request: BlockRequest) -> Accept {
        let accept = self.driver.accept(request);
        if accept == Accept::Taken {
            self.taken.fetch_add(1, Ordering::SeqCst);
        }
        accept
    }

    fn in_work(&self) -> Option<u32> {
        self.driver.in_work()
    }

    fn ready(&self, minor: u8) -> Option<(u32, u32)> {
        self.driver.ready(minor)
    }

    fn bad(&self) -> u64 {
        self.driver.bad()
    }

    fn step(&mut self, media: &mut Media, generation: u32) -> Step {
        self.driver.step(media, generation)
    }
}
