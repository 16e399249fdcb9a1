//! A driver that counts when it is dropped.

ghost use Rattle.std.specs.Prelude.{◌≡◌};

use bdev::{Accept, BlockDriver, Driver, Step};
use media::Media;
use message::BlockRequest;
use std::alloc::{AllocError, Global};
use std::sync::Arc;
use std::sync::atomic::{AtomicU64, Ordering};

/// A driver, and the count that grows by one once it is dropped.
pub(crate) struct Counted<D: BlockDriver> {
    driver: D,
    gone: Arc<AtomicU64>,
}

impl<D: BlockDriver> Counted<D> {
    pub(crate) fn new(driver: D, gone: Arc<AtomicU64>) -> Counted<D> {
        Counted { driver, gone }
    }
}

impl<D: BlockDriver> Drop for Counted<D> {
    fn drop(self) {
        let Self { driver: _, gone } = self;
        gone.fetch_add(1, Ordering::SeqCst);
    }
}

impl<D: BlockDriver> BlockDriver for Counted<D> {
    ghost state = { λ c. D.state c.driver };

    fn accept(&mut self, request: BlockRequest) -> Accept {
        self.driver.accept(request)
    }

    fn in_work(&self) -> Option<u32> {
        self.driver.in_work()
    }

    fn ready(&self, minor: u8) -> Option<(u32, u32)> {
        self.driver.ready(minor)
    }

    fn bad(&self) -> u64 {
        self.driver.bad()
    }

    fn step(&mut self, media: &mut Media, generation: u32) -> Step {
        self.driver.step(media, generation)
    }
}

/// The drivers, of which each adds one to the count as it is dropped.
pub(crate) fn each_counted(
    alloc: Global,
    drivers: Vec<Driver>,
    gone: &Arc<AtomicU64>,
) -> Result<Vec<Counted<Driver>>, AllocError> {
    let mut all: Vec<Counted<Driver>> = Vec::new(alloc);
    for driver in drivers {
        all.push(Counted::new(driver, Arc::try_clone(gone)?))?;
    }
    Ok(all)
}
