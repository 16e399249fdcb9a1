//! A driver that is stepped with room for the bytes of its answers.
use bdev::{Accept, BlockDriver, Step};
use media::Media;
use message::BlockRequest;

/// A driver each of whose steps is one of another driver with room for the bytes.
#[derive(Drop)]
pub(crate) struct Roomy<D: BlockDriver> {
    pub(crate) driver: D,
}

impl<D: BlockDriver> BlockDriver for Roomy<D> {
    ghost state = { λ r. D.state r.driver };

    fn accept(&mut self, request: BlockRequest) -> Accept {
        self.driver.accept(request)
    }

    fn in_work(&self) -> Option<u32> {
        self.driver.in_work()
    }

    fn ready(&self, minor: u8) -> Option<(u32, u32)> {
        self.driver.ready(minor)
    }

    fn bad(&self) -> u64 {
        self.driver.bad()
    }

    fn step(&mut self, media: &mut Media, generation: u32) -> Step {
        let mut bytes = [0xee; 4096];
        let stepped = self.driver.step_into(media, generation, &mut bytes);
        stepped.with_bytes(&bytes)
    }
}
