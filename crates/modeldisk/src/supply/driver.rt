//! A driver of either kind.

use crate::{ModelDriver, RamDriver};
use bdev::{Accept, BlockDriver, Step, Stepped};
use media::Media;
use message::BlockRequest;

/// A driver of a disk in memory.
#[derive(Drop)]
pub enum DiskDriver {
    /// It moves sectors in rising order.
    Ram(RamDriver),
    /// It moves an arm over the sectors.
    Arm(ModelDriver),
}

impl BlockDriver for DiskDriver {
    ghost use Rattle.modeldisk.specs.Kinds.{disk_state};

    ghost state = { disk_state };

    fn accept(&mut self, request: BlockRequest) -> Accept {
        match self {
            DiskDriver::Ram(driver) => driver.accept(request),
            DiskDriver::Arm(driver) => driver.accept(request),
        }
    }

    fn in_work(&self) -> Option<u32> {
        match self {
            DiskDriver::Ram(driver) => driver.in_work(),
            DiskDriver::Arm(driver) => driver.in_work(),
        }
    }

    fn ready(&self, minor: u8) -> Option<(u32, u32)> {
        match self {
            DiskDriver::Ram(driver) => driver.ready(minor),
            DiskDriver::Arm(driver) => driver.ready(minor),
        }
    }

    fn bad(&self) -> u64 {
        match self {
            DiskDriver::Ram(driver) => driver.bad(),
            DiskDriver::Arm(driver) => driver.bad(),
        }
    }

    fn step(&mut self, media: &mut Media, generation: u32) -> Step {
        match self {
            DiskDriver::Ram(driver) => driver.step(media, generation),
            DiskDriver::Arm(driver) => driver.step(media, generation),
        }
    }

    fn step_into(&mut self, media: &mut Media, generation: u32, bytes: &mut [u8; 4096]) -> Stepped {
        match self {
            DiskDriver::Ram(driver) => driver.step_into(media, generation, bytes),
            DiskDriver::Arm(driver) => driver.step_into(media, generation, bytes),
        }
    }
}
