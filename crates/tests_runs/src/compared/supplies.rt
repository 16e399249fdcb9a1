//! Drivers that took a request before, and setups.

use bdev::BlockDriver;
use fixtures::whole;
use media::partition::Table;
use message::{BlockRequest, Kind};
use modeldisk::RamDriver;
use reincarnate::policy::{Policy, Setup};
use std::alloc::{AllocError, Global};

/// A driver of so many sectors that took a request before.
fn used(sectors: u32) -> RamDriver {
    let mut used = RamDriver::new(Table::whole(sectors));
    used.accept(BlockRequest {
        id: 1,
        kind: Kind::Read,
        minor: 0,
        position: 4096,
        count: 1024,
        bytes: [0; 4096],
    });
    used
}

/// Drivers of so many sectors each, and whether each is new.
pub fn drivers(alloc: Global, wanted: &[(u32, bool)]) -> Result<Vec<RamDriver>, AllocError> {
    let mut supply = Vec::new(alloc);
    for (sectors, is_new) in wanted {
        let driver = if *is_new {
            RamDriver::new(Table::whole(*sectors))
        } else {
            used(*sectors)
        };
        supply.push(driver)?;
    }
    Ok(supply)
}

/// A setup with this number of missed heartbeats, of frames and of the minor.
pub fn setup_of(misses: u32, frames: usize, minor: u8) -> Setup {
    let policy = Policy {
        misses,
        ..whole().policy
    };
    Setup {
        minor,
        frames,
        policy,
    }
}
