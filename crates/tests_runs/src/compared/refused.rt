//! Runs that aren't begun, and what is said of them.

use crate::compared::shown::six_say;
use crate::compared::supplies::{drivers, setup_of};
use bdev::Driver;
use fixtures::changed;
use modeldisk::RamDriver;
use reincarnate::policy::Setup;
use simulation::world::{RunRefusal, World};
use std::alloc::{AllocError, Global};
use std::test::Fail;

/// The missed heartbeats that are a fault, the frames, the zone map's first byte, which is 3 on a new volume, the drivers' sectors and
/// whether each is new, and why no run is begun.
pub type Refused = (u32, usize, u8, &'static [(u32, bool)], RunRefusal);

/// The first byte of a new volume that is changed, the new one, and how many bytes the file has. A file that can't be read has none.
pub type ImageByte = Option<(usize, u8, usize)>;

/// The image, the schedule, the setup's frames and minor, and the line that is told first.
pub type Told = (ImageByte, Option<&'static [u8]>, usize, u8, &'static str);

/// Why a run without events isn't begun on an image, with these drivers in boxes.
fn refusal_of(
    alloc: Global,
    image: &[u8],
    setup: &Setup,
    supply: Vec<RamDriver>,
) -> Result<Option<RunRefusal>, AllocError> {
    let mut boxed: Vec<Driver> = Vec::new(alloc);
    for driver in supply {
        boxed.push(Box::new(alloc, driver)?)?;
    }
    Ok(World::run(alloc, image, setup, boxed, &[]).err())
}

/// The run of the row of this number isn't begun, for the reason that it says.
pub fn is_refused(alloc: Global, number: usize, row: &Refused) -> Result<(), Fail> {
    let (misses, frames, byte, wanted, refusal) = *row;
    let image = changed(alloc, 3072, byte)?;
    let supply = drivers(alloc, wanted)?;
    let told = refusal_of(alloc, &image, &setup_of(misses, frames, 0), supply)?;
    if told == Some(refusal) {
        return Ok(());
    }
    Err(Fail::new(format_args!("row {number}")))
}

/// The line of a row is told first, and nothing is run.
pub fn is_told_first(alloc: Global, row: &Told) -> Result<(), Fail> {
    let (image, schedule, frames, minor, line) = *row;
    let (at, byte, length) = image.unwrap_or((0, 0, 0));
    let changed = changed(alloc, at, byte)?;
    let bytes = match image {
        Some(_) => changed.get(..length),
        None => None,
    };
    let setup = setup_of(3, frames, minor);
    six_say(alloc, (bytes, schedule), &setup, (1, "", line))
}
