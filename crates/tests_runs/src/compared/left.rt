//! What runs leave on the media.

ghost use Rattle.std.specs.Prelude.{◌<◌, ◌^◌, length};

use crate::compared::places::{ChangedByte, misheld};
use bdev::{BlockDriver, Driver};
use fixtures::{new_volume, whole};
use fsck::{Verdict, check};
use modeldisk::supply::{drivers_for, table_in};
use schedule::Event;
use schedule_text::reading::{Schedule, read_schedule};
use simulation::transcript::Transcript;
use simulation::world::World;
use std::alloc::{AllocError, Global};
use std::test::Fail;

/// The size of blocks, the parts of a schedule, what the media hold afterwards, and whether all was synced, so that the volume is clean.
pub type Left = (usize, &'static [&'static str], &'static [ChangedByte], bool);

/// The bytes of the media after a run.
fn bytes_after<D: BlockDriver>(
    alloc: Global,
    transcript: &Transcript<'_, D>,
) -> Result<Vec<u8>, AllocError> {
    transcript.image(alloc)
}

/// The bytes of the media after a run of these events on an image, with these drivers under the default policy.
fn image_of<D: BlockDriver>(
    alloc: Global,
    image: &[u8],
    supply: Vec<D>,
    events: &[Event<'_>],
) -> Result<Vec<u8>, Fail>
    requires few { length events.now < 2 ^ 32 }
{
    match World::run(alloc, image, &whole(), supply, events) {
        Ok(transcript) => Ok(bytes_after(alloc, &transcript)?),
        Err(_) => Err(Fail::from("no run was begun")),
    }
}

/// The bytes of the media after a run of a schedule that was read, with six drivers in boxes.
fn image_after(alloc: Global, image: &[u8], schedule: &Schedule<'_>) -> Result<Vec<u8>, Fail> {
    let mut supply: Vec<Driver> = Vec::new(alloc);
    for driver in drivers_for(alloc, 5, false, table_in(image))? {
        supply.push(Box::new(alloc, driver)?)?;
    }
    let events = schedule.events(alloc)?;
    image_of(alloc, image, supply, events.as_slice())
}

/// The bytes of the media after such a run.
fn media_after(alloc: Global, image: &[u8], schedule: &str) -> Result<Vec<u8>, Fail> {
    let schedule = read_schedule(alloc, schedule.as_bytes())?;
    image_after(alloc, image, &schedule)
}

/// Whether the volume in an image is clean.
fn is_clean(alloc: Global, image: &[u8]) -> Result<bool, Fail> {
    Ok(matches!(check(alloc, image)?, Verdict::Clean(_)))
}

/// The media hold what a row says after a run of this schedule.
fn leaves(alloc: Global, row: &Left, schedule: &str) -> Result<(), Fail> {
    let (block, _, places, synced) = *row;
    let image = new_volume(alloc, block)?;
    let media = media_after(alloc, &image, schedule)?;
    if let Some(place) = misheld(&media, &image, places) {
        return Err(Fail::new(format_args!("place {place}: {schedule}")));
    }
    if synced && !is_clean(alloc, &media)? {
        return Err(Fail::new(format_args!("not clean: {schedule}")));
    }
    Ok(())
}

/// The media hold what a row says after a run of its schedule.
pub fn is_left(alloc: Global, row: &Left) -> Result<(), Fail> {
    let schedule = row.1.concat(alloc)?;
    leaves(alloc, row, &schedule)
}
