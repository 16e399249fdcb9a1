//! What runs say.

use crate::compared::said::{Cut, Said, cut, is_said};
use bdev::Driver;
use fixtures::{new_volume, supply_of, whole};
use modeldisk::FaultKind;
use modeldisk::supply::{drivers_for, table_in};
use reincarnate::policy::Setup;
use simulation::inputs::File;
use simulation::simulate::simulate;
use std::alloc::Global;
use std::test::Fail;

/// What goes wrong in each driver's first request, once so many of its sectors were moved.
pub type Faults<'f> = &'f [Option<(u32, FaultKind)>];

/// The bytes of an image and of a schedule; none where the file can't be read.
pub(crate) type Files<'b> = (Option<&'b [u8]>, Option<&'b [u8]>);

/// The two files of a run, the image and the schedule.
pub(crate) fn named<'b>(files: Files<'b>) -> (File<'static, 'b>, File<'static, 'b>) {
    let image = File {
        name: "v.img",
        bytes: files.0,
    };
    let schedule = File {
        name: "s.txt",
        bytes: files.1,
    };
    (image, schedule)
}

/// Looks at what the run of a schedule on an image says under a setup, with these drivers.
fn says(
    alloc: Global,
    files: Files<'_>,
    setup: &Setup,
    supply: Vec<Driver>,
    wanted: Said<'_>,
) -> Result<(), Fail> {
    let (mut out, mut err) = (Vec::new(alloc), Vec::new(alloc));
    let (image, schedule) = named(files);
    let status = simulate(alloc, image, schedule, setup, supply, &mut out, &mut err);
    is_said(status.number(), &out, &err, wanted)
}

/// Looks at what such a run says with six drivers of the image; where there is none, of no sectors.
pub(crate) fn six_say(
    alloc: Global,
    files: Files<'_>,
    setup: &Setup,
    wanted: Said<'_>,
) -> Result<(), Fail> {
    let mut supply: Vec<Driver> = Vec::new(alloc);
    for driver in drivers_for(alloc, 5, false, table_in(files.0.unwrap_or(&[])))? {
        supply.push(Box::new(alloc, driver)?)?;
    }
    says(alloc, files, setup, supply, wanted)
}

/// Looks at the transcript of a schedule on a volume, with six drivers under the default policy, and at the status.
pub fn volume_shows(
    alloc: Global,
    image: &[u8],
    schedule: &str,
    transcript: &str,
    status: u8,
) -> Result<(), Fail> {
    let files = (Some(image), Some(schedule.as_bytes()));
    six_say(alloc, files, &whole(), (status, transcript, ""))
}

/// The same on a new volume of 64 such blocks.
pub fn shows(
    alloc: Global,
    block: usize,
    schedule: &str,
    transcript: &str,
    status: u8,
) -> Result<(), Fail> {
    let image = new_volume(alloc, block)?;
    volume_shows(alloc, &image, schedule, transcript, status)
}

/// The same on a volume of blocks of 1024, with drivers of its 128 sectors that have these faults.
pub fn faults_show(
    alloc: Global,
    faults: Faults<'_>,
    schedule: &str,
    transcript: &str,
    status: u8,
) -> Result<(), Fail> {
    let image = new_volume(alloc, 1024)?;
    let files = (Some(image.as_slice()), Some(schedule.as_bytes()));
    let mut supply: Vec<Driver> = Vec::new(alloc);
    for driver in supply_of(alloc, 128, faults)? {
        supply.push(Box::new(alloc, driver)?)?;
    }
    says(alloc, files, &whole(), supply, (status, transcript, ""))
}

/// Looks at the transcript of a schedule in parts; the device isn't given up.
pub fn parts_show(
    alloc: Global,
    block: usize,
    schedule: &[&str],
    transcript: &[&str],
) -> Result<(), Fail> {
    let schedule = schedule.concat(alloc)?;
    let transcript = transcript.concat(alloc)?;
    shows(alloc, block, &schedule, &transcript, 0)
}

/// The same, where the transcript has a text so many times between its parts and its end.
pub fn repeats_show(
    alloc: Global,
    block: usize,
    schedule: &[&str],
    begin: &[&str],
    repeated: (&str, usize),
    end: &str,
) -> Result<(), Fail> {
    let begin = begin.concat(alloc)?;
    let repeated = repeated.0.repeat(alloc, repeated.1)?;
    parts_show(alloc, block, schedule, &[&begin, &repeated, end])
}

/// Looks at the transcript of a schedule on a volume of blocks of 1024, of which first lines are taken; the device isn't given up.
pub fn cut_shows(alloc: Global, schedule: Cut<'_>, transcript: Cut<'_>) -> Result<(), Fail> {
    let schedule = cut(alloc, schedule)?;
    let transcript = cut(alloc, transcript)?;
    shows(alloc, 1024, &schedule, &transcript, 0)
}
