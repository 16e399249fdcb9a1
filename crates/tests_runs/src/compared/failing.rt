//! Runs that print over writers that fail.

use crate::compared::said::is_said;
use crate::compared::shown::named;
use crate::compared::writer::Failing;
use bdev::Driver;
use fixtures::{new_volume, whole};
use modeldisk::supply::{drivers_for, table_in};
use simulation::simulate::simulate;
use std::alloc::{AllocError, Global};
use std::test::Fail;

/// How many calls each writer takes, what each has then, and the status.
pub type Printed = (u32, u32, &'static str, &'static str, u8);

/// The status of a run of a schedule on an image, over these writers, with six drivers in boxes.
fn run_over(
    alloc: Global,
    files: (&[u8], &[u8]),
    out: &mut Failing,
    err: &mut Failing,
) -> Result<u8, AllocError> {
    let mut supply: Vec<Driver> = Vec::new(alloc);
    for driver in drivers_for(alloc, 5, false, table_in(files.0))? {
        supply.push(Box::new(alloc, driver)?)?;
    }
    let (image, schedule) = named((Some(files.0), Some(files.1)));
    Ok(simulate(alloc, image, schedule, &whole(), supply, out, err).number())
}

/// A row of a schedule comes out as it says, on a volume of blocks of 1024.
pub fn is_printed(alloc: Global, schedule: &str, row: &Printed) -> Result<(), Fail> {
    let (calls, more, text, line, number) = *row;
    let mut out = Failing {
        calls,
        taken: Vec::new(alloc),
    };
    let mut err = Failing {
        calls: more,
        taken: Vec::new(alloc),
    };
    let image = new_volume(alloc, 1024)?;
    let status = run_over(alloc, (&image, schedule.as_bytes()), &mut out, &mut err)?;
    is_said(status, &out.taken, &err.taken, (number, text, line))
}
