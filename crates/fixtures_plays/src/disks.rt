//! Volumes in a partition of an image: a new volume of 128 sectors behind a sector with a table, from sector 1 on.
use crate::plays::{Play, Played};
use fixtures::{new_volume, patient};
use modeldisk::supply::table_in;
use modeldisk::{Inner, RamDriver, ScriptedDriver};
use reincarnate::policy::Setup;
use std::alloc::{AllocError, Global};
use std::sync::Wait;
use std::test::Fail;
use std::thread::Threads;
use std::time::Clock;

/// A new volume of 128 sectors behind a sector with a table, whose second entry has this type, is said to have so many sectors from sector
/// 1 on, and which ends in 0x55 and this byte.
fn disk(alloc: Global, kind: u8, count: u8, last: u8) -> Result<Vec<u8>, AllocError> {
    let mut first = [0; 512];
    first[466] = kind;
    first[470] = 1;
    first[474] = count;
    first[510] = 0x55;
    first[511] = last;
    let mut image = Vec::from_slice(alloc, &first)?;
    image.extend_from_slice(new_volume(alloc, 1024)?.as_slice())?;
    Ok(image)
}

/// What a script gives on the volume of this minor of an image, over a driver of the image's partitions.
pub(crate) fn played_on<R: Threads + Wait + Clock + Copy + Send + Sync + 'static>(
    alloc: Global,
    rt: R,
    image: &[u8],
    minor: u8,
    script: &[u8],
) -> Result<Played, AllocError> {
    let inner = Inner::Ram(RamDriver::new(table_in(image)));
    let mut supply = Vec::new(alloc);
    supply.push(ScriptedDriver::new(inner, Vec::new(alloc)))?;
    let scripts = [Some(script)];
    let play = Play {
        setup: Setup { minor, ..patient() },
        ..Play::new(image, &scripts)
    };
    play.played_over(alloc, rt, supply)
}

/// The type and the size of the table's second entry and the table's last byte, the minor that is asked for, and what comes of it: the
/// status and both texts.
pub type OnDisk = ((u8, u8, u8), u8, u8, &'static str, &'static str);

/// A script gives what each of these rows says.
pub fn are_served<R: Threads + Wait + Clock + Copy + Send + Sync + 'static>(
    alloc: Global,
    rt: R,
    script: &[u8],
    rows: &[OnDisk],
) -> Result<(), Fail> {
    for ((kind, count, last), minor, status, out, err) in rows {
        let image = disk(alloc, *kind, *count, *last)?;
        played_on(alloc, rt, &image, *minor, script)?.gave(*status, out, err)?;
    }
    Ok(())
}
