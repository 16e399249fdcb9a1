//! Disks of four partitions with a volume in each, and what plays on one of them leave of the others.
use crate::disks::played_on;
use fixtures::new_volume;
use fsck::{Verdict, check};
use std::alloc::{AllocError, Global};
use std::sync::Wait;
use std::test::Fail;
use std::thread::Threads;
use std::time::Clock;

/// The table in the first sector, from byte 446 on: the partitions are of type 0x81 and have 128 sectors each, from sectors 1, 130, 259 and
/// 388 on. The sector behind each of them lies in none.
const TABLE: [u8; 66] = [
    0, 0, 0, 0, 0x81, 0, 0, 0, 1, 0, 0, 0, 128, 0, 0, 0, 0, 0, 0, 0, 0x81, 0, 0, 0, 130, 0, 0, 0,
    128, 0, 0, 0, 0, 0, 0, 0, 0x81, 0, 0, 0, 3, 1, 0, 0, 128, 0, 0, 0, 0, 0, 0, 0, 0x81, 0, 0, 0,
    132, 1, 0, 0, 128, 0, 0, 0, 0x55, 0xaa,
];

/// How many bytes a partition has.
const PARTITION: usize = 65536;

/// From the first byte of a partition to that of the next one.
const STRIDE: usize = 66048;

/// A disk of 517 sectors with four new volumes of 64 blocks of 1024 bytes. What lies in no partition, but for the table, is full of 0x5a.
fn disk(alloc: Global) -> Result<Vec<u8>, AllocError> {
    let mut first = [0x5a; 512];
    first[446..].copy_from_slice(&TABLE);
    let mut image = Vec::from_slice(alloc, &first)?;
    let volume = new_volume(alloc, 1024)?;
    for _ in 0..4 {
        image.extend_from_slice(volume.as_slice())?;
        image.extend_from_slice(&[0x5a; 512])?;
    }
    Ok(image)
}

/// What is before the partition of this minor, 1 to 4, in it, and behind it.
fn cut(image: &[u8], minor: u8) -> (&[u8], &[u8], &[u8]) {
    let earlier = usize::from(minor).saturating_sub(1);
    let first = earlier.saturating_mul(STRIDE).saturating_add(512);
    let (before, rest) = image.split_at(first.min(image.len()));
    let (partition, behind) = rest.split_at(PARTITION.min(rest.len()));
    (before, partition, behind)
}

/// Whether the images differ in the partition of this minor alone, which has a sound volume in the one that is left.
fn is_alone(alloc: Global, image: &[u8], left: &[u8], minor: u8) -> bool {
    let (before, _, behind) = cut(image, minor);
    let (first, partition, last) = cut(left, minor);
    before == first && behind == last && matches!(check(alloc, partition), Ok(Verdict::Clean(_)))
}

/// A script, and what is printed of it.
pub type Printed = (&'static [u8], &'static str);

/// A minor, 1 to 4, a script that writes on its volume, and one that reads there what was written.
pub type Written = (u8, Printed, Printed);

/// The image that a row's first script leaves: it comes out as the row says, and the rest of the disk is as it was.
fn written<R: Threads + Wait + Clock + Copy + Send + Sync + 'static>(
    alloc: Global,
    rt: R,
    image: &[u8],
    row: &Written,
) -> Result<Vec<u8>, Fail> {
    let (minor, (script, out), _) = *row;
    let played = played_on(alloc, rt, image, minor, script)?;
    played.gave(0, out, "")?;
    if !is_alone(alloc, image, played.left(), minor) {
        return Err(Fail::new(format_args!("minor {minor}: more is written, or no sound volume")));
    }
    Ok(played.left().to_vec(alloc)?)
}

/// A row's second script comes out as it says, and leaves the image as it is.
fn is_read<R: Threads + Wait + Clock + Copy + Send + Sync + 'static>(
    alloc: Global,
    rt: R,
    image: &[u8],
    row: &Written,
) -> Result<(), Fail> {
    let (minor, _, (script, out)) = *row;
    let played = played_on(alloc, rt, image, minor, script)?;
    played.gave(0, out, "")?;
    if played.left() != image {
        return Err(Fail::new(format_args!("minor {minor}: a read writes")));
    }
    Ok(())
}

/// The rows' first scripts are played in turn on one disk, each on the image that the one before it left, and then their second ones.
pub fn are_written<R: Threads + Wait + Clock + Copy + Send + Sync + 'static>(
    alloc: Global,
    rt: R,
    rows: &[Written],
) -> Result<(), Fail> {
    let mut image = disk(alloc)?;
    for row in rows {
        let left = written(alloc, rt, &image, row)?;
        is_read(alloc, rt, &left, row)?;
        image = left;
    }
    for row in rows {
        is_read(alloc, rt, &image, row)?;
    }
    Ok(())
}
