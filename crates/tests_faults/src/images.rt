//! Damaged images: of each the check's finding, and plays on those that are clean.

use crate::replies::are_replies;
use fixtures::new_volume;
use fixtures_faults::damaged::{Clean, LOOKED_AT, clean_at, is_clean, put};
use fixtures_plays::plays::Play;
use fsck::{Verdict, check};
use std::alloc::{AllocError, Global};
use std::sync::Wait;
use std::test::Fail;
use std::thread::Threads;
use std::time::Clock;
use volume::Finding;

/// Whether a value of a byte is tried: each, but of a byte that nothing looks at 0, 85, 170 and 255.
fn is_tried(values: Clean, value: u8) -> bool {
    match values {
        Clean::Ignored => value.is_multiple_of(85),
        _ => true,
    }
}

/// The finding of an image.
fn finding(alloc: Global, image: &[u8]) -> Result<Option<Finding>, Fail> {
    match check(alloc, image)? {
        Verdict::Clean(_) => Ok(None),
        Verdict::Found(finding) => Ok(Some(finding)),
    }
}

/// How many of these bytes' values leave the volume clean, of those that are tried; it is an error where a check says something else of
/// one.
fn clean_values(alloc: Global, from: usize, to: usize) -> Result<u32, Fail> {
    let mut image = new_volume(alloc, 1024)?;
    let mut count = 0u32;
    for place in from..to {
        count = count.saturating_add(clean_values_at(alloc, &mut image, place)?);
    }
    Ok(count)
}

/// The same of one byte.
fn clean_values_at(alloc: Global, image: &mut [u8], place: usize) -> Result<u32, Fail> {
    let (own, values) = (image.get(place).copied().unwrap_or(0), clean_at(place));
    let mut count = 0u32;
    for value in 0..=255u8 {
        if is_tried(values, value) {
            put(image, place, &[value]);
            let clean = is_clean(values, value, own);
            let found = finding(alloc, image)?;
            if found.is_none() != clean {
                return Err(Fail::new(format_args!("{place} {value}: {found:?}")));
            }
            count = count.saturating_add(u32::from(clean));
        }
    }
    put(image, place, &[own]);
    Ok(count)
}

/// It is an error where a count is another one.
fn is_counted(count: u32, wanted: u32) -> Result<(), Fail> {
    if count == wanted {
        return Ok(());
    }
    Err(Fail::new(format_args!("{count}, and not {wanted}")))
}

/// So many of these bytes' values leave the volume clean, of those that are tried.
fn are_clean(alloc: Global, from: usize, to: usize, wanted: u32) -> Result<(), Fail> {
    is_counted(clean_values(alloc, from, to)?, wanted)
}

// In all 86632 values are tried, of which 32548 leave the volume clean.

#[test]
fn each_byte_of_the_boot_block(rt: HostRuntime) -> Result<(), Fail> {
    are_clean(rt.alloc(), 0, 1024, 1024 * 4)
}

#[test]
fn each_byte_of_the_superblock(rt: HostRuntime) -> Result<(), Fail> {
    // six bytes of pads and 993 behind it, 16 numbers of inodes, 58 of zones, and 23 bytes that have to be as they are
    are_clean(rt.alloc(), 1024, 2048, 999 * 4 + 16 + 58 + 23)
}

#[test]
fn each_byte_of_the_maps(rt: HostRuntime) -> Result<(), Fail> {
    // of the inode map 1019 bytes that nothing looks at, one without a bit, and 4
    are_clean(rt.alloc(), 2048, 3072, 1019 * 4 + 128 + 4)?;
    // of the zone map 1016, one without three bits, and 7
    are_clean(rt.alloc(), 3072, 4096, 1016 * 4 + 32 + 7)
}

#[test]
fn each_byte_of_the_inodes(rt: HostRuntime) -> Result<(), Fail> {
    // of the root's inode 17 bytes of any value, one of two, and 46; those of 31 inodes that aren't marked
    are_clean(rt.alloc(), 4096, 6144, 17 * 256 + 2 + 46 + 1984 * 4)
}

#[test]
fn each_byte_of_the_roots_zone(rt: HostRuntime) -> Result<(), Fail> {
    are_clean(rt.alloc(), 6144, LOOKED_AT, 896 * 4 + 128)
}

/// The check of an image says so; it is an error, with this number, where it says something else.
fn is_found(
    alloc: Global,
    image: &[u8],
    wanted: Option<Finding>,
    number: usize,
) -> Result<(), Fail> {
    let found = finding(alloc, image)?;
    if found == wanted {
        return Ok(());
    }
    Err(Fail::new(format_args!("{number}: {found:?}, and not {wanted:?}")))
}

/// The bytes of an image up to this one are no volume.
fn is_short(alloc: Global, image: &[u8], length: usize) -> Result<(), Fail> {
    let place = if length < 1055 { 1 } else { 6 };
    let short = image.get(..length).unwrap_or(&[]);
    is_found(alloc, short, Some(Finding { number: 1, place }), length)
}

#[test]
fn images_cut_short(rt: HostRuntime) -> Result<(), Fail> {
    let image = new_volume(rt.alloc(), 1024)?;
    if image.len() != 65536 {
        return Err(Fail::from("another length"));
    }
    for length in 0..65536usize {
        is_short(rt.alloc(), &image, length)?;
    }
    Ok(())
}

/// Bytes that are put at a place.
type Put = (usize, &'static [u8]);

/// A single indirect block that names itself, and a triple one: zone 7 is marked, the root's inode has it, and its first number is 7.
const SINGLE: &[Put] = &[(4148, &[7]), (7168, &[7]), (3072, &[7])];

const TRIPLE: &[Put] = &[(4156, &[7]), (7168, &[7]), (3072, &[7])];

/// Two names of one directory: inode 2 and zone 7 are marked; the root has four entries, `x` and `y` both to inode 2, which has two links
/// and a zone with `.` and with `..` to inode 1.
const TWO_NAMES: &[Put] = &[
    (2048, &[7]),
    (3072, &[7]),
    (4104, &[0, 1]),
    (4160, &[0xed, 0x41, 2]),
    (4168, &[128]),
    (4184, &[7]),
    (6272, &[2, 0, 0, 0, b'x']),
    (6336, &[2, 0, 0, 0, b'y']),
    (7168, &[2, 0, 0, 0, b'.']),
    (7232, &[1, 0, 0, 0, b'.', b'.']),
];

/// A link `x` to itself: inode 2 and zone 7 are marked, the root has three entries, and inode 2 is a link of one byte, which is `x`.
const LINK: &[Put] = &[
    (2048, &[7]),
    (3072, &[7]),
    (4104, &[192]),
    (4160, &[0xff, 0xa1, 1]),
    (4168, &[1]),
    (4184, &[7]),
    (6272, &[2, 0, 0, 0, b'x']),
    (7168, &[b'x']),
];

/// What makes that link one of no bytes and no zone; of 1024 bytes; one without a zone; and one with a zero byte.
const EMPTY: &[Put] = &[(3072, &[3]), (4168, &[0]), (4184, &[0])];

const LONG: &[Put] = &[(4168, &[0, 4]), (7168, &[b'x'; 1024])];

const HOLE: &[Put] = &[(3072, &[3]), (4184, &[0])];

const ZERO_BYTE: &[Put] = &[(4168, &[2])];

/// What is put into the small volume, first the one and then the other, and the check's finding, if there is one.
static KNOWN: [(&[Put], &[Put], Option<(u32, u32)>); 8] = [
    (SINGLE, &[], Some((8, 7))),
    (TRIPLE, &[], Some((8, 7))),
    (TWO_NAMES, &[], Some((15, 2))),
    (LINK, &[], None),
    (LINK, EMPTY, Some((17, 2))),
    (LINK, LONG, Some((17, 2))),
    (LINK, HOLE, Some((17, 2))),
    (LINK, ZERO_BYTE, Some((17, 2))),
];

/// Puts bytes at their places.
fn put_all(image: &mut [u8], puts: &[Put]) {
    for (at, bytes) in puts {
        put(image, *at, *bytes);
    }
}

#[test]
fn images_of_malice(rt: HostRuntime) -> Result<(), Fail> {
    for (row, (first, second, wanted)) in KNOWN.iter().enumerate() {
        let mut image = new_volume(rt.alloc(), 1024)?;
        put_all(&mut image, first);
        put_all(&mut image, second);
        let wanted = wanted.map(|(number, place)| Finding { number, place });
        is_found(rt.alloc(), &image, wanted, row)?;
    }
    Ok(())
}

/// Each call, on the root and on what is made below it.
const SCRIPT: &str = "\
user 0 0
100 stat /
100 open / r 0
100 readdir 0
100 fstat 0
100 read 0 99
100 seek 0 end 0
100 dup 0
100 close 1
100 close 0
100 open / rw 0
100 open / rwcx 644
100 chmod / 700
100 chown / 1 1
100 utime / 1 2
100 mkdir / 755
100 mkdir /new 755
100 open /file rwc 644
100 fill 0 3000 61
100 write 0 6162
100 sync
100 close 0
100 link /file /link
100 rename /link /new/link
100 truncate /file 1
100 stat /./file
100 symlink ../file /soft
100 lstat /soft
100 readlink /soft
100 truncate /soft 2
100 rename /soft /.
100 unlink /soft
100 unlink /file
100 unlink /../new/link
100 rmdir /new
100 link / /other
100 rename / /third
100 truncate / 0
100 unlink /
100 rmdir /
100 statfs
100 sync
";

/// Whether each call of the script has a reply on an image.
fn is_played<R: Threads + Wait + Clock + Copy + Send + Sync + 'static>(
    alloc: Global,
    rt: R,
    image: &[u8],
) -> Result<bool, AllocError> {
    let scripts = [Some(SCRIPT.as_bytes())];
    let played = Play::new(image, &scripts).played(alloc, rt)?;
    let out = str::from_utf8(played.out.as_slice()).unwrap_or("");
    Ok(played.status == 0 && played.err.is_empty() && are_replies(out, 41))
}

/// Whether a clean value of the byte at a place is played on: 0, 85, 170 and 255 of one that may have any in the root's inode, and of each
/// 32nd that nothing looks at; each of a byte that may have some; of others none.
fn is_played_on(values: Clean, place: usize, value: u8) -> bool {
    match values {
        Clean::Any => value.is_multiple_of(85),
        Clean::Ignored => place.is_multiple_of(32) && value.is_multiple_of(85),
        Clean::Own => false,
        Clean::Between(_, _) | Clean::Without(_) => true,
    }
}

/// Plays on the small volume with some clean values of the byte at a place; how many were played on.
fn plays_at<R: Threads + Wait + Clock + Copy + Send + Sync + 'static>(
    alloc: Global,
    rt: R,
    image: &mut [u8],
    place: usize,
) -> Result<u32, Fail> {
    let (own, values) = (image.get(place).copied().unwrap_or(0), clean_at(place));
    let mut count = 0u32;
    for value in 0..=255u8 {
        if is_clean(values, value, own) && is_played_on(values, place, value) {
            put(image, place, &[value]);
            if !is_played(alloc, rt, image)? {
                return Err(Fail::new(format_args!("{place} {value}")));
            }
            count = count.saturating_add(1);
        }
    }
    put(image, place, &[own]);
    Ok(count)
}

/// Plays on the small volume with some clean values of each of these bytes; how many were played on.
fn plays<R: Threads + Wait + Clock + Copy + Send + Sync + 'static>(
    alloc: Global,
    rt: R,
    from: usize,
    to: usize,
) -> Result<u32, Fail> {
    let mut image = new_volume(alloc, 1024)?;
    let mut count = 0u32;
    for place in from..to {
        count = count.saturating_add(plays_at(alloc, rt, &mut image, place)?);
    }
    Ok(count)
}

/// So many clean values of these bytes are played on.
fn are_played<R: Threads + Wait + Clock + Copy + Send + Sync + 'static>(
    alloc: Global,
    rt: R,
    from: usize,
    to: usize,
    wanted: u32,
) -> Result<(), Fail> {
    is_counted(plays(alloc, rt, from, to)?, wanted)
}

// In all 1164 plays.

#[test]
fn plays_before_the_maps(rt: HostRuntime) -> Result<(), Fail> {
    // four for each 32nd byte of the boot block, and of those behind the superblock; the numbers of inodes and of zones
    are_played(rt.alloc(), rt, 0, 2048, 4 * (32 + 31) + 16 + 58)
}

#[test]
fn plays_on_the_maps(rt: HostRuntime) -> Result<(), Fail> {
    are_played(rt.alloc(), rt, 2048, 4096, 4 * (31 + 31) + 128 + 32)
}

#[test]
fn plays_on_the_inodes_and_the_root(rt: HostRuntime) -> Result<(), Fail> {
    // 17 bytes of the root's inode, and two types; each 32nd byte of the other inodes, and behind the root's entries
    are_played(rt.alloc(), rt, 4096, LOOKED_AT, 4 * (17 + 62 + 28) + 2)
}
