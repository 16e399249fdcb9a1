//! What volumes become.

use crate::old_images::{Put, change, new_volume, old_volume};
use fsck::{Verdict, check};
use layout::Geometry;
use migrate::{MigrateRefusal, migrate};
use std::alloc::{AllocError, Global};
use std::test::Fail;
use volume::Finding;

/// The migration of an old image to so many blocks; it has to be one.
fn migrated(alloc: Global, old: &[u8], blocks: u32) -> Result<Vec<u8>, Fail> {
    match migrate(alloc, old, blocks) {
        Ok(new) => Ok(new),
        Err(refusal) => Err(Fail::new(format_args!("{refusal}"))),
    }
}

/// The first place from which on two images differ has to be none.
fn are_same(row: usize, new: &[u8], wanted: &[u8]) -> Result<(), Fail> {
    if new.len() != wanted.len() {
        let (length, most) = (new.len(), wanted.len());
        return Err(Fail::new(format_args!("row {row}: {length} bytes, and not {most}")));
    }
    for (at, (byte, other)) in new.iter().zip(wanted).enumerate() {
        if byte != other {
            return Err(Fail::new(format_args!("row {row}: {byte} at {at}, and not {other}")));
        }
    }
    Ok(())
}

/// Bytes that are changed in the old volume, and what then is changed in the new one.
type Row = (&'static [Put], &'static [Put]);

static ROWS: [Row; 6] = [
    (&[], &[]),
    // a free entry with bytes of a name that was
    (&[(6178, &[b'o', b'l', b'd'])], &[]),
    // a name of 14 bytes
    (&[(6194, b"abcdefghijklmn")], &[(6276, b"abcdefghijklmn")]),
    // user, group and times
    (
        &[
            (4164, &[5, 0, 7, 0]),
            (4172, &[1, 0, 0, 0, 2, 0, 0, 0, 3, 1]),
        ],
        &[
            (4164, &[5, 0, 7, 0]),
            (4172, &[1, 0, 0, 0, 2, 0, 0, 0, 3, 1]),
        ],
    ),
    // two names of one inode, the second in the place that was free: the order stays
    (
        &[(6176, &[2, 0, b'g']), (4162, &[2])],
        &[
            (6272, &[2, 0, 0, 0, b'g']),
            (6336, &[2, 0, 0, 0, b'f']),
            (4104, &[0, 1]),
            (4162, &[2]),
        ],
    ),
    // a file in zone 9 alone whose page is the sixth: the new zone is the next, and the holes stay
    (
        &[
            (3072, &[0x13]),
            (4168, &[1, 20]),
            (4184, &[0]),
            (4204, &[9]),
            (7168, &[0]),
            (9216, &[0x61]),
        ],
        &[(4168, &[1, 20]), (4184, &[0]), (4204, &[7])],
    ),
];

#[test]
fn small_volumes(rt: HostRuntime) -> Result<(), Fail> {
    let alloc = rt.alloc();
    for (row, (changes, wanted)) in ROWS.iter().enumerate() {
        let old = old_volume(alloc, changes)?;
        let new = migrated(alloc, &old, 64)?;
        let image = new_volume(alloc, wanted)?;
        are_same(row, &new, &image)?;
    }
    Ok(())
}

/// The sizes of the new volume are those of a new one with so many blocks and the old inodes.
#[test]
fn sizes(rt: HostRuntime) -> Result<(), Fail> {
    let alloc = rt.alloc();
    let old = old_volume(alloc, &[])?;
    for (blocks, maps, first) in [(8, 1, 6), (64, 1, 6), (8193, 2, 7)] {
        let new = migrated(alloc, &old, blocks)?;
        let wanted = Geometry {
            block_size: 1024,
            inodes: 32,
            zones: blocks,
            inode_map_blocks: 1,
            zone_map_blocks: maps,
            first_zone: first,
        };
        if Geometry::parse(&new) != Ok(wanted) {
            return Err(Fail::new(format_args!("{blocks} blocks")));
        }
    }
    Ok(())
}

/// The check of version 3 finds 1 at 2 in the old image, and nothing in the new one.
#[test]
fn both_checks(rt: HostRuntime) -> Result<(), Fail> {
    let alloc = rt.alloc();
    let old = old_volume(alloc, &[])?;
    let finding = Finding {
        number: 1,
        place: 2,
    };
    if check(alloc, &old)? != Verdict::Found(finding) {
        return Err(Fail::new(format_args!("the old image")));
    }
    let new = migrated(alloc, &old, 64)?;
    let Verdict::Clean(_) = check(alloc, &new)? else {
        return Err(Fail::new(format_args!("the new image")));
    };
    Ok(())
}

/// An old volume whose root has 64 entries in one block, of which 62 name one file; without names yet.
fn old_names(alloc: Global) -> Result<Vec<u8>, AllocError> {
    let mut old = old_volume(alloc, &[])?;
    change(
        &mut old,
        &[(4104, &[0, 4]), (4162, &[62]), (6176, &[0; 32])],
    );
    Ok(old)
}

/// The new volume that it becomes: the root's entries are in four blocks.
fn new_names(alloc: Global) -> Result<Vec<u8>, AllocError> {
    let mut new = new_volume(alloc, &[])?;
    change(
        &mut new,
        &[(4104, &[0, 16]), (4162, &[62]), (6272, &[0; 64])],
    );
    change(
        &mut new,
        &[
            (3072, &[0x3f]),
            (4120, &[6, 0, 0, 0, 7, 0, 0, 0, 8, 0, 0, 0, 9]),
        ],
    );
    change(&mut new, &[(4184, &[10]), (7168, &[0]), (10240, &[0x61])]);
    Ok(new)
}

/// Both get the same 62 names.
fn name_files(old: &mut [u8], new: &mut [u8]) {
    for number in 2..64usize {
        let name = number as u8 + b'0';
        for (place, byte) in old.iter_mut().skip(6144 + 16 * number).zip([2, 0, name]) {
            *place = byte;
        }
        for (place, byte) in new
            .iter_mut()
            .skip(6144 + 64 * number)
            .zip([2, 0, 0, 0, name])
        {
            *place = byte;
        }
    }
}

/// A root of 64 entries in one old block takes four new ones: 62 names of one file. So with the file's five zones are used.
#[test]
fn many_names(rt: HostRuntime) -> Result<(), Fail> {
    let alloc = rt.alloc();
    let (mut old, mut new) = (old_names(alloc)?, new_names(alloc)?);
    name_files(&mut old, &mut new);
    let made = migrated(alloc, &old, 64)?;
    are_same(0, &made, &new)?;
    let least = migrated(alloc, &old, 11)?;
    if least.len() != 11264 {
        return Err(Fail::new(format_args!("11 blocks")));
    }
    match migrate(alloc, &old, 10) {
        Err(MigrateRefusal::DoesNotFit) => Ok(()),
        _ => Err(Fail::new(format_args!("10 blocks"))),
    }
}
