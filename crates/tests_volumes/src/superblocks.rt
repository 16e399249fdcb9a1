//! Superblocks by the format's table: a whole one, each field at the ends of its range, and which of several refusals is answered.
use crate::images::{image_of, put, read_of};
use layout::{Geometry, LayoutRefusal};
use std::alloc::{AllocError, Global};
use std::test::Fail;
use tests_texts::row_is_told;

/// A volume of 64 blocks of 1024 bytes with 32 inodes: 1 block for each map, 2 for the inodes.
const SUPERBLOCK: &[u8] =
    b"\x20\0\0\0\0\0\x01\0\x01\0\x06\0\0\0\0\0\xff\xff\xff\x7f\x40\0\0\0\x5a\x4d\0\0\0\x04\0";

/// What is read of it.
const SIZES: &str = "block 1024 inodes 32 zones 64 maps 1 1 first 6";

/// The bytes of its image that are changed, how many bytes are left of that, and what is read.
static ROWS: [(&[(usize, u8)], usize, &str); 30] = [
    (&[], 65536, SIZES),
    // the pads at 1028, 1038 and 1050 aren't looked at
    (
        &[
            (1028, 1),
            (1029, 2),
            (1038, 3),
            (1039, 4),
            (1050, 5),
            (1051, 6),
        ],
        65536,
        SIZES,
    ),
    // one field
    (&[(1048, 0x5b)], 65536, "2 BadMagic"),
    (&[(1049, 0x4e)], 65536, "2 BadMagic"),
    (&[(1053, 2)], 65536, "3 BadBlockSize"),
    (&[(1053, 0x20)], 65536, "3 BadBlockSize"),
    (&[(1052, 1)], 65536, "3 BadBlockSize"),
    (&[(1054, 1)], 65536, "4 BadVersion"),
    (&[(1036, 1)], 65536, "4 BadVersion"),
    (&[(1037, 1)], 65536, "4 BadVersion"),
    (&[(1024, 0)], 65536, "5 BadCounts"),
    (&[(1026, 1)], 65536, "5 BadCounts"),
    (&[(1024, 33)], 65536, "5 BadCounts"),
    (&[(1030, 0)], 65536, "5 BadCounts"),
    (&[(1032, 0)], 65536, "5 BadCounts"),
    (&[(1034, 5)], 65536, "5 BadCounts"),
    (&[(1034, 7)], 65536, "5 BadCounts"),
    (&[(1040, 0xfe)], 65536, "5 BadCounts"),
    (&[(1043, 0xff)], 65536, "5 BadCounts"),
    (&[(1044, 6)], 65536, "5 BadCounts"),
    (&[(1044, 65)], 65536, "6 DoesNotFit"),
    // a short image
    (&[], 0, "1 Truncated"),
    (&[], 1054, "1 Truncated"),
    (&[], 1055, "6 DoesNotFit"),
    (&[], 65535, "6 DoesNotFit"),
    // the first of several
    (
        &[(1048, 0), (1052, 1), (1054, 1), (1024, 0)],
        1054,
        "1 Truncated",
    ),
    (
        &[(1048, 0), (1052, 1), (1054, 1), (1024, 0)],
        1055,
        "2 BadMagic",
    ),
    (&[(1052, 1), (1054, 1), (1024, 0)], 1055, "3 BadBlockSize"),
    (&[(1054, 1), (1024, 0)], 1055, "4 BadVersion"),
    (&[(1024, 0)], 1055, "5 BadCounts"),
];

/// The refusals, with their numbers and names.
static NAMES: [(LayoutRefusal, &str); 6] = [
    (LayoutRefusal::Truncated, "1 Truncated"),
    (LayoutRefusal::BadMagic, "2 BadMagic"),
    (LayoutRefusal::BadBlockSize, "3 BadBlockSize"),
    (LayoutRefusal::BadVersion, "4 BadVersion"),
    (LayoutRefusal::BadCounts, "5 BadCounts"),
    (LayoutRefusal::DoesNotFit, "6 DoesNotFit"),
];

/// What is read of the image with these bytes changed of which so many are left.
fn read_with(alloc: Global, changes: &[(usize, u8)], length: usize) -> Result<String, AllocError> {
    let mut image = image_of(alloc, &(65536, &[(1024, SUPERBLOCK, 0)]))?;
    for (at, byte) in changes {
        put(&mut image, *at, &[*byte]);
    }
    image.truncate(length);
    read_of(alloc, &image)
}

/// Superblocks are read so, or refused.
fn are_read(alloc: Global) -> Result<(), Fail> {
    for (number, (changes, length, text)) in ROWS.iter().enumerate() {
        row_is_told(number, read_with(alloc, changes, *length)?.as_str(), text)?;
    }
    Ok(())
}

/// The refusals have these numbers and names.
fn are_named(alloc: Global) -> Result<(), Fail> {
    for (row, (refusal, text)) in NAMES.iter().enumerate() {
        let number = refusal.number();
        row_is_told(row, format!(in alloc; "{number} {refusal}")?.as_str(), text)?;
    }
    Ok(())
}

/// A volume's sizes are written into its superblock, and nowhere else.
fn is_written(alloc: Global) -> Result<(), Fail> {
    let volume = Geometry {
        block_size: 1024,
        inodes: 32,
        zones: 64,
        inode_map_blocks: 1,
        zone_map_blocks: 1,
        first_zone: 6,
    };
    let mut image = vec![in alloc; 9u8; 1056]?;
    let mut wanted = vec![in alloc; 9u8; 1056]?;
    volume.write(&mut image);
    put(&mut wanted, 1024, SUPERBLOCK);
    if image.as_slice() == wanted.as_slice() {
        return Ok(());
    }
    Err(Fail::from("another superblock"))
}

#[test]
fn superblocks_are_read_and_written(rt: HostRuntime) -> Result<(), Fail> {
    are_read(rt.alloc())?;
    are_named(rt.alloc())?;
    is_written(rt.alloc())
}
