//! Refusals, and their order.

use crate::old_images::{Put, old_volume};
use migrate::migrate;
use std::alloc::{AllocError, Global};
use std::test::Fail;
use tests_texts::row_is_told;

/// What the migration of an image to so many blocks answers: `done`, or its refusal.
fn answer(alloc: Global, old: &[u8], blocks: u32) -> Result<String, AllocError> {
    match migrate(alloc, old, blocks) {
        Ok(_) => String::from_str(alloc, "done"),
        Err(refusal) => format!(in alloc; "{refusal}"),
    }
}

/// Bytes that are changed, and what is answered where 64 blocks are wanted.
type Row = (&'static [Put], &'static str);

/// Each of them answers what it says.
fn rows_are_told(alloc: Global, rows: &[Row]) -> Result<(), Fail> {
    for (row, (changes, wanted)) in rows.iter().enumerate() {
        let old = old_volume(alloc, changes)?;
        let text = answer(alloc, &old, 64)?;
        row_is_told(row, text.as_str(), wanted)?;
    }
    Ok(())
}

/// How many blocks are wanted, and what is answered. The tree takes two zones, and there are six blocks before the first.
static BLOCKS: [(u32, &str); 7] = [
    (64, "done"),
    (8, "done"),
    (7, "migrate refusal 4"),
    (6, "migrate refusal 4"),
    (0, "migrate refusal 4"),
    (65537, "migrate refusal 3"),
    (4294967295, "migrate refusal 3"),
];

#[test]
fn how_many_blocks(rt: HostRuntime) -> Result<(), Fail> {
    let alloc = rt.alloc();
    let old = old_volume(alloc, &[])?;
    for (row, (blocks, wanted)) in BLOCKS.iter().enumerate() {
        let text = answer(alloc, &old, *blocks)?;
        row_is_told(row, text.as_str(), wanted)?;
    }
    Ok(())
}

/// Bytes that are changed, and the fewest blocks that are enough: there are six before the first data zone.
static ROOM: [(&[Put], u32); 5] = [
    // the root's page and the file's
    (&[], 8),
    // 61 free entries more take no zone
    (&[(4104, &[0, 4])], 8),
    // a file of one hole
    (
        &[(3072, &[3]), (4168, &[0, 4]), (4184, &[0]), (7168, &[0])],
        7,
    ),
    // the eighth page alone, by the single indirect block in zone 8
    (
        &[
            (3072, &[15]),
            (4168, &[1, 28]),
            (4184, &[0]),
            (4212, &[8]),
            (8192, &[7]),
        ],
        9,
    ),
    // page 263, by the double indirect block in zone 9, which names zone 8
    (
        &[
            (3072, &[31]),
            (4168, &[1, 28, 4]),
            (4184, &[0]),
            (4216, &[9]),
            (8192, &[7]),
            (9216, &[8]),
        ],
        10,
    ),
];

/// So many blocks are enough, and one less isn't.
#[test]
fn room(rt: HostRuntime) -> Result<(), Fail> {
    let alloc = rt.alloc();
    for (row, (changes, blocks)) in ROOM.iter().enumerate() {
        let old = old_volume(alloc, changes)?;
        let text = answer(alloc, &old, *blocks)?;
        row_is_told(row, text.as_str(), "done")?;
        let text = answer(alloc, &old, *blocks - 1)?;
        row_is_told(row, text.as_str(), "migrate refusal 4")?;
    }
    Ok(())
}

static SUPERBLOCKS: [Row; 18] = [
    // magic: version 1, version 2 with names of 30 bytes, version 3
    (&[(1040, &[0x7f, 0x13])], "migrate refusal 1 at 2"),
    (&[(1040, &[0x78, 0x24])], "migrate refusal 1 at 2"),
    (&[(1040, &[0x5a, 0x4d])], "migrate refusal 1 at 2"),
    // zones of more blocks
    (&[(1034, &[1])], "migrate refusal 1 at 3"),
    // counts: no inode, no zone, one too many, both maps, the first data zone either way, no data zone
    (&[(1024, &[0])], "migrate refusal 1 at 4"),
    (&[(1044, &[0])], "migrate refusal 1 at 4"),
    (
        &[(1044, &[1, 0, 1]), (1030, &[9]), (1032, &[14])],
        "migrate refusal 1 at 4",
    ),
    (&[(1028, &[0]), (1032, &[5])], "migrate refusal 1 at 4"),
    (&[(1030, &[0]), (1032, &[5])], "migrate refusal 1 at 4"),
    (&[(1032, &[5])], "migrate refusal 1 at 4"),
    (&[(1032, &[7])], "migrate refusal 1 at 4"),
    (&[(1044, &[6])], "migrate refusal 1 at 4"),
    // a block that isn't there
    (&[(1044, &[65])], "migrate refusal 1 at 5"),
    // an earlier refusal goes first
    (&[(1040, &[0]), (1034, &[1])], "migrate refusal 1 at 2"),
    (&[(1034, &[1]), (1024, &[0])], "migrate refusal 1 at 3"),
    // old zones, the greatest size and the state aren't looked at
    (&[(1026, &[9, 9])], "done"),
    (&[(1036, &[0, 0, 0, 0])], "done"),
    (&[(1042, &[0, 7])], "done"),
];

#[test]
fn superblocks(rt: HostRuntime) -> Result<(), Fail> {
    rows_are_told(rt.alloc(), &SUPERBLOCKS)
}

/// Images that are short.
#[test]
fn short_images(rt: HostRuntime) -> Result<(), Fail> {
    let alloc = rt.alloc();
    let old = old_volume(alloc, &[])?;
    let rows = [
        (0, "migrate refusal 1 at 1"),
        (1047, "migrate refusal 1 at 1"),
        (1048, "migrate refusal 1 at 5"),
        (65535, "migrate refusal 1 at 5"),
    ];
    for (row, (length, wanted)) in rows.iter().enumerate() {
        let image = old.get(..*length).unwrap_or(&[]);
        let text = answer(alloc, image, 64)?;
        row_is_told(row, text.as_str(), wanted)?;
    }
    Ok(())
}

static FINDINGS: [Row; 40] = [
    (&[(2048, &[6])], "migrate refusal 2 finding 2 at 0"),
    (&[(3072, &[6])], "migrate refusal 2 finding 3 at 0"),
    // the root isn't marked, or no directory
    (&[(2048, &[5])], "migrate refusal 2 finding 4 at 1"),
    (&[(4097, &[0x81])], "migrate refusal 2 finding 4 at 1"),
    // a device, and a set-user-id bit
    (&[(4161, &[0x21])], "migrate refusal 2 finding 5 at 2"),
    (&[(4161, &[0x61])], "migrate refusal 2 finding 5 at 2"),
    (&[(4161, &[0x89])], "migrate refusal 2 finding 5 at 2"),
    // a directory of one entry, of half an entry too much; a file over the greatest size
    (&[(4104, &[16])], "migrate refusal 2 finding 6 at 1"),
    (&[(4104, &[72])], "migrate refusal 2 finding 6 at 1"),
    (&[(4171, &[0x80])], "migrate refusal 2 finding 6 at 2"),
    // numbers below the data zones and past them, one with two uses, and the zone map
    (&[(4184, &[5])], "migrate refusal 2 finding 7 at 2"),
    (&[(4184, &[64])], "migrate refusal 2 finding 7 at 2"),
    (&[(4184, &[6])], "migrate refusal 2 finding 8 at 6"),
    (&[(3072, &[15])], "migrate refusal 2 finding 9 at 8"),
    (&[(3072, &[3])], "migrate refusal 2 finding 9 at 7"),
    // a page at the end, and an indirect block without a number
    (
        &[(3072, &[15]), (4188, &[8])],
        "migrate refusal 2 finding 10 at 2",
    ),
    (
        &[(3072, &[15]), (4212, &[8])],
        "migrate refusal 2 finding 10 at 2",
    ),
    // a second page that isn't there
    (&[(4104, &[16, 4])], "migrate refusal 2 finding 11 at 1"),
    // . of another name, or of another number; .. of another name
    (&[(6146, &[b'a'])], "migrate refusal 2 finding 12 at 1"),
    (&[(6147, &[b'.'])], "migrate refusal 2 finding 12 at 1"),
    (&[(6144, &[2])], "migrate refusal 2 finding 12 at 1"),
    (&[(6144, &[0])], "migrate refusal 2 finding 12 at 1"),
    (&[(6162, &[b'.', 0])], "migrate refusal 2 finding 12 at 1"),
    // .. that is free; an empty name, a slash, a byte after a zero, . and .. once more, a name twice
    (&[(6160, &[0])], "migrate refusal 2 finding 13 at 1"),
    (&[(6194, &[0])], "migrate refusal 2 finding 13 at 1"),
    (&[(6194, &[b'/'])], "migrate refusal 2 finding 13 at 1"),
    (
        &[(6194, &[b'f', 0, b'g'])],
        "migrate refusal 2 finding 13 at 1",
    ),
    (&[(6207, &[b'g'])], "migrate refusal 2 finding 13 at 1"),
    (&[(6194, &[b'.'])], "migrate refusal 2 finding 13 at 1"),
    (
        &[(6194, &[b'.', b'.'])],
        "migrate refusal 2 finding 13 at 1",
    ),
    (
        &[(6176, &[2, 0, b'f'])],
        "migrate refusal 2 finding 13 at 1",
    ),
    // an inode that isn't marked, and one out of range
    (&[(6192, &[3])], "migrate refusal 2 finding 14 at 1"),
    (&[(6192, &[33])], "migrate refusal 2 finding 14 at 1"),
    (&[(6193, &[1])], "migrate refusal 2 finding 14 at 1"),
    // the root named, and with another parent
    (
        &[(6176, &[1, 0, b'g'])],
        "migrate refusal 2 finding 15 at 1",
    ),
    (&[(6160, &[2])], "migrate refusal 2 finding 15 at 1"),
    // two links and one name, none, and no name
    (&[(4162, &[2])], "migrate refusal 2 finding 16 at 2"),
    (&[(4162, &[0])], "migrate refusal 2 finding 16 at 2"),
    (&[(6192, &[0])], "migrate refusal 2 finding 16 at 2"),
    // a symbolic link to a zero byte
    (
        &[(4160, &[0xff, 0xa1]), (7168, &[0])],
        "migrate refusal 2 finding 17 at 2",
    ),
];

#[test]
fn findings(rt: HostRuntime) -> Result<(), Fail> {
    rows_are_told(rt.alloc(), &FINDINGS)
}

/// A refusal of the old volume goes before one of the blocks that are wanted, and both before memory.
#[test]
fn order(rt: HostRuntime) -> Result<(), Fail> {
    let alloc = rt.alloc();
    let rows: [(&[Put], &str); 3] = [
        (&[(1040, &[0])], "migrate refusal 1 at 2"),
        (&[(4162, &[2])], "migrate refusal 2 finding 16 at 2"),
        (&[], "migrate refusal 3"),
    ];
    for (row, (changes, wanted)) in rows.iter().enumerate() {
        let old = old_volume(alloc, changes)?;
        let text = answer(alloc, &old, 65537)?;
        row_is_told(row, text.as_str(), wanted)?;
    }
    Ok(())
}
