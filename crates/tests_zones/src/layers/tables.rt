//! The maps and the inode table.

use crate::images::put;
use crate::layers::images::{Image, image_of};
use crate::layers::steps::Step;
use crate::layers::volumes::{Sizes, Volume};
use bitmap::Map;
use block_store::{Cut, Halt};
use std::alloc::Global;
use std::test::Fail;
use volume::Inode;

/// The root of a fresh volume made at time 50, in zone 6.
pub(crate) const ROOT: Inode = Inode {
    mode: 0x41ed,
    links: 2,
    uid: 0,
    gid: 0,
    size: 128,
    atime: 50,
    mtime: 50,
    ctime: 50,
    zones: [6, 0, 0, 0, 0, 0, 0, 0, 0, 0],
};

/// An inode of which each field has another number.
pub(crate) const OTHER: Inode = Inode {
    mode: 0x81a4,
    links: 0x0201,
    uid: 0x0403,
    gid: 0x0605,
    size: 0x0a09_0807,
    atime: 0x0e0d_0c0b,
    mtime: 0x1211_100f,
    ctime: 0x1615_1413,
    zones: [
        0x17,
        0x18,
        0x19,
        0x1a,
        0x1b,
        0x1c,
        0x1d,
        0x1e,
        0x1f,
        0x2423_2221,
    ],
};

/// Its bytes.
const BYTES: &[u8] =
    b"\xa4\x81\x01\x02\x03\x04\x05\x06\x07\x08\x09\x0a\x0b\x0c\x0d\x0e\x0f\x10\x11\x12\x13\x14\x15\x16\
\x17\0\0\0\x18\0\0\0\x19\0\0\0\x1a\0\0\0\x1b\0\0\0\x1c\0\0\0\x1d\0\0\0\x1e\0\0\0\x1f\0\0\0\x21\x22\x23\x24";

/// The bytes of the root in a volume whose first data zone is 6, and of one whose first is 5.
const ROOT_6: &[u8] = b"\xed\x41\x02\0\0\0\0\0\x80\0\0\0\x32\0\0\0\x32\0\0\0\x32\0\0\0\x06";

const ROOT_5: &[u8] = b"\xed\x41\x02\0\0\0\0\0\x80\0\0\0\x32\0\0\0\x32\0\0\0\x32\0\0\0\x05";

/// What is done with a volume, what comes of it, and what it changes: from a place on, these bytes.
type Steps = &'static [(Step, Result<u32, Halt>, usize, &'static [u8])];

/// A volume's sizes and image, and what is done with it. A fresh volume of 64 blocks with 32 inodes is made at time 50: the root is inode
/// 1, its zone the first.
type Row = (Sizes, Image, Steps);

/// A fresh volume has free numbers.
static FRESH: [Row; 3] = [
    (
        Sizes::Small,
        (
            65536,
            &[
                (2048, b"\x03\0\0\0\xfe", 3072),
                (3072, b"\x03\0\0\0\0\0\0\xf8", 4096),
                (4096, ROOT_6, 0),
            ],
        ),
        &[
            (Step::Lowest(Map::Inodes), Ok(2), 0, b""),
            (Step::Count(Map::Inodes), Ok(31), 0, b""),
            (Step::Lowest(Map::Zones), Ok(2), 0, b""),
            (Step::Count(Map::Zones), Ok(57), 0, b""),
        ],
    ),
    (
        Sizes::Middle,
        (
            131072,
            &[
                (4096, b"\x03\0\0\0\xfe", 6144),
                (6144, b"\x03\0\0\0\0\0\0\xf0", 8192),
                (8192, ROOT_5, 0),
            ],
        ),
        &[
            (Step::Lowest(Map::Inodes), Ok(2), 0, b""),
            (Step::Count(Map::Inodes), Ok(31), 0, b""),
            (Step::Lowest(Map::Zones), Ok(2), 0, b""),
            (Step::Count(Map::Zones), Ok(58), 0, b""),
        ],
    ),
    (
        Sizes::Large,
        (
            262144,
            &[
                (8192, b"\x03\0\0\0\xfe", 12288),
                (12288, b"\x03\0\0\0\0\0\0\xf0", 16384),
                (16384, ROOT_5, 0),
            ],
        ),
        &[
            (Step::Lowest(Map::Inodes), Ok(2), 0, b""),
            (Step::Count(Map::Inodes), Ok(31), 0, b""),
            (Step::Lowest(Map::Zones), Ok(2), 0, b""),
            (Step::Count(Map::Zones), Ok(58), 0, b""),
        ],
    ),
];

/// Numbers of the maps.
static NUMBERS: [Row; 6] = [
    // they change one bit, in and out
    (
        Sizes::Small,
        (
            65536,
            &[
                (2048, b"\x03\0\0\0\xfe", 3072),
                (3072, b"\x03\0\0\0\0\0\0\xf8", 4096),
                (4096, ROOT_6, 0),
            ],
        ),
        &[
            (Step::Mark(Map::Inodes, 2, true), Ok(1), 2048, b"\x07"),
            (Step::Mark(Map::Inodes, 8, true), Ok(1), 2049, b"\x01"),
            (Step::Mark(Map::Inodes, 32, true), Ok(1), 2052, b"\xff"),
            (Step::Mark(Map::Zones, 2, true), Ok(1), 3072, b"\x07"),
            (Step::Mark(Map::Zones, 58, true), Ok(1), 3079, b"\xfc"),
            (Step::Lowest(Map::Inodes), Ok(3), 0, b""),
            (Step::Count(Map::Inodes), Ok(28), 0, b""),
            (Step::Lowest(Map::Zones), Ok(3), 0, b""),
            (Step::Count(Map::Zones), Ok(55), 0, b""),
            (Step::Mark(Map::Inodes, 2, false), Ok(1), 2048, b"\x03"),
            (Step::Mark(Map::Inodes, 8, false), Ok(1), 2049, b"\0"),
            (Step::Mark(Map::Inodes, 32, false), Ok(1), 2052, b"\xfe"),
            (Step::Mark(Map::Zones, 2, false), Ok(1), 3072, b"\x03"),
            (Step::Mark(Map::Zones, 58, false), Ok(1), 3079, b"\xf8"),
            (Step::Mark(Map::Inodes, 33, true), Ok(0), 0, b""),
            (Step::Mark(Map::Zones, 59, true), Ok(0), 0, b""),
        ],
    ),
    // numbers past the last are not looked at: of 200 inodes 0 to 64 are in the map, and 65 to 200 are free. The first that is free stands
    // in the second word of 64 bits, and 0 to 200 in four
    (
        Sizes::MoreInodes,
        (65536, &[(2048, b"\xff\xff\xff\xff\xff\xff\xff\xff\x01", 0)]),
        &[
            (Step::Lowest(Map::Inodes), Ok(65), 0, b""),
            (Step::LowestWords(Map::Inodes), Ok(2), 0, b""),
            (Step::Count(Map::Inodes), Ok(136), 0, b""),
            (Step::CountWords(Map::Inodes), Ok(4), 0, b""),
        ],
    ),
    // 64 inodes, 0 to 64 in the map, and no bit past them: none is free. The last one stands alone in a second word
    (
        Sizes::SixtyFourInodes,
        (65536, &[(2048, b"\xff\xff\xff\xff\xff\xff\xff\xff\x01", 0)]),
        &[
            (Step::Lowest(Map::Inodes), Ok(u32::MAX), 0, b""),
            (Step::LowestWords(Map::Inodes), Ok(2), 0, b""),
            (Step::Count(Map::Inodes), Ok(0), 0, b""),
            (Step::CountWords(Map::Inodes), Ok(2), 0, b""),
        ],
    ),
    // 32 inodes, 0 to 32 in the map, and no bit past them: none is free
    (
        Sizes::Small,
        (65536, &[(2048, b"\xff\xff\xff\xff\x01", 0)]),
        &[
            (Step::Lowest(Map::Inodes), Ok(u32::MAX), 0, b""),
            (Step::Count(Map::Inodes), Ok(0), 0, b""),
        ],
    ),
    // nor is number 0, which stands for nothing: 2 to 7 are in the map
    (
        Sizes::Small,
        (65536, &[(2048, b"\xfc", 0)]),
        &[
            (Step::Lowest(Map::Inodes), Ok(1), 0, b""),
            (Step::Count(Map::Inodes), Ok(26), 0, b""),
        ],
    ),
    // numbers 0 to 8191 are in the first block, all of them in the map; 8192 to 8292 are free
    (
        Sizes::ManyInodes,
        (614400, &[(2048, b"", 3072)]),
        &[
            (Step::Lowest(Map::Inodes), Ok(8192), 0, b""),
            // behind the 128 words of the first block; 0 to 8292 stand in 130
            (Step::LowestWords(Map::Inodes), Ok(129), 0, b""),
            (Step::Count(Map::Inodes), Ok(101), 0, b""),
            (Step::CountWords(Map::Inodes), Ok(130), 0, b""),
            (Step::Mark(Map::Inodes, 8192, true), Ok(1), 3072, b"\x01"),
            (Step::Lowest(Map::Inodes), Ok(8193), 0, b""),
            (Step::Count(Map::Inodes), Ok(100), 0, b""),
            (Step::Mark(Map::Inodes, 8191, false), Ok(1), 3071, b"\x7f"),
            (Step::Lowest(Map::Inodes), Ok(8191), 0, b""),
            (Step::Count(Map::Inodes), Ok(101), 0, b""),
            // the zone map begins behind both blocks
            (Step::Mark(Map::Zones, 0, true), Ok(1), 4096, b"\x01"),
        ],
    ),
];

/// Inodes.
static INODES: [Row; 4] = [
    // they leave their neighbours
    (
        Sizes::Small,
        (
            65536,
            &[
                (2048, b"\x03\0\0\0\xfe", 3072),
                (3072, b"\x03\0\0\0\0\0\0\xf8", 4096),
                (4096, ROOT_6, 0),
            ],
        ),
        &[
            (Step::Load(1), Ok(1), 0, b""),
            (Step::StoreOther(2), Ok(0), 4160, BYTES),
            (Step::Load(2), Ok(2), 0, b""),
            (Step::StoreOther(16), Ok(0), 5056, BYTES),
            (Step::Load(16), Ok(2), 0, b""),
            (Step::StoreOther(17), Ok(0), 5120, BYTES),
            (Step::Load(17), Ok(2), 0, b""),
            (Step::StoreOther(32), Ok(0), 6080, BYTES),
            (Step::Load(32), Ok(2), 0, b""),
            (Step::StoreOther(1), Ok(0), 4096, BYTES),
            (Step::Load(1), Ok(2), 0, b""),
            // none has these numbers
            (Step::Load(0), Err(Halt::Unsound), 0, b""),
            (Step::StoreRoot(0), Err(Halt::Unsound), 0, b""),
            (Step::Load(33), Err(Halt::Unsound), 0, b""),
            (Step::StoreRoot(33), Err(Halt::Unsound), 0, b""),
        ],
    ),
    // inode 20 is entry 19: 1216 bytes into the table, which begins with block 4
    (
        Sizes::Middle,
        (
            131072,
            &[
                (4096, b"\x03\0\0\0\xfe", 6144),
                (6144, b"\x03\0\0\0\0\0\0\xf0", 8192),
                (8192, ROOT_6, 0),
            ],
        ),
        &[
            (Step::Load(1), Ok(1), 0, b""),
            (Step::StoreOther(20), Ok(0), 9408, BYTES),
        ],
    ),
    (
        Sizes::Large,
        (
            262144,
            &[
                (8192, b"\x03\0\0\0\xfe", 12288),
                (12288, b"\x03\0\0\0\0\0\0\xf0", 16384),
                (16384, ROOT_6, 0),
            ],
        ),
        &[
            (Step::Load(1), Ok(1), 0, b""),
            (Step::StoreOther(20), Ok(0), 17600, BYTES),
        ],
    ),
    // the image ends in the middle of block 4, in which the table begins
    (
        Sizes::Small,
        (
            4608,
            &[
                (2048, b"\x03\0\0\0\xfe", 3072),
                (3072, b"\x03\0\0\0\0\0\0\xf8", 4096),
                (4096, ROOT_6, 0),
            ],
        ),
        &[
            (Step::Lowest(Map::Zones), Ok(2), 0, b""),
            (Step::Count(Map::Zones), Ok(57), 0, b""),
            (Step::Load(1), Err(Halt::Cut(Cut::Eio)), 0, b""),
            (Step::StoreRoot(1), Err(Halt::Cut(Cut::Eio)), 0, b""),
        ],
    ),
];

/// Does the things of a row: it is an error where something else comes of one, or the volume has other bytes then.
fn is_done(alloc: Global, table: &str, number: usize, row: &Row) -> Result<(), Fail> {
    let (sizes, image, steps) = row;
    let mut volume = Volume::new(sizes, image_of(alloc, image)?);
    let mut wanted = image_of(alloc, image)?;
    for (step, (act, came, at, bytes)) in steps.iter().enumerate() {
        put(&mut wanted, *at, bytes);
        if !volume.gives(act, *came, &wanted) {
            return Err(Fail::new(format_args!("{table}, row {number}, step {step}")));
        }
    }
    Ok(())
}

/// Does the things of these rows.
fn are_done(alloc: Global, table: &str, rows: &[Row]) -> Result<(), Fail> {
    for (number, row) in rows.iter().enumerate() {
        is_done(alloc, table, number, row)?;
    }
    Ok(())
}

#[test]
fn maps_and_inodes_are_changed(rt: HostRuntime) -> Result<(), Fail> {
    are_done(rt.alloc(), "a fresh volume", &FRESH)?;
    are_done(rt.alloc(), "numbers", &NUMBERS)?;
    are_done(rt.alloc(), "inodes", &INODES)
}
