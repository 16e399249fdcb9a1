//! Reads of files, with slices that hold 0x2e before.

use crate::calls::{Call, Step};
use crate::images::{Part, SMALL, volume};
use std::alloc::Global;
use std::test::Fail;

/// The first bytes of inode 1: a file, one link, its size.
const FILE_OF_3: [u8; 12] = [0xa4, 0x81, 1, 0, 0, 0, 0, 0, 3, 0, 0, 0];

/// A row: what the small volume has beside its superblock, and reads.
struct Row {
    name: &'static str,
    parts: &'static [Part],
    steps: &'static [Step<'static>],
}

/// 2051 bytes: page 0 in zone 7, page 1 a hole, page 2 in zone 6.
const WITH_A_HOLE: [Part; 5] = [
    (4096, &FILE_OF_3),
    (4104, &[3, 8, 0, 0]),
    (4120, &[7, 0, 0, 0, 0, 0, 0, 0, 6]),
    (6144, b"abc"),
    (8190, b"yz"),
];

/// Files in the direct range.
static DIRECT: [Row; 4] = [
    Row {
        // its page lies in zone 6, whose bytes behind the file's are other ones
        name: "a short file",
        parts: &[(4096, &FILE_OF_3), (4120, &[6]), (6144, b"abc")],
        steps: &[
            (Call::Read(0, 0, b"....."), Ok(0)),
            (Call::Read(0, 1, b"a...."), Ok(1)),
            (Call::Read(0, 3, b"abc.."), Ok(3)),
            (Call::Read(0, 5, b"abc.."), Ok(3)),
            (Call::Read(1, 1, b"b...."), Ok(1)),
            (Call::Read(1, 5, b"bc..."), Ok(2)),
            (Call::Read(2, 5, b"c...."), Ok(1)),
            (Call::Read(3, 5, b"....."), Ok(0)),
            (Call::Read(5, 5, b"....."), Ok(0)),
            (Call::Read(4294967295, 5, b"....."), Ok(0)),
        ],
    },
    Row {
        name: "a hole has zeros",
        parts: &WITH_A_HOLE,
        steps: &[
            (Call::Read(1022, 6, b"yz\0\0\0\0"), Ok(6)),
            (Call::Read(1024, 6, b"\0\0\0\0\0\0"), Ok(6)),
            (Call::Read(2045, 6, b"\0\0\0abc"), Ok(6)),
            (Call::Read(2047, 6, b"\0abc.."), Ok(4)),
            (Call::Read(2050, 6, b"c....."), Ok(1)),
        ],
    },
    Row {
        name: "a number of a map's block names no zone",
        parts: &[(4096, &FILE_OF_3), (4120, &[3])],
        steps: &[(Call::Read(0, 5, b"\0\0\0.."), Ok(3))],
    },
    Row {
        name: "a number past the last names no zone",
        parts: &[(4096, &FILE_OF_3), (4120, &[64])],
        steps: &[(Call::Read(0, 5, b"\0\0\0.."), Ok(3))],
    },
];

/// Files over the ends of the ranges.
static ENDS: [Row; 3] = [
    Row {
        // 7171 bytes: page 6 in zone 8, page 7 in zone 6, whose number is the first of block 9
        name: "over the end of the direct range",
        parts: &[
            (4096, &FILE_OF_3),
            (4104, &[3, 28, 0, 0]),
            (4144, &[8]),
            (4148, &[9]),
            (9214, b"yz"),
            (9216, &[6, 0, 0, 0]),
            (6144, b"abc"),
        ],
        steps: &[(Call::Read(7166, 6, b"yzabc."), Ok(5))],
    },
    Row {
        // page 262 stands at number 255 of block 9, the single's; page 263 at the first number of block 11, the first of block 10, the
        // double's; page 518 at number 255 of block 11, and page 519 at the first of block 12, the next one of block 10
        name: "over the ends of indirect blocks",
        parts: &[
            (4096, &FILE_OF_3),
            (4104, &[3, 28, 8, 0]),
            (4148, &[9, 0, 0, 0, 10]),
            (10236, &[6, 0, 0, 0]),
            (10240, &[11, 0, 0, 0, 12, 0, 0, 0]),
            (11264, &[8, 0, 0, 0]),
            (12284, &[13, 0, 0, 0]),
            (12288, &[14, 0, 0, 0]),
            (7166, b"yz"),
            (8192, b"abc"),
            (14334, b"YZ"),
            (14336, b"ABC"),
        ],
        steps: &[
            (Call::Read(269310, 5, b"yzabc"), Ok(5)),
            (Call::Read(531454, 5, b"YZABC"), Ok(5)),
        ],
    },
    Row {
        // page 6 in zone 8; the single's block is a hole; page 263 in zone 6, by block 11, the first of block 10
        name: "over a hole in place of a block",
        parts: &[
            (4096, &FILE_OF_3),
            (4104, &[3, 28, 8, 0]),
            (4144, &[8]),
            (4152, &[10]),
            (9214, b"yz"),
            (10240, &[11, 0, 0, 0]),
            (11264, &[6, 0, 0, 0]),
            (6144, b"abc"),
        ],
        steps: &[
            (Call::Read(7166, 5, b"yz\0\0\0"), Ok(5)),
            (Call::Read(269310, 5, b"\0\0abc"), Ok(5)),
        ],
    },
];

/// Reads what rows say.
fn are_read(alloc: Global, rows: &[Row]) -> Result<(), Fail> {
    for row in rows {
        volume(alloc, SMALL, row.parts)?.gives(row.name, 1, row.steps)?;
    }
    Ok(())
}

/// A read over three pages at once.
fn three_pages_are_read(alloc: Global) -> Result<(), Fail> {
    let mut bytes = [0; 1030];
    bytes[..2].copy_from_slice(b"yz");
    bytes[1026..].copy_from_slice(b"abc.");
    let steps = [(Call::Read(1022, 1030, &bytes), Ok(1029))];
    volume(alloc, SMALL, &WITH_A_HOLE)?.gives("over three pages", 1, &steps)
}

#[test]
fn files_are_read(rt: HostRuntime) -> Result<(), Fail> {
    are_read(rt.alloc(), &DIRECT)?;
    are_read(rt.alloc(), &ENDS)?;
    three_pages_are_read(rt.alloc())
}
