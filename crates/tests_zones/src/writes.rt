//! Writes and sizes of files that are empty at first, in zones where other bytes stood, and zones that pages need. A zone of 1024 bytes
//! holds 256 numbers, so pages 0 to 6 are direct, 7 to 262 single, 263 to 65798 double, and the others triple; of 2048 bytes the last are
//! 518 and
//! 262662, of 4096 bytes 1030 and 1049606.

use crate::calls::{Call, DONE, Field, SIZE, Step};
use crate::images::{
    EMPTY, EMPTY_LARGE, EMPTY_MIDDLE, LARGE, MIDDLE, MIDDLE_PAGES, Part, SMALL, SMALL_PAGES, Size,
    volume,
};
use std::alloc::Global;
use std::test::Fail;

/// A page, and how many zones its bytes take, where blocks have 4096 bytes.
static LARGE_PAGES: [(u32, u32); 5] = [(6, 1), (7, 2), (1030, 2), (1031, 3), (524287, 3)];

/// Two bytes of a page take so many zones, and give them back.
fn are_written(
    alloc: Global,
    (size, width): (Size, u32),
    parts: &[Part],
    free: u32,
    pages: &[(u32, u32)],
) -> Result<(), Fail> {
    for (page, zones) in pages {
        let at = width.saturating_mul(*page);
        let steps = [
            (Call::Write(at, b"xy"), DONE),
            (Call::Read(at, 2, b"xy"), Ok(2)),
            (Call::Free, Ok(free.saturating_sub(*zones))),
            (Call::Resize(at), DONE),
            (Call::Free, Ok(free)),
            (Call::Read(at, 0, b""), Ok(0)),
        ];
        volume(alloc, size, parts)?.gives("page", *page, &steps)?;
    }
    Ok(())
}

#[test]
fn pages_are_written(rt: HostRuntime) -> Result<(), Fail> {
    are_written(rt.alloc(), (SMALL, 1024), &EMPTY, 58, &SMALL_PAGES)?;
    are_written(rt.alloc(), (MIDDLE, 2048), &EMPTY_MIDDLE, 59, &MIDDLE_PAGES)?;
    are_written(rt.alloc(), (LARGE, 4096), &EMPTY_LARGE, 59, &LARGE_PAGES)
}

/// What follows on one another on the small volume.
static ROWS: [(&str, &[Step]); 6] = [
    (
        "cut and grown again",
        &[
            (Call::Free, Ok(58)),
            (Call::Write(0, b"abc"), DONE),
            (Call::Read(0, 3, b"abc"), Ok(3)),
            (SIZE, Ok(3)),
            (Call::Free, Ok(57)),
            (Call::Resize(1), DONE),
            (SIZE, Ok(1)),
            (Call::Resize(3), DONE),
            (Call::Read(0, 3, b"a\0\0"), Ok(3)),
            (Call::Free, Ok(57)),
            // and by a write behind the end
            (Call::Write(0, b"abc"), DONE),
            (Call::Resize(1), DONE),
            (Call::Write(5, b"z"), DONE),
            (Call::Read(0, 6, b"a\0\0\0\0z"), Ok(6)),
            (Call::Free, Ok(57)),
            (Call::Resize(0), DONE),
            (SIZE, Ok(0)),
            (Call::Free, Ok(58)),
        ],
    ),
    (
        "the last bytes that fit",
        &[
            // a hole as long as a file may be
            (Call::Resize(2147483647), DONE),
            (Call::Free, Ok(58)),
            (Call::Read(2147483644, 3, b"\0\0\0"), Ok(3)),
            // its last page takes three indirect blocks
            (Call::Write(2147483645, b"yz"), DONE),
            (Call::Free, Ok(54)),
            (Call::Read(2147483644, 3, b"\0yz"), Ok(3)),
            (SIZE, Ok(2147483647)),
            // one byte in its first page, which stays when the last goes
            (Call::Write(0, b"a"), DONE),
            (Call::Free, Ok(53)),
            (Call::Resize(2147482624), DONE),
            (Call::Free, Ok(57)),
            (Call::Read(0, 2, b"a\0"), Ok(2)),
        ],
    ),
    (
        "over the end of the direct range",
        &[
            // pages 6 and 7, and the single's block
            (Call::Write(7166, b"wxyz"), DONE),
            (Call::Free, Ok(55)),
            (Call::Read(7164, 6, b"\0\0wxyz"), Ok(6)),
            (SIZE, Ok(7170)),
            // zone 6 was taken first; page 0 has none
            (Call::Field(Field::Zone(0)), Ok(0)),
            (Call::Field(Field::Zone(6)), Ok(6)),
            // bytes over them take nothing, and the size stays
            (Call::Write(7167, b"XY"), DONE),
            (Call::Read(7166, 4, b"wXYz"), Ok(4)),
            (Call::Free, Ok(55)),
            (SIZE, Ok(7170)),
            (Call::Resize(7168), DONE),
            (Call::Free, Ok(57)),
            (Call::Read(7166, 2, b"wX"), Ok(2)),
        ],
    ),
    (
        "over the end of the single range",
        &[
            // pages 262 and 263, the single's block, the double's and the first below it; the second time all of these are there
            (Call::Write(269310, b"vwxyz"), DONE),
            (Call::Read(269310, 5, b"vwxyz"), Ok(5)),
            (Call::Free, Ok(53)),
            (Call::Write(269310, b"VWXYZ"), DONE),
            (Call::Read(269310, 5, b"VWXYZ"), Ok(5)),
            (Call::Free, Ok(53)),
        ],
    ),
    (
        "times",
        &[
            (Call::Write(0, b"abc"), DONE),
            (Call::Stamp(77), DONE),
            (Call::Field(Field::Mode), Ok(0o100644)),
            (Call::Field(Field::Links), Ok(1)),
            (SIZE, Ok(3)),
            (Call::Field(Field::Atime), Ok(0)),
            (Call::Field(Field::Mtime), Ok(77)),
            (Call::Field(Field::Ctime), Ok(77)),
            // neither a write nor a size sets one
            (Call::Write(3, b"d"), DONE),
            (Call::Resize(2), DONE),
            (Call::Field(Field::Atime), Ok(0)),
            (Call::Field(Field::Mtime), Ok(77)),
            (Call::Field(Field::Ctime), Ok(77)),
            (Call::Read(0, 2, b"ab"), Ok(2)),
        ],
    ),
    (
        "zones that pages need",
        &[
            (Call::Need(0, 0), Ok(0)),
            (Call::Need(0, 1), Ok(1)),
            (Call::Need(7, 1), Ok(2)),
            (Call::Need(262, 1), Ok(2)),
            (Call::Need(263, 1), Ok(3)),
            (Call::Need(65798, 1), Ok(3)),
            (Call::Need(262, 2), Ok(5)),
            (Call::Need(65799, 1), Ok(4)),
            (Call::Need(2097151, 1), Ok(4)),
            (Call::Need(0, 56), Ok(57)),
            // page 7 and the single's block are there
            (Call::Write(7168, b"x"), DONE),
            (Call::Need(7, 1), Ok(0)),
            (Call::Need(0, 8), Ok(7)),
            (Call::Need(262, 2), Ok(4)),
            // nothing was taken but these two
            (Call::Free, Ok(56)),
        ],
    ),
];

#[test]
fn files_are_written(rt: HostRuntime) -> Result<(), Fail> {
    for (name, steps) in &ROWS {
        volume(rt.alloc(), SMALL, &EMPTY)?.gives(name, 1, steps)?;
    }
    Ok(())
}
