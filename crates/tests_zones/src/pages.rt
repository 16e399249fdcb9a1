//! Pages and the zones that they take. A zone of 1024 bytes holds 256 numbers, so pages 0 to 6 are direct, 7 to 262 single, 263 to
//! 65798 double, and the others triple; of 2048 bytes the last are 518 and 262662, of 4096 bytes 1030 and 1049606.

use crate::calls::{Call, DONE, Step};
use crate::images::{
    HOLE, HOLE_LARGE, HOLE_MIDDLE, LARGE, MIDDLE, MIDDLE_PAGES, Part, SMALL, SMALL_PAGES, Size,
    volume,
};
use block_store::Halt;
use std::alloc::Global;
use std::test::Fail;

/// Pages, and how many zones they take.
static TAKEN: [(&[u32], u32); 11] = [
    (&[], 0),
    (&[0], 1),
    (&[6], 1),
    (&[7], 2),
    (&[262], 2),
    (&[263], 3),
    (&[65798], 3),
    (&[262, 263], 5),
    (&[6, 7], 3),
    (&[65799], 4),
    (&[2097151], 4),
];

/// A page, and how many zones it takes and gives back, where blocks have 4096 bytes.
static LARGE_PAGES: [(u32, u32); 7] = [
    (6, 1),
    (7, 2),
    (1030, 2),
    (1031, 3),
    (1049606, 3),
    (1049607, 4),
    (524287, 3),
];

/// Pages take so many zones.
fn are_taken(alloc: Global, number: u32, pages: &[u32], zones: u32) -> Result<(), Fail> {
    let left = Ok(58u32.saturating_sub(zones));
    let steps = [
        (Call::Free, Ok(58)),
        (Call::Attach(1, pages), DONE),
        (Call::Free, left),
        // once more, and nothing is taken
        (Call::Attach(1, pages), DONE),
        (Call::Free, left),
        (Call::Blank(pages), DONE),
        (Call::Detach(1, 0), DONE),
        (Call::Free, Ok(58)),
        (Call::Holes(pages), DONE),
    ];
    volume(alloc, SMALL, &HOLE)?.gives("pages", number, &steps)
}

#[test]
fn pages_take_zones(rt: HostRuntime) -> Result<(), Fail> {
    for (number, (pages, zones)) in (0..).zip(&TAKEN) {
        are_taken(rt.alloc(), number, pages, *zones)?;
    }
    Ok(())
}

/// Pages take so many zones, and give them back: past the page nothing goes, and from it on all of them do.
fn give_back(
    alloc: Global,
    size: Size,
    parts: &[Part],
    free: u32,
    pages: &[(u32, u32)],
) -> Result<(), Fail> {
    for (page, zones) in pages {
        let left = Ok(free.saturating_sub(*zones));
        let steps = [
            (Call::Attach(1, &[*page]), DONE),
            (Call::Free, left),
            (Call::Detach(1, page.saturating_add(1)), DONE),
            (Call::Free, left),
            (Call::Detach(1, *page), DONE),
            (Call::Free, Ok(free)),
        ];
        volume(alloc, size, parts)?.gives("page", *page, &steps)?;
    }
    Ok(())
}

#[test]
fn pages_give_zones_back(rt: HostRuntime) -> Result<(), Fail> {
    give_back(rt.alloc(), SMALL, &HOLE, 58, &SMALL_PAGES)?;
    give_back(rt.alloc(), MIDDLE, &HOLE_MIDDLE, 59, &MIDDLE_PAGES)?;
    give_back(rt.alloc(), LARGE, &HOLE_LARGE, 59, &LARGE_PAGES)
}

/// It isn't done, since the volume isn't sound, has no such inode, or no room.
const UNSOUND: Result<u32, Halt> = Err(Halt::Unsound);

/// The first pages of the single range too: 56 of them.
const FIRST_PAGES: [u32; 56] = [
    0, 1, 2, 3, 4, 5, 6, 7, 8, 9, 10, 11, 12, 13, 14, 15, 16, 17, 18, 19, 20, 21, 22, 23, 24, 25,
    26, 27, 28, 29, 30, 31, 32, 33, 34, 35, 36, 37, 38, 39, 40, 41, 42, 43, 44, 45, 46, 47, 48, 49,
    50, 51, 52, 53, 54, 55,
];

/// What follows on one another on the small volume.
static ROWS: [(&str, &[Step]); 4] = [
    (
        "a row of pages",
        &[
            (Call::Attach(1, &FIRST_PAGES), DONE),
            // 56 pages and the single's block, so one zone is left
            (Call::Free, Ok(1)),
            (Call::Attach(1, &[56]), DONE),
            (Call::Free, Ok(0)),
            (Call::Attach(1, &[57]), UNSOUND),
            // from the last pages down to the block's first
            (Call::Detach(1, 8), DONE),
            (Call::Free, Ok(49)),
            (Call::Zone(8), Ok(0)),
            (Call::Detach(1, 7), DONE),
            (Call::Free, Ok(51)),
            (Call::Detach(1, 0), DONE),
            (Call::Free, Ok(58)),
        ],
    ),
    (
        "blocks stay while they have numbers",
        &[
            // 263 and 519 stand in two blocks of the double range, 262 in the single's: 3 pages, 3 blocks and the double's own
            (Call::Attach(1, &[262, 263, 519]), DONE),
            (Call::Free, Ok(51)),
            (Call::Detach(1, 519), DONE),
            (Call::Free, Ok(53)),
            (Call::Detach(1, 263), DONE),
            (Call::Free, Ok(56)),
            (Call::Detach(1, 263), DONE),
            (Call::Free, Ok(56)),
            (Call::Blank(&[262]), DONE),
            (Call::Detach(1, 262), DONE),
            (Call::Free, Ok(58)),
        ],
    ),
    (
        "zones side by side",
        &[
            // a zone each, but the single's block in 7, before page 7, and the double's in 11 and 12, before page 263
            (Call::Attach(1, &[6, 7, 9, 262, 263]), DONE),
            (Call::Zones(0, &[0, 0, 0, 0]), Ok(4)),
            (Call::Zones(5, &[0, 6]), Ok(2)),
            (Call::Zones(7, &[8, 0, 9, 0]), Ok(4)),
            (Call::Zones(8, &[0, 9, 0, 0]), Ok(4)),
            (Call::Zones(261, &[0, 10]), Ok(2)),
            (Call::Zones(262, &[10]), Ok(1)),
            (Call::Zones(263, &[13, 0, 0, 0]), Ok(4)),
            (Call::Zones(518, &[0]), Ok(1)),
            (Call::Zones(519, &[0, 0, 0, 0]), Ok(4)),
            (Call::Zones(65799, &[0, 0, 0, 0]), Ok(4)),
        ],
    ),
    (
        "numbers that are none",
        &[
            (Call::Attach(0, &[0]), UNSOUND),
            (Call::Detach(0, 0), UNSOUND),
            (Call::Attach(33, &[0]), UNSOUND),
            (Call::Detach(33, 0), UNSOUND),
            // 7 + 256 + 256 * 256 + 256 * 256 * 256 pages
            (Call::Attach(1, &[16843015]), UNSOUND),
            (Call::Zone(16843015), Ok(0)),
            (Call::Free, Ok(58)),
        ],
    ),
];

#[test]
fn zones_come_and_go(rt: HostRuntime) -> Result<(), Fail> {
    for (name, steps) in &ROWS {
        volume(rt.alloc(), SMALL, &HOLE)?.gives(name, 1, steps)?;
    }
    Ok(())
}
