//! New volumes by the format's tables, byte by byte, and when none is made.
use crate::images::{Image, image_of, read_of};
use new_volume::{MkfsRefusal, mkfs, mkfs_front};
use std::alloc::{AllocError, Global};
use std::test::Fail;
use tests_texts::row_is_told;

/// A volume of 64 blocks of 1024 bytes with 32 inodes, made at 50.
static SMALL: Image = (
    65536,
    &[
        // 32 inodes, a block of each map, the first data zone 6, 64 zones, blocks of 1024
        (
            1024,
            b"\x20\0\0\0\0\0\x01\0\x01\0\x06\0\0\0\0\0\xff\xff\xff\x7f\x40\0\0\0ZM\0\0\0\x04\0",
            0,
        ),
        (2048, b"\x03\0\0\0\xfe", 3072),
        (3072, b"\x03\0\0\0\0\0\0\xf8", 4096),
        // the root: mode 0040755 is 0x41ed, two links, 128 bytes, the times 50, zone 6
        (
            4096,
            b"\xed\x41\x02\0\0\0\0\0\x80\0\0\0\x32\0\0\0\x32\0\0\0\x32\0\0\0\x06\0\0\0",
            0,
        ),
        (6144, b"\x01\0\0\0.", 0),
        (6208, b"\x01\0\0\0..", 0),
    ],
);

/// The blocks, their bytes and the inodes that are asked for, and the sizes of that volume, worked out by hand, with bytes from a place
/// on: those of a root's entry, or the last ones of a map.
static MADE: [(u32, u32, u32, &str, usize, &[u8]); 4] = [
    // both maps a block, one block of inodes
    (
        64,
        2048,
        32,
        "block 2048 inodes 32 zones 64 maps 1 1 first 5",
        10240,
        b"\x01\0\0\0.",
    ),
    // 8191 inodes fill a map of 1024 bytes to its last bit, one more takes a second block
    (
        1024,
        1024,
        8191,
        "block 1024 inodes 8191 zones 1024 maps 1 1 first 516",
        3070,
        b"\0\0\x03",
    ),
    (
        1024,
        1024,
        8192,
        "block 1024 inodes 8192 zones 1024 maps 2 1 first 517",
        3071,
        b"\0\xfe\xff",
    ),
    // one data zone alone: blocks 2 and 3 the maps, 4 the inodes, 5 the zone
    (
        6,
        1024,
        16,
        "block 1024 inodes 16 zones 6 maps 1 1 first 5",
        3072,
        b"\xff\xff",
    ),
];

/// The blocks, their bytes and the inodes that are asked for, and why no volume is made; also which of two refusals comes.
static REFUSED: [(u32, u32, u32, &str); 13] = [
    (64, 512, 32, "1 BadBlockSize"),
    (64, 8192, 32, "1 BadBlockSize"),
    (0, 0, 0, "1 BadBlockSize"),
    (64, 1024, 0, "2 BadInodes"),
    (64, 1024, 65536, "2 BadInodes"),
    (65537, 4096, 0, "2 BadInodes"),
    (65537, 1024, 32, "3 TooManyBlocks"),
    (16385, 4096, 32, "3 TooManyBlocks"),
    (32769, 2048, 32, "3 TooManyBlocks"),
    (4294967295, 1024, 32, "3 TooManyBlocks"),
    (6, 1024, 32, "4 TooFewBlocks"),
    (0, 4096, 1, "4 TooFewBlocks"),
    (5, 4096, 65535, "4 TooFewBlocks"),
];

/// The refusals, with their numbers and names.
static NAMES: [(MkfsRefusal, &str); 5] = [
    (MkfsRefusal::BadBlockSize, "1 BadBlockSize"),
    (MkfsRefusal::BadInodes, "2 BadInodes"),
    (MkfsRefusal::TooManyBlocks, "3 TooManyBlocks"),
    (MkfsRefusal::TooFewBlocks, "4 TooFewBlocks"),
    (MkfsRefusal::OutOfMemory, "5 OutOfMemory"),
];

/// The number and the name of a refusal.
fn told(alloc: Global, refusal: &MkfsRefusal) -> Result<String, AllocError> {
    let number = refusal.number();
    format!(in alloc; "{number} {refusal}")
}

/// The bytes of the small volume are these.
fn is_small(alloc: Global) -> Result<(), Fail> {
    let wanted = image_of(alloc, &SMALL)?;
    let image = mkfs(alloc, 64, 1024, 32, 50)?;
    if image.as_slice() == wanted.as_slice() {
        return Ok(());
    }
    Err(Fail::from("other bytes"))
}

/// Whether these bytes stand at a place.
fn holds(image: &[u8], at: usize, bytes: &[u8]) -> bool {
    match image.get(at..) {
        Some(rest) => rest.starts_with(bytes),
        None => false,
    }
}

/// The same volume up to the end of its root's directory; and one of user 0x1234 and group 0x5678, which stand behind mode and links.
fn are_owned(alloc: Global) -> Result<(), Fail> {
    let wanted = image_of(alloc, &SMALL)?;
    let made = mkfs_front(alloc, 64, 1024, 32, 50, 0, 0)?;
    if made.front.len() != 6214 || made.length() != 65536 || !holds(&wanted, 0, &made.front) {
        return Err(Fail::from("not its beginning"));
    }
    let made = mkfs_front(alloc, 64, 1024, 32, 50, 0x1234, 0x5678)?;
    if holds(
        &made.front,
        4096,
        b"\xed\x41\x02\0\x34\x12\x78\x56\x80\0\0\0",
    ) {
        return Ok(());
    }
    Err(Fail::from("another owner"))
}

/// Volumes of these sizes are made.
fn are_made(alloc: Global) -> Result<(), Fail> {
    for (number, (blocks, block_size, inodes, text, at, bytes)) in MADE.iter().enumerate() {
        let image = mkfs(alloc, *blocks, *block_size, *inodes, 0)?;
        row_is_told(number, read_of(alloc, &image)?.as_str(), text)?;
        if !holds(&image, *at, bytes) {
            return Err(Fail::new(format_args!("row {number}: other bytes")));
        }
    }
    Ok(())
}

/// 65536 blocks of 1024 bytes are 64 MiB, and so are 16384 of 4096.
fn are_largest(alloc: Global) -> Result<(), Fail> {
    for (blocks, block_size, inodes) in [(65536, 1024, 65535), (16384, 4096, 1)] {
        let length = mkfs(alloc, blocks, block_size, inodes, 0)?.len();
        if length != 67108864 {
            return Err(Fail::new(format_args!("{blocks} blocks: {length} bytes")));
        }
    }
    Ok(())
}

/// No volumes are made for these reasons.
fn are_refused(alloc: Global) -> Result<(), Fail> {
    for (number, (blocks, block_size, inodes, text)) in REFUSED.iter().enumerate() {
        match mkfs(alloc, *blocks, *block_size, *inodes, 0) {
            Ok(_) => return Err(Fail::new(format_args!("row {number}: made"))),
            Err(refusal) => row_is_told(number, told(alloc, &refusal)?.as_str(), text)?,
        }
    }
    Ok(())
}

/// The refusals have these numbers and names.
fn are_named(alloc: Global) -> Result<(), Fail> {
    for (number, (refusal, text)) in NAMES.iter().enumerate() {
        row_is_told(number, told(alloc, refusal)?.as_str(), text)?;
    }
    Ok(())
}

#[test]
fn volumes_are_made_or_refused(rt: HostRuntime) -> Result<(), Fail> {
    is_small(rt.alloc())?;
    are_owned(rt.alloc())?;
    are_made(rt.alloc())?;
    are_largest(rt.alloc())?;
    are_refused(rt.alloc())?;
    are_named(rt.alloc())
}
