//! Findings on a volume of 64 blocks of 1024 bytes and 32 inodes.
use fsck::{OutOfMemory, Verdict, check};
use layout::Geometry;
use std::alloc::{AllocError, Global};
use std::test::Fail;
use tests_texts::is_told;
use volume::Finding;

/// Bytes at a place.
type Put = (usize, &'static [u8]);

/// Puts bytes at a place.
fn put(image: &mut [u8], at: usize, bytes: &[u8]) {
    for (place, byte) in image.iter_mut().skip(at).zip(bytes) {
        *place = *byte;
    }
}

/// Sets a byte.
fn set(image: &mut [u8], at: usize, byte: u8) {
    if let Some(place) = image.get_mut(at) {
        *place = byte;
    }
}

/// What the volume holds but for zeros: it was made at time 50, and its root is empty.
static SMALL: [Put; 9] = [
    (1024, &[32, 0, 0, 0, 0, 0, 1, 0, 1, 0, 6]),
    (1040, &[0xff, 0xff, 0xff, 0x7f, 64, 0, 0, 0, 0x5a, 0x4d]),
    (1053, &[4]),
    (2048, &[3, 0, 0, 0, 0xfe]),
    (3072, &[3, 0, 0, 0, 0, 0, 0, 0xf8]),
    (4096, &[0xed, 0x41, 2, 0, 0, 0, 0, 0, 128]),
    (4108, &[50, 0, 0, 0, 50, 0, 0, 0, 50, 0, 0, 0, 6]),
    (6144, &[1, 0, 0, 0, b'.']),
    (6208, &[1, 0, 0, 0, b'.', b'.']),
];

/// Puts bytes at several places.
fn change(image: &mut [u8], changes: &[Put]) {
    for (at, bytes) in changes {
        put(image, *at, bytes);
    }
}

/// The volume with these bytes changed.
fn small_volume(alloc: Global, changes: &[Put]) -> Result<Vec<u8>, AllocError> {
    let mut image = vec![in alloc; 0; 65536]?;
    change(&mut image, &SMALL);
    change(&mut image, changes);
    Ok(image)
}

/// The number and place of the finding on an image, or 0 and 0 where it is clean.
fn said(alloc: Global, image: &[u8]) -> Result<(u32, u32), Fail> {
    match check(alloc, image)? {
        Verdict::Clean(_) => Ok((0, 0)),
        Verdict::Found(Finding { number, place }) => Ok((number, place)),
    }
}

/// Bytes that are changed, and the finding's number and place.
type Row = (&'static [Put], (u32, u32));

static ROWS: [Row; 23] = [
    // a single and a double indirect block that name themselves
    (&[(4148, &[7]), (7168, &[7]), (3072, &[7])], (8, 7)),
    (&[(4156, &[7]), (7168, &[7]), (3072, &[7])], (8, 7)),
    // maps, the root, modes and sizes
    (&[(2048, &[2])], (2, 0)),
    (&[(3072, &[2])], (3, 0)),
    (&[(2048, &[1])], (4, 1)),
    (&[(4097, &[0x81])], (4, 1)),
    (&[(4097, &[0x43])], (5, 1)),
    (&[(4104, &[64])], (6, 1)),
    // zones
    (&[(4120, &[5])], (7, 1)),
    (&[(4124, &[6])], (8, 6)),
    (&[(3072, &[7])], (9, 7)),
    (&[(4124, &[7]), (3072, &[7])], (10, 1)),
    (&[(4148, &[7]), (3072, &[7])], (10, 1)),
    (&[(4120, &[0]), (3072, &[1])], (11, 1)),
    // entry 0 with another number, and with another name
    (&[(6144, &[2])], (12, 1)),
    (&[(6148, b"/")], (12, 1)),
    // entry 1 without a number, and with that of an inode that isn't marked
    (&[(6208, &[0])], (13, 1)),
    (&[(6208, &[2])], (14, 1)),
    // a third entry: free, with such a number, and one that names the root
    (&[(4104, &[192])], (13, 1)),
    (&[(4104, &[192]), (6272, &[9]), (6276, b"x")], (14, 1)),
    (&[(4104, &[192]), (6272, &[1]), (6276, b"x")], (15, 1)),
    (&[(4098, &[3])], (16, 1)),
    // a directory that is named twice
    (
        &[
            (2048, &[7]),
            (3072, &[7]),
            (4104, &[0, 1]),
            (4160, &[0xed, 0x41, 2, 0, 0, 0, 0, 0, 128]),
            (4184, &[7]),
            (6272, &[2, 0, 0, 0, b'x']),
            (6336, &[2, 0, 0, 0, b'y']),
            (7168, &[2, 0, 0, 0, b'.']),
            (7232, &[1, 0, 0, 0, b'.', b'.']),
        ],
        (15, 2),
    ),
];

/// This is said of an image. (A function that owns nothing: elsewhere each comparison costs its proof some seconds more.)
fn is_said(alloc: Global, row: usize, image: &[u8], finding: (u32, u32)) -> Result<(), Fail> {
    let said = said(alloc, image)?;
    if said == finding {
        return Ok(());
    }
    Err(Fail::new(format_args!("row {row}: {said:?}")))
}

/// Each row comes out, on the volume with these bytes changed before.
fn are_said(alloc: Global, before: &[&[Put]], rows: &[Row]) -> Result<(), Fail> {
    for (row, (changes, finding)) in rows.iter().enumerate() {
        let mut image = small_volume(alloc, &[])?;
        for some in before {
            change(&mut image, some);
        }
        change(&mut image, changes);
        is_said(alloc, row, &image, *finding)?;
    }
    Ok(())
}

#[test]
fn changed_volumes(rt: HostRuntime) -> Result<(), Fail> {
    are_said(rt.alloc(), &[], &ROWS)
}

/// The name `l` of the root leads to inode 2, a symbolic link whose target, `a`, lies in zone 7.
static LINK: [Put; 7] = [
    (2048, &[7]),
    (3072, &[7]),
    (4104, &[192]),
    (4160, &[0xff, 0xa1, 1, 0, 0, 0, 0, 0, 1]),
    (4184, &[7]),
    (6272, &[2, 0, 0, 0, b'l']),
    (7168, b"a"),
];

/// What is changed for a second one: `m` leads to inode 3, whose target, `bc`, lies in zone 8.
static SECOND: [Put; 7] = [
    (2048, &[15]),
    (3072, &[15]),
    (4104, &[0, 1]),
    (4224, &[0xff, 0xa1, 1, 0, 0, 0, 0, 0, 2]),
    (4248, &[8]),
    (6336, &[3, 0, 0, 0, b'm']),
    (8192, b"bc"),
];

/// Bytes that are changed on the volume with one link, and what is said.
static LINKED: [Row; 31] = [
    // targets of one byte, of 1023, and of bytes that are no letters
    (&[], (0, 0)),
    (&[(4168, &[0xff, 3]), (7168, &[b'a'; 1023])], (0, 0)),
    (&[(4168, &[3]), (7168, &[0xff, 1, b'/'])], (0, 0)),
    // modes: without permissions; with a bit between; of a socket
    (&[(4160, &[0, 0xa0])], (0, 0)),
    (&[(4161, &[0xa3])], (5, 2)),
    (&[(4161, &[0xc1])], (5, 2)),
    // no byte; 1024, 65537 and 2147483647 of them
    (&[(3072, &[3]), (4168, &[0]), (4184, &[0])], (17, 2)),
    (&[(4168, &[0, 4]), (7168, &[b'a'; 1024])], (17, 2)),
    (&[(4170, &[1])], (17, 2)),
    (&[(4168, &[0xff, 0xff, 0xff, 0x7f])], (17, 2)),
    // no zone at page 0
    (&[(3072, &[3]), (4184, &[0])], (17, 2)),
    // a zero byte: the only one, the first, one between, the last, the last of 1023
    (&[(7168, &[0])], (17, 2)),
    (&[(4168, &[3]), (7168, b"\0bc")], (17, 2)),
    (&[(4168, &[3]), (7168, b"a\0c")], (17, 2)),
    (&[(4168, &[3]), (7168, b"ab\0")], (17, 2)),
    (&[(4168, &[0xff, 3]), (7168, &[b'a'; 1022])], (17, 2)),
    // a zero byte, with an earlier finding at the root, at the link or at a zone
    (&[(7168, &[0]), (2048, &[6])], (2, 0)),
    (&[(7168, &[0]), (3072, &[6])], (3, 0)),
    (&[(7168, &[0]), (4097, &[0x81])], (4, 1)),
    (&[(7168, &[0]), (4097, &[0x43])], (5, 1)),
    (&[(7168, &[0]), (4104, &[64])], (6, 1)),
    (&[(7168, &[0]), (4188, &[5])], (7, 2)),
    (&[(7168, &[0]), (4188, &[6])], (8, 6)),
    (&[(7168, &[0]), (3072, &[15])], (9, 8)),
    (&[(7168, &[0]), (4188, &[8]), (3072, &[15])], (10, 2)),
    (&[(7168, &[0]), (4120, &[0]), (3072, &[5])], (11, 1)),
    (&[(7168, &[0]), (6144, &[2])], (12, 1)),
    (&[(7168, &[0]), (6276, b"/")], (13, 1)),
    (&[(7168, &[0]), (6272, &[9])], (14, 1)),
    (&[(7168, &[0]), (6208, &[2])], (15, 1)),
    (&[(7168, &[0]), (4162, &[2])], (16, 2)),
];

/// Bytes that are changed on the volume with two links, and what is said: the least link that is at fault is told.
static TWO_LINKED: [Row; 5] = [
    (&[], (0, 0)),
    (&[(7168, &[0])], (17, 2)),
    (&[(8193, &[0])], (17, 3)),
    (&[(7168, &[0]), (8193, &[0])], (17, 2)),
    (&[(4232, &[0, 4]), (7168, &[0])], (17, 2)),
];

#[test]
fn symbolic_links(rt: HostRuntime) -> Result<(), Fail> {
    are_said(rt.alloc(), &[&LINK], &LINKED)?;
    are_said(rt.alloc(), &[&LINK, &SECOND], &TWO_LINKED)
}

/// The sizes of the volume, if it is clean.
fn sizes(alloc: Global, image: &[u8]) -> Result<Option<Geometry>, Fail> {
    match check(alloc, image)? {
        Verdict::Clean(clean) => Ok(Some(clean.geometry())),
        Verdict::Found(_) => Ok(None),
    }
}

/// What the volume's sizes are.
const SIZES: Geometry = Geometry {
    block_size: 1024,
    inodes: 32,
    zones: 64,
    inode_map_blocks: 1,
    zone_map_blocks: 1,
    first_zone: 6,
};

/// No beginning of an image is clean.
fn are_short(alloc: Global, image: &[u8]) -> Result<(), Fail> {
    for size in 0..65536 {
        let part = image.get(..size).unwrap_or(&[]);
        let place = if size < 1055 { 1 } else { 6 };
        is_said(alloc, size, part, (1, place))?;
    }
    Ok(())
}

/// The volume is clean, and a beginning of it isn't.
#[test]
fn whole_and_short_images(rt: HostRuntime) -> Result<(), Fail> {
    let image = small_volume(rt.alloc(), &[])?;
    assert!(rt; sizes(rt.alloc(), &image)? == Some(SIZES));
    are_short(rt.alloc(), &image)
}

/// Each value of a byte: an answer comes. Then the byte is as it was.
fn any_value(alloc: Global, image: &mut [u8], at: usize) -> Result<(), Fail> {
    let old = image.get(at).copied().unwrap_or(0);
    for value in 0..=255u8 {
        set(image, at, value);
        let (number, _) = said(alloc, image)?;
        if number > 17 {
            return Err(Fail::from("a finding of no number"));
        }
    }
    set(image, at, old);
    Ok(())
}

/// So it is of each of the first 7168 bytes, on the volume with nothing else changed.
#[test]
fn any_byte(rt: HostRuntime) -> Result<(), Fail> {
    let mut image = small_volume(rt.alloc(), &[])?;
    for at in 0..7168 {
        any_value(rt.alloc(), &mut image, at)?;
    }
    Ok(())
}

/// Why a check may give no answer.
#[test]
fn want_of_memory_is_named(rt: HostRuntime) -> Result<(), Fail> {
    is_told(
        format!(in rt.alloc(); "{OutOfMemory}")?.as_str(),
        "OutOfMemory",
    )
}
