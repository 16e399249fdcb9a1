//! Texts and statuses of checking a volume.
use crate::writers::{Writer, taker, writer_of};
use new_volume::mkfs;
use output::Told;
use std::alloc::Global;
use std::process::Abort;
use std::str;
use std::test::Fail;
use volume_commands::verify::{Verified, verify};

/// What a file holds.
enum File {
    /// It can't be read.
    None,
    /// These bytes.
    Bytes(&'static [u8]),
    /// A new volume of so many blocks of such a size with so many inodes, made at 50.
    New(u32, u32, u32),
    /// So many bytes of the small one: 64 blocks of 1024 bytes with 32 inodes.
    Short(usize),
    /// The small one with these bytes changed.
    Changed(&'static [(usize, u8)]),
    /// A disk of 129 sectors with the small one in its first partition, of a type and of so many sectors.
    Disk(u8, u8),
}

/// The line is what is said, whole.
const CLEAN: Verified = Verified::IsClean;

/// The finding is said, whole.
const FOUND: Verified = Verified::HasFinding;

/// The finding of the links is said, whole, and a line on standard error.
const LINKS: Verified = Verified::HasWrongLinks;

/// A line on standard error says why not.
const REFUSED: Verified = Verified::Refused(Told::Whole);

/// A file, the minor, what `verify` writes on standard output and on standard error, its answer, and the status.
type Row = (File, u8, &'static str, &'static str, Verified, u8);

static ROWS: [Row; 32] = [
    // new volumes
    (File::New(64, 1024, 32), 0, "clean\n", "", CLEAN, 0),
    (File::New(64, 2048, 32), 0, "clean\n", "", CLEAN, 0),
    (File::New(64, 4096, 32), 0, "clean\n", "", CLEAN, 0),
    (File::New(6, 1024, 16), 0, "clean\n", "", CLEAN, 0),
    (File::New(1024, 1024, 8191), 0, "clean\n", "", CLEAN, 0),
    (File::New(1100, 1024, 8192), 0, "clean\n", "", CLEAN, 0),
    (File::New(8300, 1024, 16), 0, "clean\n", "", CLEAN, 0),
    (File::New(16384, 4096, 64), 0, "clean\n", "", CLEAN, 0),
    // short images
    (File::Short(0), 0, "finding 1 at 1\n", "", FOUND, 1),
    (File::Short(1023), 0, "finding 1 at 1\n", "", FOUND, 1),
    (File::Short(1054), 0, "finding 1 at 1\n", "", FOUND, 1),
    (File::Short(1055), 0, "finding 1 at 6\n", "", FOUND, 1),
    (File::Short(65535), 0, "finding 1 at 6\n", "", FOUND, 1),
    // the zone map marks zone 7, which nothing uses
    (
        File::Changed(&[(3072, 7)]),
        0,
        "finding 9 at 7\n",
        "",
        FOUND,
        1,
    ),
    // bit 0 of each map
    (
        File::Changed(&[(2048, 2)]),
        0,
        "finding 2 at 0\n",
        "",
        FOUND,
        1,
    ),
    (
        File::Changed(&[(3072, 2)]),
        0,
        "finding 3 at 0\n",
        "",
        FOUND,
        1,
    ),
    // the single and the double indirect block in zone 7, which names itself
    (
        File::Changed(&[(4148, 7), (7168, 7), (3072, 7)]),
        0,
        "finding 8 at 7\n",
        "",
        FOUND,
        1,
    ),
    (
        File::Changed(&[(4156, 7), (7168, 7), (3072, 7)]),
        0,
        "finding 8 at 7\n",
        "",
        FOUND,
        1,
    ),
    // the root has three links
    (
        File::Changed(&[(4098, 3)]),
        0,
        "finding 16 at 1\n",
        "if a removed file was open, mfs or mfs9p with --out mends it\n",
        LINKS,
        1,
    ),
    // partitions
    (File::Disk(0x81, 128), 1, "clean\n", "", CLEAN, 0),
    (File::Disk(0x81, 128), 2, "", "Partition\n", REFUSED, 1),
    (File::Disk(0x81, 128), 5, "", "Partition\n", REFUSED, 1),
    (File::Disk(0x81, 128), 255, "", "Partition\n", REFUSED, 1),
    (File::Disk(0x83, 128), 1, "", "Partition\n", REFUSED, 1),
    (
        File::Disk(0x81, 129),
        1,
        "",
        "Partition PastMedia\n",
        REFUSED,
        1,
    ),
    (File::Disk(0x81, 127), 1, "finding 1 at 6\n", "", FOUND, 1),
    // no volume
    (File::None, 0, "", "cannot read v.img\n", REFUSED, 1),
    (File::None, 1, "", "cannot read v.img\n", REFUSED, 1),
    (
        File::Short(65536),
        1,
        "",
        "Partition NoSignature\n",
        REFUSED,
        1,
    ),
    (
        File::Short(65536),
        5,
        "",
        "Partition NoSignature\n",
        REFUSED,
        1,
    ),
    (
        File::Bytes(b""),
        1,
        "",
        "Partition NoSignature\n",
        REFUSED,
        1,
    ),
    (
        File::Bytes(b"hello\n"),
        1,
        "",
        "Media NotWholeSectors\n",
        REFUSED,
        1,
    ),
];

/// Sets a byte of an image.
fn put(image: &mut Vec<u8>, at: usize, byte: u8) {
    if let Some(place) = image.get_mut(at) {
        *place = byte;
    }
}

/// The small volume with these bytes changed.
fn small(alloc: Global, changes: &[(usize, u8)]) -> Result<Vec<u8>, Fail> {
    let mut image = mkfs(alloc, 64, 1024, 32, 50)?;
    for (at, byte) in changes {
        put(&mut image, *at, *byte);
    }
    Ok(image)
}

/// The disk.
fn disk(alloc: Global, kind: u8, count: u8) -> Result<Vec<u8>, Fail> {
    let mut disk = vec![in alloc; 0u8; 512]?;
    for (at, byte) in [
        (450, kind),
        (454, 1),
        (458, count),
        (510, 0x55),
        (511, 0xaa),
    ] {
        put(&mut disk, at, byte);
    }
    disk.extend_from_slice(&small(alloc, &[])?)?;
    Ok(disk)
}

/// What the file holds.
fn bytes_of(alloc: Global, file: &File) -> Result<Option<Vec<u8>>, Fail> {
    let bytes = match file {
        File::None => return Ok(None),
        File::Bytes(bytes) => bytes.to_vec(alloc)?,
        File::New(blocks, size, inodes) => mkfs(alloc, *blocks, *size, *inodes, 50)?,
        File::Short(length) => {
            let mut image = small(alloc, &[])?;
            image.truncate(*length);
            image
        }
        File::Changed(changes) => small(alloc, changes)?,
        File::Disk(kind, count) => disk(alloc, *kind, *count)?,
    };
    Ok(Some(bytes))
}

/// What `verify` writes on standard output and on standard error, its answer, and the status.
type Said<'a> = (&'a str, &'a str, Verified, u8);

/// Looks at what was written and answered. (A function that owns nothing: elsewhere each comparison costs its proof some seconds more.)
fn is_said(rt: &impl Abort, out: &[u8], err: &[u8], verified: Verified, wanted: Said<'_>) {
    assert_eq!(rt; str::from_utf8(out).ok(), Some(wanted.0));
    assert_eq!(rt; str::from_utf8(err).ok(), Some(wanted.1));
    assert_eq!(rt; (verified, verified.number()), (wanted.2, wanted.3));
}

/// What `verify` answers on a file and a minor.
fn answer(
    alloc: Global,
    file: &File,
    minor: u8,
    out: &mut Writer,
    err: &mut Writer,
) -> Result<Verified, Fail> {
    let bytes = bytes_of(alloc, file)?;
    Ok(verify(alloc, "v.img", bytes.as_deref(), minor, out, err))
}

#[test]
fn volumes_are_verified(rt: HostRuntime) -> Result<(), Fail> {
    for (file, minor, out, err, verified, status) in &ROWS {
        let (mut written, mut told) = (taker(rt.alloc()), taker(rt.alloc()));
        let answer = answer(rt.alloc(), file, *minor, &mut written, &mut told)?;
        let wanted = (*out, *err, *verified, *status);
        is_said(&rt, &written.taken, &told.taken, answer, wanted);
    }
    Ok(())
}

/// More calls than any line takes.
const ALL: u32 = 100;

/// A file, how many calls each of both writers takes, what they hold then, the answer, and the status.
type Cut = (File, u32, u32, &'static str, &'static str, Verified, u8);

static CUTS: [Cut; 6] = [
    // The line has 6 bytes, so two calls take it.
    (
        File::Short(65536),
        0,
        ALL,
        "",
        "cannot write standard output\n",
        REFUSED,
        1,
    ),
    (
        File::Short(65536),
        1,
        ALL,
        "clea",
        "cannot write standard output\n",
        REFUSED,
        1,
    ),
    (File::Short(65536), 2, ALL, "clean\n", "", CLEAN, 0),
    // The line on standard error has 18 bytes, so five calls take it.
    (
        File::None,
        ALL,
        0,
        "",
        "",
        Verified::Refused(Told::Partly),
        1,
    ),
    (
        File::None,
        ALL,
        4,
        "",
        "cannot read v.im",
        Verified::Refused(Told::Partly),
        1,
    ),
    (File::None, ALL, 5, "", "cannot read v.img\n", REFUSED, 1),
];

#[test]
fn writers_fail(rt: HostRuntime) -> Result<(), Fail> {
    for (file, calls, more, out, err, verified, status) in &CUTS {
        let mut written = writer_of(rt.alloc(), *calls, 4);
        let mut told = writer_of(rt.alloc(), *more, 4);
        let answer = answer(rt.alloc(), file, 0, &mut written, &mut told)?;
        let wanted = (*out, *err, *verified, *status);
        is_said(&rt, &written.taken, &told.taken, answer, wanted);
    }
    Ok(())
}
