//! Images that were taken while removed files were open.

use crate::volumes::{Step, Volume, is_said};
use release::{release, start_on};
use std::alloc::Global;
use std::process::Abort;
use std::test::Fail;

/// The image of a volume while so many files are open that have no name, with a file and a directory beside, and the image that is left when
/// they are closed.
#[derive(Drop)]
struct Images {
    open: Vec<u8>,
    closed: Vec<u8>,
}

static BEFORE: [Step; 3] = [
    Step::Mkdir(b"/d"),
    Step::Fills(b"/kept", 9),
    Step::Link(b"/kept", b"/d/again"),
];

/// The descriptor of the first file.
const KEPT: u32 = 0;

static BEHIND: [Step; 2] = [Step::Fills(b"/later", 1), Step::Unlink(b"/kept")];

/// A volume before files lose their names.
fn begun(alloc: Global, block_size: u32) -> Result<Volume, Fail> {
    let mut volume = Volume::new(alloc, block_size)?;
    volume.does(&BEFORE)?;
    Ok(volume)
}

/// Files without a name of these many pieces, and what is done behind them: their descriptors.
fn orphans(alloc: Global, volume: &mut Volume, sizes: &[u32]) -> Result<Vec<u32>, Fail> {
    let mut descriptors = Vec::new(alloc);
    for pieces in sizes {
        descriptors.push(volume.orphan(b"/d/gone", *pieces)?)?;
    }
    volume.does(&BEHIND)?;
    Ok(descriptors)
}

/// Files without a name of these many pieces of 4096 bytes each. One more has two names, of which one is taken from it.
fn taken(alloc: Global, block_size: u32, sizes: &[u32]) -> Result<Images, Fail> {
    let mut volume = begun(alloc, block_size)?;
    let mut descriptors = orphans(alloc, &mut volume, sizes)?;
    descriptors.push(KEPT)?;
    let open = volume.image()?;
    volume.close(&descriptors)?;
    Ok(Images {
        open,
        closed: volume.image()?,
    })
}

/// The release of so many leaves this image. (A function that owns nothing: elsewhere each comparison costs its proof some seconds more.)
fn gives_back(
    rt: &(impl Abort + AllocGlobal),
    image: &mut [u8],
    minor: u8,
    many: u32,
    wanted: &[u8],
) {
    assert_eq!(rt; release(rt.alloc(), image, minor), Ok(many));
    assert!(rt; *image == *wanted);
}

/// What the check says of the image before, and of that which is left.
fn are_said(alloc: Global, open: &[u8], closed: &[u8]) -> Result<(), Fail> {
    is_said(alloc, open, "finding 16 at 4")?;
    is_said(alloc, closed, "clean")
}

/// The release of so many leaves the image that the closes leave, and another one nothing more.
fn look(rt: &(impl Abort + AllocGlobal), images: Images, many: u32) -> Result<(), Fail> {
    let Images { mut open, closed } = images;
    are_said(rt.alloc(), &open, &closed)?;
    gives_back(rt, &mut open, 0, many, &closed);
    gives_back(rt, &mut open, 0, 0, &closed);
    Ok(())
}

/// The bytes of a block, the files' pieces, and how many files are released: an empty one; one of seven zones; with an indirect block;
/// with the double one; several.
static FILES: [(u32, &[u32], u32); 6] = [
    (1024, &[0], 1),
    (1024, &[1], 1),
    (1024, &[2], 1),
    (1024, &[100], 1),
    (1024, &[70, 0, 3, 80], 4),
    (4096, &[12, 1], 2),
];

#[test]
fn as_if_they_were_closed(rt: HostRuntime) -> Result<(), Fail> {
    for (block_size, sizes, many) in &FILES {
        look(&rt, taken(rt.alloc(), *block_size, sizes)?, *many)?;
    }
    Ok(())
}

/// A sector of 512 bytes with a table: partition 1 is of type 0x81, and has 1800 sectors from sector 1 on.
fn table() -> [u8; 512] {
    let mut first = [0; 512];
    let entry = [0x81, 0, 0, 0, 1, 0, 0, 0, 8, 7, 0, 0];
    first[450..462].copy_from_slice(&entry);
    first[510] = 0x55;
    first[511] = 0xaa;
    first
}

/// A disk with a volume in its first partition, and a sector behind it.
fn disk(alloc: Global, volume: &[u8]) -> Result<Vec<u8>, Fail> {
    let mut disk = Vec::from_slice(alloc, &table())?;
    disk.extend_from_slice(volume)?;
    disk.extend_from_slice(&[0x5a; 512])?;
    Ok(disk)
}

/// In a partition, and nothing outside of it; no other minor has a volume.
#[test]
fn in_a_partition(rt: HostRuntime) -> Result<(), Fail> {
    let Images { open, closed } = taken(rt.alloc(), 1024, &[3, 1])?;
    let mut image = disk(rt.alloc(), &open)?;
    let before = disk(rt.alloc(), &open)?;
    let behind = disk(rt.alloc(), &closed)?;
    for minor in [0, 2, 4, 5] {
        gives_back(&rt, &mut image, minor, 0, &before);
    }
    gives_back(&rt, &mut image, 1, 2, &behind);
    Ok(())
}

/// On what a program starts, and all that was said.
fn is_started(rt: &impl Abort, image: Option<&[u8]>, wanted: Option<&[u8]>, err: &[u8]) {
    assert!(rt; image == wanted);
    assert!(rt; err == b"released 2 files without a name\n".as_slice());
}

/// What a program says of it, and on what it starts.
#[test]
fn programs_tell_it(rt: HostRuntime) -> Result<(), Fail> {
    let Images { open, closed } = taken(rt.alloc(), 1024, &[3, 1])?;
    let mut err = Vec::new(rt.alloc());
    let mut image = Some(open);
    for _ in 0..2 {
        image = start_on(rt.alloc(), image, 0, &mut err);
        is_started(&rt, image.as_deref(), Some(&closed), &err);
    }
    let none = start_on(rt.alloc(), None, 0, &mut err);
    is_started(&rt, none.as_deref(), None, &err);
    Ok(())
}
