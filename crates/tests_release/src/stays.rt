//! Images that stay as they are.

use crate::volumes::{Step, Volume, is_said};
use release::release;
use std::alloc::Global;
use std::process::Abort;
use std::test::Fail;

static STEPS: [Step; 4] = [
    Step::Fills(b"/f", 1),
    Step::Mkdir(b"/x"),
    Step::Symlink(b"f", b"/l"),
    Step::Fills(b"/open", 3),
];

static UNNAMED: [Step; 1] = [Step::Unlink(b"/open")];

static DIRECTORY: [Step; 1] = [Step::Mkdir(b"/y")];

/// An image of a volume with a file `/f` (inode 2), an empty directory `/x` (3) and a link `/l` (4); besides them stands a file (5) that is
/// open. Then these steps are done.
fn volume(alloc: Global, steps: &[&[Step]]) -> Result<Vec<u8>, Fail> {
    let mut volume = Volume::new(alloc, 1024)?;
    volume.does(&STEPS)?;
    for some in steps {
        volume.does(some)?;
    }
    volume.image()
}

/// Bytes from a place on in an image of that volume. Its inode table begins at byte 4096, and each inode has 64 bytes.
type Change = (usize, &'static [u8]);

/// An image with other bytes at these places.
fn with_bytes(mut image: Vec<u8>, changes: &[Change]) -> Vec<u8> {
    for (from, bytes) in changes {
        for (place, byte) in image.iter_mut().skip(*from).zip(bytes.iter()) {
            *place = *byte;
        }
    }
    image
}

/// The links of the root, its entry of the directory, and the directory's own links.
const LOST: &[Change] = &[(4098, &[3]), (4104, &[64, 1]), (4418, &[0])];

/// An image.
enum Image {
    /// The open file has a name.
    Named,
    /// It has none, and other bytes stand at these places.
    Changed(&'static [Change]),
    /// The same, and one more directory (6), whose name is gone from the root, and its link there: it has 0 links, and holds `.` and `..`.
    LostDirectory,
    /// That of the file without a name, and a byte more.
    Longer,
    /// So many zeros.
    Zeros(usize),
}

/// The bytes of an image.
fn image_of(alloc: Global, image: &Image) -> Result<Vec<u8>, Fail> {
    match image {
        Image::Named => volume(alloc, &[]),
        Image::Changed(changes) => Ok(with_bytes(volume(alloc, &[&UNNAMED])?, changes)),
        Image::LostDirectory => Ok(with_bytes(volume(alloc, &[&UNNAMED, &DIRECTORY])?, LOST)),
        Image::Longer => {
            let mut image = volume(alloc, &[&UNNAMED])?;
            image.push(0)?;
            Ok(image)
        }
        Image::Zeros(length) => Ok(vec![in alloc; 0u8; *length]?),
    }
}

/// An image, and what the check says of it.
type Row = (Image, &'static str);

/// Nothing is released, and each byte stays.
fn stays(rt: &(impl Abort + AllocGlobal), image: &mut [u8], before: &[u8]) {
    assert_eq!(rt; release(rt.alloc(), image, 0), Ok(0));
    assert!(rt; *image == *before);
}

/// So it is of each of these.
fn look(rt: &(impl Abort + AllocGlobal), rows: &[Row]) -> Result<(), Fail> {
    for (image, wanted) in rows {
        let mut image = image_of(rt.alloc(), image)?;
        is_said(rt.alloc(), &image, wanted)?;
        let before = Vec::from_slice(rt.alloc(), &image)?;
        stays(rt, &mut image, &before);
    }
    Ok(())
}

/// Findings that stand before that of the links: bit 0 of the zone map; a mode of no type, of the file without a name and of `/f`; a
/// directory without a link, which no name leads to.
static EARLIER: [Row; 4] = [
    (Image::Changed(&[(3072, &[0xfe])]), "finding 3 at 0"),
    (Image::Changed(&[(4353, &[0x11])]), "finding 5 at 5"),
    (Image::Changed(&[(4161, &[0x11])]), "finding 5 at 2"),
    (Image::LostDirectory, "finding 15 at 6"),
];

#[test]
fn earlier_findings(rt: HostRuntime) -> Result<(), Fail> {
    look(&rt, &EARLIER)
}

/// Wrong links of nodes that have a name, with 0 links and with more; a link (in zone 13) whose target is a zero
/// byte, which is finding 17.
static OTHERS: [Row; 3] = [
    (Image::Changed(&[(4162, &[0])]), "finding 16 at 2"),
    (Image::Changed(&[(4162, &[2])]), "finding 16 at 2"),
    (Image::Changed(&[(13312, &[0])]), "finding 16 at 5"),
];

#[test]
fn other_links_and_later_findings(rt: HostRuntime) -> Result<(), Fail> {
    look(&rt, &OTHERS)
}

/// A clean image: the open file has a name. None of a volume: no whole sectors.
static CLEAN: [Row; 4] = [
    (Image::Named, "clean"),
    (Image::Longer, "finding 16 at 5"),
    (Image::Zeros(512), "finding 1 at 1"),
    (Image::Zeros(0), "finding 1 at 1"),
];

#[test]
fn clean_images_and_none(rt: HostRuntime) -> Result<(), Fail> {
    look(&rt, &CLEAN)
}
