//! Volumes of 64 blocks of 1024 bytes with 32 inodes. The maps begin at bytes 2048 and 3072, the inode table at 4096, zone 6 at 6144.

ghost use Rattle.std.specs.Prelude.{IfOk};
ghost use Rattle.layout.specs.Places.{IsGeometry};

use crate::volumes::Volume;
use layout::{Geometry, LayoutRefusal};
use std::alloc::Global;
use std::test::Fail;

/// Bytes at a place of an image.
pub(crate) type Part<'a> = (usize, &'a [u8]);

/// What an image has.
pub(crate) struct Image {
    /// Its parts; each other byte is 0.
    parts: &'static [Part<'static>],
    /// From here on each other byte is 0x5a.
    filled: usize,
    /// It ends here.
    length: usize,
}

/// The superblock: 32 inodes, both maps of one block, the first zone is 6, 64 zones, blocks of 1024 bytes.
const SUPERBLOCK: [u8; 31] = [
    32, 0, 0, 0, 0, 0, 1, 0, 1, 0, 6, 0, 0, 0, 0, 0, 0xff, 0xff, 0xff, 0x7f, 64, 0, 0, 0, 0x5a,
    0x4d, 0, 0, 0, 4, 0,
];

/// The root, inode 1, has the entries `.` and `..` in zone 6, with times 50. The other zones are full of 0x5a.
pub(crate) static ROOT_ALONE: Image = Image {
    parts: &[
        (1024, &SUPERBLOCK),
        (2048, &[3]),
        (3072, &[3]),
        (
            4096,
            &[
                0xed, 0x41, 2, 0, 0, 0, 0, 0, 128, 0, 0, 0, 50, 0, 0, 0, 50, 0, 0, 0, 50,
            ],
        ),
        (4120, &[6]),
        (6144, &[1, 0, 0, 0, b'.']),
        (6208, &[1, 0, 0, 0, b'.', b'.']),
    ],
    filled: 7168,
    length: 65536,
};

/// There are `/d` (inode 2, of user 5 and group 7, with permissions 755), `/d/e` (inode 4), `/f` (inode 3, a file), `/n` (inode 99, which
/// the volume hasn't) and `/s` (inode 5, a directory of one entry). The entries of inodes 1, 2, 4 and 5 stand in zones 6 to 9.
const TREE_PARTS: [Part<'static>; 28] = [
    (1024, &SUPERBLOCK),
    // inodes: mode, links, user, group, size; the first zone's number 24 bytes behind
    (4096, &[0xed, 0x41, 4, 0, 0, 0, 0, 0, 128, 1]),
    (4120, &[6]),
    (4160, &[0xed, 0x41]),
    (4162, &[3, 0, 5, 0, 7, 0, 192]),
    (4184, &[7]),
    (4224, &[0xa4, 0x81, 1]),
    (4288, &[0xed, 0x41, 2, 0, 0, 0, 0, 0, 128]),
    (4312, &[8]),
    (4352, &[0xed, 0x41, 2, 0, 0, 0, 0, 0, 64]),
    (4376, &[9]),
    // entries: an inode number, and behind it the name
    (6144, &[1, 0, 0, 0, b'.']),
    (6208, &[1, 0, 0, 0, b'.', b'.']),
    (6272, &[2, 0, 0, 0, b'd']),
    (6336, &[3, 0, 0, 0, b'f']),
    (6400, &[99, 0, 0, 0, b'n']),
    (6464, &[5, 0, 0, 0, b's']),
    (7168, &[2, 0, 0, 0, b'.']),
    (7232, &[1, 0, 0, 0, b'.', b'.']),
    (7296, &[4, 0, 0, 0, b'e']),
    (8192, &[4, 0, 0, 0, b'.']),
    (8256, &[2, 0, 0, 0, b'.', b'.']),
    (9216, &[5, 0, 0, 0, b'.']),
    // the maps, of which a walk reads no more than its start's bit
    (2048, &[0x3f]),
    (3072, &[0x1f]),
    // behind the entries of /s
    (9280, &[3, 0, 0, 0, b'.', b'.']),
    (9344, &[3, 0, 0, 0, b'f']),
    (9408, &[3, 0, 0, 0, b'g']),
];

/// The volume with these directories.
pub(crate) static TREE: Image = Image {
    parts: &TREE_PARTS,
    filled: 65536,
    length: 65536,
};

/// The root has eighteen entries: in zone 6, which its first page is, `/f` (inode 3, a file) and `/g` (inode 4, a file); and two empty ones
/// in the last zone, which a search reads first.
pub(crate) static TWO_PAGES: Image = Image {
    parts: &[
        (1024, &SUPERBLOCK),
        (4096, &[0xed, 0x41, 2, 0, 0, 0, 0, 0, 0x80, 4]),
        (4120, &[6, 0, 0, 0, 63]),
        (4224, &[0xa4, 0x81, 1]),
        (4288, &[0xa4, 0x81, 1]),
        (6144, &[1, 0, 0, 0, b'.']),
        (6208, &[1, 0, 0, 0, b'.', b'.']),
        (6272, &[3, 0, 0, 0, b'f']),
        (6336, &[4, 0, 0, 0, b'g']),
    ],
    filled: 65536,
    length: 65536,
};

/// Where the last zone begins.
pub(crate) const LAST_ZONE: usize = 64512;

/// The same as `TREE`, but the image ends behind the root's entries.
pub(crate) static CUT_TREE: Image = Image {
    parts: &TREE_PARTS,
    filled: 65536,
    length: 7168,
};

/// Sets bytes from a place on.
fn put_bytes(image: &mut Vec<u8>, from: usize, bytes: &[u8]) {
    for (place, byte) in image.iter_mut().skip(from).zip(bytes.iter()) {
        *place = *byte;
    }
}

/// The sizes that an image's superblock has.
fn sizes(image: &[u8]) -> Result<Geometry, LayoutRefusal>
    ensures { IfOk result (λ geometry. IsGeometry geometry) }
{
    match Geometry::parse(image) {
        Ok(geometry) => Ok(geometry),
        Err(refusal) => Err(refusal),
    }
}

/// The volume of an image, in which these bytes are others.
pub(crate) fn volume(alloc: Global, image: &Image, others: &[Part]) -> Result<Volume, Fail> {
    let mut bytes = vec![in alloc; 0u8; image.filled]?;
    bytes.resize(65536, 0x5a)?;
    for (from, part) in image.parts {
        put_bytes(&mut bytes, *from, part);
    }
    for (from, part) in others {
        put_bytes(&mut bytes, *from, part);
    }
    let geometry = sizes(&bytes)?;
    bytes.truncate(image.length);
    Ok(Volume::new(alloc, geometry, bytes))
}
