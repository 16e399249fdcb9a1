//! Volumes in memory.

ghost use Rattle.std.specs.Prelude.{IfOk};
ghost use Rattle.layout.specs.Places.{IsGeometry};

use crate::volumes::Volume;
use layout::{Geometry, LayoutRefusal};
use std::alloc::{AllocError, Global};
use std::test::Fail;

/// Bytes at a place of an image.
pub type Part = (usize, &'static [u8]);

/// How large a volume of 64 blocks with 32 inodes is.
#[derive(Clone, Copy)]
pub struct Size {
    /// The bytes of its image.
    length: usize,
    /// Where its data zones begin.
    zones: usize,
    /// Its superblock: 32 inodes, both maps of one block, the first zone, 64 zones, and the bytes of a block.
    superblock: &'static [u8],
}

/// With blocks of 1024 bytes: 58 data zones, from 6 on.
pub const SMALL: Size = Size {
    length: 65536,
    zones: 6144,
    superblock: b"\x20\0\0\0\0\0\x01\0\x01\0\x06\0\0\0\0\0\xff\xff\xff\x7f\x40\0\0\0\x5a\x4d\0\0\0\x04\0",
};

/// With blocks of 2048 bytes: the table takes one block, so there is a data zone more.
pub const MIDDLE: Size = Size {
    length: 131072,
    zones: 10240,
    superblock: b"\x20\0\0\0\0\0\x01\0\x01\0\x05\0\0\0\0\0\xff\xff\xff\x7f\x40\0\0\0\x5a\x4d\0\0\0\x08\0",
};

/// And with blocks of 4096 bytes.
pub const LARGE: Size = Size {
    length: 262144,
    zones: 20480,
    superblock: b"\x20\0\0\0\0\0\x01\0\x01\0\x05\0\0\0\0\0\xff\xff\xff\x7f\x40\0\0\0\x5a\x4d\0\0\0\x10\0",
};

/// A volume of blocks of 1024 bytes whose inode 1 is an empty file. Number 0 is in both maps, inode 1 in the inode map.
pub static EMPTY: [Part; 3] = [(2048, &[3]), (3072, &[1]), (4096, &[0xa4, 0x81, 1, 0])];

/// The same with blocks of 2048 bytes.
pub static EMPTY_MIDDLE: [Part; 3] = [(4096, &[3]), (6144, &[1]), (8192, &[0xa4, 0x81, 1, 0])];

/// And with blocks of 4096 bytes.
pub static EMPTY_LARGE: [Part; 3] = [(8192, &[3]), (12288, &[1]), (16384, &[0xa4, 0x81, 1, 0])];

/// A volume of blocks of 1024 bytes whose inode 1 is a file of the greatest size without a zone.
pub static HOLE: [Part; 3] = [
    (2048, &[3]),
    (3072, &[1]),
    (
        4096,
        &[0xa4, 0x81, 1, 0, 0, 0, 0, 0, 0xff, 0xff, 0xff, 0x7f],
    ),
];

/// The same with blocks of 2048 bytes.
pub static HOLE_MIDDLE: [Part; 3] = [
    (4096, &[3]),
    (6144, &[1]),
    (
        8192,
        &[0xa4, 0x81, 1, 0, 0, 0, 0, 0, 0xff, 0xff, 0xff, 0x7f],
    ),
];

/// And with blocks of 4096 bytes.
pub static HOLE_LARGE: [Part; 3] = [
    (8192, &[3]),
    (12288, &[1]),
    (
        16384,
        &[0xa4, 0x81, 1, 0, 0, 0, 0, 0, 0xff, 0xff, 0xff, 0x7f],
    ),
];

/// A page, and how many zones it takes and gives back, where blocks have 1024 bytes.
pub static SMALL_PAGES: [(u32, u32); 8] = [
    (0, 1),
    (6, 1),
    (7, 2),
    (262, 2),
    (263, 3),
    (65798, 3),
    (65799, 4),
    (2097151, 4),
];

/// The same of 2048 bytes.
pub static MIDDLE_PAGES: [(u32, u32); 7] = [
    (6, 1),
    (7, 2),
    (518, 2),
    (519, 3),
    (262662, 3),
    (262663, 4),
    (1048575, 4),
];

/// Puts bytes at a place of an image.
pub fn put(image: &mut [u8], from: usize, bytes: &[u8]) {
    for (place, byte) in image.iter_mut().skip(from).zip(bytes) {
        *place = *byte;
    }
}

/// An image of this size with its superblock and these parts. Each other byte of its data zones is 0x5a, as if other files had lain there,
/// and each other one before them 0.
pub fn image(alloc: Global, size: Size, parts: &[Part]) -> Result<Vec<u8>, AllocError> {
    let mut image = vec![in alloc; 0u8; size.zones]?;
    image.resize(size.length, 0x5a)?;
    put(&mut image, 1024, size.superblock);
    for (from, bytes) in parts {
        put(&mut image, *from, bytes);
    }
    Ok(image)
}

/// The sizes that an image's superblock has.
pub fn sizes(image: &[u8]) -> Result<Geometry, LayoutRefusal>
    ensures { IfOk result (λ geometry. IsGeometry geometry) }
{
    match Geometry::parse(image) {
        Ok(geometry) => Ok(geometry),
        Err(refusal) => Err(refusal),
    }
}

/// The volume in memory of this size with these parts.
pub fn volume(alloc: Global, size: Size, parts: &[Part]) -> Result<Volume, Fail> {
    let image = image(alloc, size, parts)?;
    let geometry = sizes(&image)?;
    Ok(Volume::new(geometry, image))
}
