//! A version 2 volume of 64 blocks, what it becomes, and changes of both.

use std::alloc::{AllocError, Global};

/// Bytes at a place.
pub(crate) type Put = (usize, &'static [u8]);

/// Puts bytes at a place of an image.
fn put(image: &mut [u8], at: usize, bytes: &[u8]) {
    for (place, byte) in image.iter_mut().skip(at).zip(bytes) {
        *place = *byte;
    }
}

/// Puts bytes at several places.
pub(crate) fn change(image: &mut [u8], changes: &[Put]) {
    for (at, bytes) in changes {
        put(image, *at, bytes);
    }
}

/// What the old volume holds but for zeros. It has 64 blocks and 32 inodes: the inode map in block 2, the zone map in 3, the inodes in 4
/// and 5, data zones from 6 on. The root has ., .., a free entry and f, which is inode 2, a file of one byte in zone 7.
static OLD: [Put; 10] = [
    (
        1024,
        &[
            32, 0, 0, 0, 1, 0, 1, 0, 6, 0, 0, 0, 0xff, 0xff, 0xff, 0x7f, 0x68, 0x24, 1, 0, 64,
        ],
    ),
    (2048, &[7]),
    (3072, &[7]),
    (4096, &[0xed, 0x41, 2, 0, 0, 0, 0, 0, 64]),
    (4120, &[6]),
    (4160, &[0xa4, 0x81, 1, 0, 0, 0, 0, 0, 1]),
    (4184, &[7]),
    (
        6144,
        &[
            1, 0, b'.', 0, 0, 0, 0, 0, 0, 0, 0, 0, 0, 0, 0, 0, 1, 0, b'.', b'.',
        ],
    ),
    (6192, &[2, 0, b'f']),
    (7168, &[0x61]),
];

/// The old volume with some bytes changed.
pub(crate) fn old_volume(alloc: Global, changes: &[Put]) -> Result<Vec<u8>, AllocError> {
    let mut image = vec![in alloc; 0u8; 65536]?;
    change(&mut image, &OLD);
    change(&mut image, changes);
    Ok(image)
}

/// What a version 3 volume of 64 blocks and 32 inodes holds but for zeros, with the tree of the old one: the bits of both maps past the
/// last are set.
static NEW: [Put; 12] = [
    (1024, &[32, 0, 0, 0, 0, 0, 1, 0, 1, 0, 6]),
    (1040, &[0xff, 0xff, 0xff, 0x7f, 64, 0, 0, 0, 0x5a, 0x4d]),
    (1053, &[4]),
    (2048, &[7, 0, 0, 0, 0xfe]),
    (3072, &[7, 0, 0, 0, 0, 0, 0, 0xf8]),
    (4096, &[0xed, 0x41, 2, 0, 0, 0, 0, 0, 192]),
    (4120, &[6]),
    (4160, &[0xa4, 0x81, 1, 0, 0, 0, 0, 0, 1]),
    (4184, &[7]),
    (6144, &[1, 0, 0, 0, b'.']),
    (6208, &[1, 0, 0, 0, b'.', b'.']),
    (6272, &[2, 0, 0, 0, b'f']),
];

/// The new volume with some bytes changed.
pub(crate) fn new_volume(alloc: Global, changes: &[Put]) -> Result<Vec<u8>, AllocError> {
    let mut image = vec![in alloc; 0u8; 65536]?;
    for place in image.iter_mut().take(3072).skip(2053) {
        *place = 0xff;
    }
    for place in image.iter_mut().take(4096).skip(3080) {
        *place = 0xff;
    }
    change(&mut image, &NEW);
    change(&mut image, &[(7168, &[0x61])]);
    change(&mut image, changes);
    Ok(image)
}
