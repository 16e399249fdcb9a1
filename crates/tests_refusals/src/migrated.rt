//! The migration of a version 2 volume: the same image, or the refusal that says that no memory was found, and that only where a request
//! was refused.

use crate::trials::{Trial, each_refused};
use migrate::{MigrateRefusal, migrate};
use std::alloc::{AllocError, Global};
use std::test::Fail;

/// What an old volume of 64 blocks and 32 inodes holds but for zeros: the inode map in block 2, the zone map in 3, the inodes in 4 and 5,
/// data zones from 6 on. The root has ., .. and f, which is inode 2, a file of holes but for its page 263: the double indirect block in
/// zone 9 leads to it, by zone 8.
static OLD: [(usize, &[u8]); 11] = [
    (
        1024,
        &[
            32, 0, 0, 0, 1, 0, 1, 0, 6, 0, 0, 0, 0xff, 0xff, 0xff, 0x7f, 0x68, 0x24, 1, 0, 64,
        ],
    ),
    (2048, &[7]),
    (3072, &[31]),
    (4096, &[0xed, 0x41, 2, 0, 0, 0, 0, 0, 48]),
    (4120, &[6]),
    (4160, &[0xa4, 0x81, 1, 0, 0, 0, 0, 0, 1, 28, 4]),
    (4216, &[9]),
    (
        6144,
        &[
            1, 0, b'.', 0, 0, 0, 0, 0, 0, 0, 0, 0, 0, 0, 0, 0, 1, 0, b'.', b'.',
        ],
    ),
    (6176, &[2, 0, b'f']),
    (8192, &[7]),
    (9216, &[8]),
];

/// Its image.
fn old_volume(alloc: Global) -> Result<Vec<u8>, AllocError> {
    let mut image = vec![in alloc; 0u8; 65536]?;
    for (at, bytes) in &OLD {
        for (place, byte) in image.iter_mut().skip(*at).zip(*bytes) {
            *place = *byte;
        }
    }
    Ok(image)
}

/// An old volume, and the image of 64 blocks that it becomes with memory.
#[derive(Drop)]
struct Migrate {
    old: Vec<u8>,
    new: Vec<u8>,
}

impl Trial for Migrate {
    type Came = Result<Vec<u8>, MigrateRefusal>;

    fn run(&self, alloc: Global) -> Result<Vec<u8>, MigrateRefusal> {
        migrate(alloc, &self.old, 64)
    }

    fn is_right(
        &self,
        _alloc: Global,
        came: &Result<Vec<u8>, MigrateRefusal>,
        refused: bool,
    ) -> Result<bool, AllocError> {
        Ok(match came {
            Ok(image) => image.as_slice() == self.new.as_slice(),
            Err(refusal) => refused && *refusal == MigrateRefusal::OutOfMemory,
        })
    }
}

#[test]
fn migrations(rt: HostRuntime) -> Result<(), Fail> {
    let alloc = rt.alloc();
    let old = old_volume(alloc)?;
    let Ok(new) = migrate(alloc, &old, 64) else {
        return Err(Fail::from("not migrated"));
    };
    each_refused(alloc, 25, &Migrate { old, new })
}
