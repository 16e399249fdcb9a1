//! Migration: a version 2 volume's tree in a new version 3 volume.
#![tactic(auto)]

pub mod convert;
mod directory;
mod moving;
mod new_zones;
pub mod old_volume;
mod refusal;
mod room;
mod used;
mod volume_blocks;
mod write;

ghost use Rattle.std.specs.Prelude.{◌<◌, All, IfOk, IfErr};
ghost use Rattle.migrate.specs.Migrated.{IsMigrated, IsRefused};

use crate::old_volume::{finding, parse, stamped};
pub use refusal::MigrateRefusal;
use room::empty_volume;
use std::alloc::Global;
use volume_blocks::VolumeBlocks;
use write::written;

/// The most blocks that a volume has.
const MOST_BLOCKS: u32 = 65536;

/// The image of a version 3 volume of so many blocks of 1024 bytes, which holds the tree of the version 2 volume in `old`: the same inode
/// numbers, names, attributes, bytes and held pages. It has as many inodes as the old one.
///
/// Refused for the first of `MigrateRefusal` that holds; no memory may be found at any time.
pub fn migrate(alloc: Global, old: &[u8], blocks: u32) -> Result<Vec<u8>, MigrateRefusal>
    ensures migrated { IfOk result (λ image. IsMigrated old.now blocks image.items) }
    ensures refused { IfErr result (IsRefused old.now blocks) }
{
    let geometry = match parse(old) {
        Ok(geometry) => geometry,
        Err(refusal) => return Err(MigrateRefusal::OldLayout(refusal)),
    };
    let old_blocks = stamped(alloc, &geometry, old)?;
    let volume = match VolumeBlocks::of(&old_blocks) {
        Some(volume) => volume,
        None => unreachable!(),
    };
    if let Some(found) = finding(alloc, &volume.image)? {
        return Err(MigrateRefusal::Found(found));
    }
    if blocks > MOST_BLOCKS {
        return Err(MigrateRefusal::TooManyBlocks);
    }
    let empty = empty_volume(alloc, &volume, blocks)?;
    let image = written(alloc, &volume, empty)?;
    are_bytes(&image);
    Ok(image)
}

/// Each byte is below 256. This does nothing: its contract says what the type of bytes says.
fn are_bytes(bytes: &[u8])
    ensures { All (λ b. b < 256) bytes.now }
{}
