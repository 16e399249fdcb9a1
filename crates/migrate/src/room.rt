//! The beginning of a new volume, where it has room for an old one's tree.

ghost use Rattle.std.specs.Prelude.{◌≡◌, ◌≤◌, Ok, IfOk, IfErr, true};
ghost use Rattle.layout.specs.Places.{IsGeometry};
ghost use Rattle.tree.specs.Space.{data_zones};
ghost use Rattle.image.specs.Contents.{contents};
ghost use Rattle.new_volume.specs.Sizes.{sizes_of};
ghost use Rattle.fsck.specs.Form.{version_2};
ghost use Rattle.fsck.specs.Nodes.{nodes_of};
ghost use Rattle.migrate.specs.Holds.{IsSound};
ghost use Rattle.migrate.specs.Used.{SizesAreGood, has_room, zones_of_all};
ghost use Rattle.migrate.specs.Migrated.{IsCramped};
ghost use Rattle.migrate.specs.Tables.{IsBegun};

use crate::refusal::MigrateRefusal;
use crate::used::zones_used;
use crate::volume_blocks::{BLOCK, VolumeBlocks};
use new_volume::{MkfsRefusal, NewVolume, mkfs_front};
use std::alloc::Global;

/// A new volume of so many blocks with the old one's number of inodes: its sizes, and its tables. Refused where it has fewer data zones
/// than the old one's tree uses, or none.
pub(crate) fn empty_volume(
    alloc: Global,
    old: &VolumeBlocks,
    blocks: u32,
) -> Result<NewVolume, MigrateRefusal>
    requires sound { IsSound version_2 old.now.image.geometry (contents old.now.image) }
    requires good { SizesAreGood old.now.image }
    requires blocks { blocks ≤ 65536 }
    ensures sizes { IfOk result (λ empty. sizes_of blocks 1024 old.now.image.geometry.inodes ≡ Ok empty.volume) }
    ensures geometry { IfOk result (λ empty. IsGeometry empty.volume) }
    ensures begun { IfOk result (λ empty. IsBegun empty.volume empty.front.items) }
    ensures room { IfOk result (λ _. has_room old.now.image.geometry (contents old.now.image) blocks ≡ true) }
    ensures fits { IfOk result (λ empty. zones_of_all old.now.image.geometry
        (nodes_of version_2 old.now.image.geometry (contents old.now.image)) ≤ data_zones empty.volume) }
    ensures refused { IfErr result (IsCramped old.now.image.geometry (contents old.now.image) blocks) }
{
    let inodes = old.image.geometry().inodes;
    let empty = match mkfs_front(alloc, blocks, BLOCK as u32, inodes, 0, 0, 0) {
        Ok(empty) => empty,
        Err(MkfsRefusal::TooFewBlocks) => return Err(MigrateRefusal::DoesNotFit),
        // No other size is refused here: blocks have 1024 bytes, and the inodes and the blocks are in their ranges.
        Err(_) => return Err(MigrateRefusal::OutOfMemory),
    };
    let zones = empty.volume.zones - empty.volume.first_zone;
    if zones_used(old) > zones as usize {
        return Err(MigrateRefusal::DoesNotFit);
    }
    Ok(empty)
}
