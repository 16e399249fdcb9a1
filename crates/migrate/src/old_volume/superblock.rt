//! The superblock of a version 2 volume.

ghost use Rattle.std.specs.Prelude.{◌≡◌, ◌<◌};
ghost use Rattle.layout.specs.Places.{counts_agree};
ghost use Rattle.migrate.specs.Superblock.{old_geometry_of, old_refusal_number};

use layout::{Geometry, u16_at, u32_at};
use thiserror::Error;

/// Why an image is refused as a version 2 volume: the first of these that holds, in this order.
#[derive(Clone, Copy, Debug, Drop, Error, PartialEq, Eq)]
pub enum OldRefusal {
    /// The image has under 1048 bytes, so it has no whole superblock.
    #[error("Truncated")]
    Truncated,
    /// The u16 at byte 1040 isn't 0x2468, the magic number of version 2 with names of 14 bytes.
    #[error("BadMagic")]
    BadMagic,
    /// The logarithm of blocks per zone, the u16 at byte 1034, isn't 0.
    #[error("BadZoneSize")]
    BadZoneSize,
    /// A field is out of its range, a map has too few bits, the data zones don't begin where the inode table ends, or there is none.
    #[error("BadCounts")]
    BadCounts,
    /// The image has fewer bytes than its zones take.
    #[error("DoesNotFit")]
    DoesNotFit,
}

impl OldRefusal {
    /// The refusal's place in their order, 1 to 5.
    pub fn number(&self) -> u32
        ensures { result ≡ old_refusal_number self.now }
    {
        match self {
            OldRefusal::Truncated => 1,
            OldRefusal::BadMagic => 2,
            OldRefusal::BadZoneSize => 3,
            OldRefusal::BadCounts => 4,
            OldRefusal::DoesNotFit => 5,
        }
    }
}

/// How many bytes a block of a version 2 volume has.
const BLOCK: u32 = 1024;

/// The sizes of the version 2 volume that the image begins with, or why it is refused. Only the superblock and the image's length are
/// looked at, and of the superblock neither the old count of zones, nor the greatest size, nor the state.
pub fn parse(image: &[u8]) -> Result<Geometry, OldRefusal>
    ensures { result ≡ old_geometry_of image.now }
{
    if image.len() < 1048 {
        return Err(OldRefusal::Truncated);
    }
    if u16_at(image, 1040) != 0x2468 {
        return Err(OldRefusal::BadMagic);
    }
    if u16_at(image, 1034) != 0 {
        return Err(OldRefusal::BadZoneSize);
    }
    let geometry = Geometry {
        block_size: BLOCK,
        inodes: u32::from(u16_at(image, 1024)),
        zones: u32_at(image, 1044),
        inode_map_blocks: u32::from(u16_at(image, 1028)),
        zone_map_blocks: u32::from(u16_at(image, 1030)),
        first_zone: u32::from(u16_at(image, 1032)),
    };
    if !counts_agree(&geometry) {
        return Err(OldRefusal::BadCounts);
    }
    if image.len() < BLOCK as usize * geometry.zones as usize {
        return Err(OldRefusal::DoesNotFit);
    }
    Ok(geometry)
}

/// Whether the counts are in their ranges and agree with one another.
fn counts_agree(geometry: &Geometry) -> bool
    requires blocks { geometry.now.block_size ≡ 1024 }
    requires inodes { geometry.now.inodes < 65536 }
    requires inode_map { geometry.now.inode_map_blocks < 65536 }
    requires zone_map { geometry.now.zone_map_blocks < 65536 }
    ensures { result ≡ counts_agree geometry.now }
{
    1 <= geometry.inodes
        && geometry.zones <= 65536
        && geometry.first_zone < geometry.zones
        && geometry.first_zone
            == 2 + geometry.inode_map_blocks
                + geometry.zone_map_blocks
                + (64 * geometry.inodes + BLOCK - 1) / BLOCK
        && geometry.inodes + 1 <= 8 * BLOCK * geometry.inode_map_blocks
        && geometry.zones - geometry.first_zone + 1 <= 8 * BLOCK * geometry.zone_map_blocks
}
