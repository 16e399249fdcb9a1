//! The sizes of volumes of 32 inodes and so many blocks, at most 4096, and where a block begins.

ghost use Rattle.std.specs.Prelude.{◌≤◌, ◌<◌};
ghost use Rattle.layout.specs.Places.{IsGeometry};

use layout::Geometry;

/// The first byte of a block.
pub fn place_of(geometry: &Geometry, block: u32) -> usize {
    (block as usize).saturating_mul(geometry.block_size as usize)
}

/// A volume of so many blocks of 1024 bytes, more than 6.
pub fn small_blocks(zones: u32) -> Geometry
    requires some { 6 < zones }
    requires most { zones ≤ 4096 }
    ensures { IsGeometry result }
{
    Geometry {
        block_size: 1024,
        inodes: 32,
        zones,
        inode_map_blocks: 1,
        zone_map_blocks: 1,
        first_zone: 6,
    }
}

/// A volume of so many blocks of 2048 bytes, more than 5.
pub fn middle_blocks(zones: u32) -> Geometry
    requires some { 5 < zones }
    requires most { zones ≤ 4096 }
    ensures { IsGeometry result }
{
    Geometry {
        block_size: 2048,
        inodes: 32,
        zones,
        inode_map_blocks: 1,
        zone_map_blocks: 1,
        first_zone: 5,
    }
}

/// A volume of so many blocks of 4096 bytes, more than 5.
pub fn large_blocks(zones: u32) -> Geometry
    requires some { 5 < zones }
    requires most { zones ≤ 4096 }
    ensures { IsGeometry result }
{
    Geometry {
        block_size: 4096,
        inodes: 32,
        zones,
        inode_map_blocks: 1,
        zone_map_blocks: 1,
        first_zone: 5,
    }
}
