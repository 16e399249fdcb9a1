//! A version 2 volume with version 3's superblock.

ghost use Rattle.std.specs.Prelude.{◌≡◌, Ok, IfOk};
ghost use Rattle.migrate.specs.Superblock.{old_geometry_of};
ghost use Rattle.migrate.specs.Stamped.{IsStamped};

use layout::Geometry;
use std::alloc::{AllocError, Global};

/// The blocks of the version 2 volume of these sizes with which the image begins, with version 3's superblock in the place of its own: read
/// as a version 3 volume, its maps, inodes and zones are the same.
pub fn stamped(alloc: Global, geometry: &Geometry, image: &[u8]) -> Result<Vec<u8>, AllocError>
    requires { old_geometry_of image.now ≡ Ok geometry.now }
    ensures { IfOk result (λ bytes. IsStamped geometry.now image.now bytes.items) }
{
    let size = geometry.zones as usize * geometry.block_size as usize;
    let mut blocks = Vec::with_capacity(alloc, size)?;
    blocks.extend_from_slice(&image[..size])?;
    geometry.write(&mut blocks);
    Ok(blocks)
}
