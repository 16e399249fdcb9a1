//! A directory of 1000 names, in blocks in memory.

ghost use Rattle.std.specs.Prelude.{◌≡◌};
ghost use Rattle.layout.specs.Places.{IsGeometry};

use crate::bench_names::scans::{NAMES, name_of};
use crate::sizes::place_of;
use block_store::memory::Memory;
use layout::Geometry;
use std::alloc::{AllocError, Global};
use volume::Inode;

/// A directory, its zones one after the other from the first data zone on, and behind them its single indirect block.
#[derive(Drop)]
pub(crate) struct Directory {
    pub(crate) blocks: Memory,
    pub(crate) geometry: Geometry,
    pub(crate) inode: Inode,
    ghost sizes: { IsGeometry geometry },
    ghost same: { blocks.block_size ≡ geometry.block_size },
}

/// Puts bytes at a place of the image.
pub(crate) fn put(image: &mut Vec<u8>, at: usize, bytes: &[u8]) {
    let end = at.saturating_add(bytes.len());
    if end <= image.len() && end - at == bytes.len() {
        image[at..end].copy_from_slice(bytes);
    }
}

/// The size of the directory, in bytes.
pub(crate) const SIZE: u32 = 64 * (NAMES + 2);

/// The image of a volume with the directory's entries, and its indirect block, which the zone of a number is.
fn image_of(alloc: Global, geometry: &Geometry, indirect: u32) -> Result<Vec<u8>, AllocError> {
    let size = geometry.block_size as usize;
    let mut image = vec![in alloc; 0u8; size.saturating_mul(geometry.zones as usize)]?;
    let first = place_of(geometry, geometry.first_zone);
    for number in 0..NAMES {
        let at = first.saturating_add(64 * (number as usize + 2));
        put(&mut image, at, &[2]);
        put(&mut image, at.saturating_add(4), &name_of(number));
    }
    let numbers = place_of(geometry, indirect);
    for page in 7u32..64 {
        let zone = geometry.first_zone.saturating_add(page);
        let at = numbers.saturating_add(4 * (page as usize - 7));
        put(&mut image, at, &zone.to_le_bytes());
    }
    Ok(image)
}

impl Directory {
    /// The directory on a volume of these sizes.
    pub(crate) fn new(alloc: Global, geometry: Geometry) -> Result<Directory, AllocError>
        requires { IsGeometry geometry }
    {
        let first = geometry.first_zone;
        let indirect = first.saturating_add(63);
        let image = image_of(alloc, &geometry, indirect)?;
        let page = |k: u32| first.saturating_add(k);
        let inode = Inode {
            mode: 0o40755,
            links: 2,
            uid: 0,
            gid: 0,
            size: SIZE,
            atime: 0,
            mtime: 0,
            ctime: 0,
            zones: [
                page(0),
                page(1),
                page(2),
                page(3),
                page(4),
                page(5),
                page(6),
                indirect,
                0,
                0,
            ],
        };
        Ok(Directory {
            blocks: Memory::new(geometry.block_size, image),
            geometry,
            inode,
        })
    }

    /// The bytes of all its entries.
    pub(crate) fn entries(&self) -> &[u8] {
        let image = self.blocks.image();
        let first = place_of(&self.geometry, self.geometry.first_zone).min(image.len());
        let end = first.saturating_add(SIZE as usize).min(image.len());
        &image[first..end]
    }
}
