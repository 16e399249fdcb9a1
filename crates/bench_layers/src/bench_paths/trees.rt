//! Directories of 1000 names each, in blocks in memory: each name of one leads to the next, and each of the last to a file.

ghost use Rattle.std.specs.Prelude.{◌≡◌};
ghost use Rattle.layout.specs.Places.{IsGeometry};
ghost use Rattle.block_store.specs.Volume.{IsOn};

use crate::bench_names::directories::{SIZE, put};
use crate::bench_names::scans::{NAMES, name_of};
use crate::sizes::place_of;
use block_store::Blocks;
use block_store::memory::Memory;
use inode::inode_table::store;
use layout::Geometry;
use std::alloc::{AllocError, Global};
use volume::Inode;

/// How many directories there are: inode 1 is the first, and the file's inode stands behind the last.
pub(crate) const DIRECTORIES: u32 = 8;

/// How many blocks each of them has: 63 pages at most, and behind them its single indirect block.
pub(crate) const ROOM: u32 = 64;

/// The first block of a directory.
fn first_of(geometry: &Geometry, number: u32) -> u32 {
    let before = number.saturating_sub(1).saturating_mul(ROOM);
    geometry.first_zone.saturating_add(before)
}

/// The directories, on a volume of these sizes.
#[derive(Drop)]
pub(crate) struct Tree {
    pub(crate) blocks: Memory,
    pub(crate) geometry: Geometry,
    ghost sizes: { IsGeometry geometry },
    ghost same: { blocks.block_size ≡ geometry.block_size },
}

/// Puts the names of a directory, and the numbers of its pages from the eighth on.
fn put_names(image: &mut Vec<u8>, geometry: &Geometry, number: u32) {
    let first = first_of(geometry, number);
    let next = number.saturating_add(1);
    for k in 0..NAMES {
        let at = place_of(geometry, first).saturating_add(64 * (k as usize + 2));
        put(image, at, &next.to_le_bytes());
        put(image, at.saturating_add(4), &name_of(k));
    }
    let numbers = place_of(geometry, first.saturating_add(ROOM - 1));
    for page in 7..ROOM - 1 {
        let at = numbers.saturating_add(4 * (page as usize - 7));
        put(image, at, &first.saturating_add(page).to_le_bytes());
    }
}

/// An inode of user 0 with this mode and size, whose pages are the blocks from one on.
fn inode_of(mode: u16, size: u32, first: u32) -> Inode {
    let page = |k: u32| first.saturating_add(k);
    Inode {
        mode,
        links: 2,
        uid: 0,
        gid: 0,
        size,
        atime: 0,
        mtime: 0,
        ctime: 0,
        zones: [
            page(0),
            page(1),
            page(2),
            page(3),
            page(4),
            page(5),
            page(6),
            page(ROOM - 1),
            0,
            0,
        ],
    }
}

/// Puts the inodes of the directories and of the file.
fn put_inodes<B: Blocks>(blocks: &mut B, geometry: &Geometry)
    requires on { IsOn B.world geometry.now blocks.old }
    ensures { IsOn B.world geometry.now blocks.new }
{
    for number in 1..=DIRECTORIES {
        let inode = inode_of(0o40755, SIZE, first_of(geometry, number));
        let _ = store(blocks, geometry, number, &inode);
    }
    let file = inode_of(0o100644, 0, 0);
    let _ = store(blocks, geometry, DIRECTORIES + 1, &file);
}

impl Tree {
    /// The directories on a volume of these sizes.
    pub(crate) fn new(alloc: Global, geometry: Geometry) -> Result<Tree, AllocError>
        requires { IsGeometry geometry }
    {
        let size = geometry.block_size as usize;
        let mut image = vec![in alloc; 0u8; size.saturating_mul(geometry.zones as usize)]?;
        for number in 1..=DIRECTORIES {
            put_names(&mut image, &geometry, number);
        }
        let mut blocks = Memory::new(geometry.block_size, image);
        put_inodes(&mut blocks, &geometry);
        Ok(Tree { blocks, geometry })
    }
}
