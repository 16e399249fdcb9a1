//! Volumes all of whose blocks are at hand, with one file.

ghost use Rattle.std.specs.Prelude.{◌≡◌, ◌≤◌, ◌<◌, ◌+◌, length, IfSome};
ghost use Rattle.layout.specs.Places.{IsGeometry};
ghost use Rattle.block_store.specs.Volume.{IsOn};
ghost use Rattle.cache.specs.Calls.{IsReady, AreWritable};
ghost use Rattle.cached_blocks.specs.World.{stored_caching};

use block_store::memory::Memory;
use block_store::words::clear;
use block_store::{Blocks, Halt};
use cache::Cache;
use cached_blocks::Stored;
use file::write_at;
use inode::inode_table::store;
use layout::Geometry;
use reissue::list_link::ListLink;
use reissue::{Link, Transfers};
use std::alloc::Global;
use volume::Inode;

/// An empty file.
const EMPTY: Inode = Inode {
    mode: 0o100644,
    links: 1,
    uid: 0,
    gid: 0,
    size: 0,
    atime: 0,
    mtime: 0,
    ctime: 0,
    zones: [0; 10],
};

/// Frames of a cache, so many, in which no block is yet.
pub(crate) fn frames(alloc: Global, geometry: &Geometry, count: u32) -> Option<Stored<ListLink>>
    requires { IsGeometry geometry.now }
    ensures ready { IfSome result (λ s. IsReady (stored_caching ⟦<ListLink as Link>⟧ s)) }
    ensures size { IfSome result (λ s. s.cache.shape.block_size ≡ geometry.now.block_size) }
    ensures inside { IfSome result (λ s. AreWritable geometry.now.zones (stored_caching ⟦<ListLink as Link>⟧ s)) }
{
    let link = ListLink::new(alloc, Vec::new(alloc)).ok()?;
    let transfers = Transfers::new(alloc, link).ok()?;
    match Cache::new(alloc, transfers, 0, geometry, count) {
        Ok(cache) => Some(Stored::new(cache)),
        Err(_) => None,
    }
}

/// Blocks of a volume in memory.
pub(crate) fn memory(alloc: Global, geometry: &Geometry) -> Option<Memory>
    requires { IsGeometry geometry.now }
    ensures { IfSome result (λ m. m.block_size ≡ geometry.now.block_size) }
{
    let count = (geometry.zones as usize).checked_mul(geometry.block_size as usize)?;
    let image = vec![in alloc; 0u8; count].ok()?;
    Some(Memory::new(geometry.block_size, image))
}

/// Makes all blocks from the maps on zero, and inode 1 an empty file.
fn empty<B: Blocks>(blocks: &mut B, geometry: &Geometry) -> Result<(), Halt>
    requires { IsOn B.world geometry.now blocks.old }
    ensures { IsOn B.world geometry.now blocks.new }
{
    for block in 2..geometry.zones {
        clear(blocks, block)?;
    }
    store(blocks, geometry, 1, &EMPTY)
}

/// Makes inode 1 a file with these bytes from a place on, and a hole before.
pub(crate) fn fill<B: Blocks>(
    blocks: &mut B,
    geometry: &Geometry,
    at: u32,
    bytes: &[u8],
) -> Result<(), Halt>
    requires on { IsOn B.world geometry.now blocks.old }
    requires some { 0 < length bytes.now }
    requires end { at + length bytes.now ≤ 2147483647 }
    ensures { IsOn B.world geometry.now blocks.new }
{
    empty(blocks, geometry)?;
    write_at(blocks, geometry, 1, at, bytes)
}
