//! Where a name stands.

ghost use Rattle.std.specs.Prelude.{◌≡◌, ◌<◌, ◌≤◌, ◌+◌, ◌-◌, ◌*◌, ◌/◌, IfErr, IfOk, IfSome, length, slice_index};
ghost use Rattle.directory.specs.Standing.{StandsAt};
ghost use Rattle.block_store.specs.Volume.{IsOn};
ghost use Rattle.block_store.specs.World.{Reads};
ghost use Rattle.volume.specs.Nodes.{entry_count_of, file_byte};
ghost use Rattle.volume.specs.Pieces.{pieces};

use crate::entries::is_named;
use block_store::{Blocks, Cut};
use file::zone::numbers::is_data_zone;
use file::zone::places::lookup;
use layout::Geometry;
use volume::Inode;

/// The first of the entries of some bytes, from one on to another, that has a name.
fn position_in(bytes: &[u8], from: usize, to: usize, name: &[u8]) -> Option<usize>
    requires order { from ≤ to }
    requires within { 64 * to ≤ length bytes.now }
    ensures { StandsAt (slice_index bytes.now) name.now from to result }
{
    for at in from..to {
        if is_named(bytes, at, name) {
            return Some(at);
        }
    }
    None
}

/// The entry of a page, from one on to another, that has a name. In a page without a data zone none has one.
fn position_in_page<B: Blocks>(
    blocks: &mut B,
    geometry: &Geometry,
    inode: &Inode,
    page: u32,
    from: u32,
    to: u32,
    name: &[u8],
) -> Result<Option<u32>, Cut>
    requires on { IsOn B.world geometry.now blocks.old }
    requires begins { page * (geometry.now.block_size / 64) ≤ from }
    requires order { from ≤ to }
    requires ends { to ≤ page * (geometry.now.block_size / 64) + geometry.now.block_size / 64 }
    requires size { 64 * to ≤ inode.now.size }
    requires named { 0 < length name.now }
    ensures reads { Reads B.world blocks.old blocks.new (λ d. IfOk result (λ x.
        StandsAt (file_byte geometry.now (pieces geometry.now d) inode.now) name.now from to x)) }
    ensures within { IfOk result (λ x. IfSome x (λ e. (from ≤ e) × (e < to))) }
    ensures cut { IfErr result (λ c. B.world.over blocks.new c) }
{
    let zone = lookup(blocks, geometry, inode, page)?;
    if !is_data_zone(geometry, zone) {
        return Ok(None);
    }
    let frame = blocks.fetch(zone)?;
    let first = page * (geometry.block_size / 64);
    let bytes = blocks.bytes(frame);
    match position_in(bytes, (from - first) as usize, (to - first) as usize, name) {
        Some(at) => Ok(Some(first + at as u32)),
        None => Ok(None),
    }
}

/// How many entries a directory has.
fn entry_count(inode: &Inode) -> u32
    ensures count { result ≡ entry_count_of inode.now }
    ensures few { result < 67108864 }
{
    let size: u32 = inode.size;
    size / 64
}

/// The number of the entry that has a name, if one after the first two has it; `entry` gives its bytes. Any bytes may stand in the
/// directory: each page's zone is looked up once and its block fetched once, from the first page on, and no memory is taken.
pub fn position<B: Blocks>(
    blocks: &mut B,
    geometry: &Geometry,
    inode: &Inode,
    name: &[u8],
) -> Result<Option<u32>, Cut>
    requires on { IsOn B.world geometry.now blocks.old }
    requires named { 0 < length name.now }
    ensures reads { Reads B.world blocks.old blocks.new (λ d. IfOk result (λ x.
        StandsAt (file_byte geometry.now (pieces geometry.now d) inode.now) name.now 2 (entry_count_of inode.now) x)) }
    ensures within { IfOk result (λ x. IfSome x (λ e. (2 ≤ e) × (e < entry_count_of inode.now))) }
    ensures cut { IfErr result (λ c. B.world.over blocks.new c) }
{
    let each = geometry.block_size / 64;
    let count = entry_count(inode);
    let mut from = 2;
    while from < count {
        let page = from / each;
        let to = count.min(from - from % each + each);
        if let Some(at) = position_in_page(blocks, geometry, inode, page, from, to, name)? {
            return Ok(Some(at));
        }
        from = to;
    }
    Ok(None)
}
