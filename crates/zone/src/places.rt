//! The places of an inode, level by level: at level 0 stand its pages, at level 1 the indirect blocks that name pages, at level 2
//! those that name such blocks, at level 3 the triple's. The first places of a level stand in the inode itself, seven pages and one
//! block of each level; each other place is a number of a block one level above.

ghost use Rattle.std.specs.Prelude.{◌≡◌, ◌<◌, ◌≤◌, ◌+◌, ◌-◌, ◌*◌, ◌/◌, ◌%◌, IfOk, IfErr, length, min};
ghost use Rattle.volume.specs.Pieces.{pieces};
ghost use Rattle.volume.specs.Nodes.{page_zone};
ghost use Rattle.volume.specs.Places.{zone_at};
ghost use Rattle.block_store.specs.World.{Reads};
ghost use Rattle.block_store.specs.Volume.{IsOn};
ghost use Rattle.zone.specs.ZoneSteps.{first_places, slot_of};
ghost use Rattle.zone.specs.PlaceParts.{HasZones, row_left};

use crate::numbers::{number, numbers, numbers_in_zone};
use block_store::{Blocks, Cut};
use layout::Geometry;
use volume::Inode;

/// How many places of a level stand in the inode itself.
pub fn first_places(level: u32) -> u32
    ensures { result ≡ first_places level }
{
    if level == 0 { 7 } else { 1 }
}

/// The slot in which such a place stands.
pub fn slot_of(level: u32, place: u32) -> u32
    requires level { level < 4 }
    requires place { place < first_places level }
    ensures slot { result ≡ slot_of level place }
    ensures within { result < 10 }
{
    if level == 0 { place } else { 6 + level }
}

/// The number that stands at a place; a number that is no data zone's names nothing.
pub fn find<B: Blocks>(
    blocks: &mut B,
    geometry: &Geometry,
    inode: &Inode,
    level: u32,
    place: u32,
) -> Result<u32, Cut>
    requires on { IsOn B.world geometry.now blocks.old }
    requires level { level < 4 }
    ensures reads { Reads B.world blocks.old blocks.new
        (λ d. IfOk result (λ x. x ≡ zone_at geometry.now (pieces geometry.now d) inode.now level place)) }
    ensures cut { IfErr result (λ c. B.world.over blocks.new c) }
{
    let first = first_places(level);
    if place < first {
        return Ok(inode.zones[slot_of(level, place) as usize]);
    }
    if level == 3 {
        return Ok(0);
    }
    let width = numbers_in_zone(geometry);
    let past = place - first;
    let block = find(blocks, geometry, inode, level + 1, past / width)?;
    number(blocks, geometry, block, past % width)
}

/// The zone of a page, or 0 for a hole. A page of the direct range needs no block, one of the triple range three.
pub fn lookup<B: Blocks>(
    blocks: &mut B,
    geometry: &Geometry,
    inode: &Inode,
    page: u32,
) -> Result<u32, Cut>
    requires on { IsOn B.world geometry.now blocks.old }
    ensures reads { Reads B.world blocks.old blocks.new
        (λ d. IfOk result (λ x. x ≡ page_zone geometry.now (pieces geometry.now d) inode.now page)) }
    ensures cut { IfErr result (λ c. B.world.over blocks.new c) }
{
    find(blocks, geometry, inode, 0, page)
}

/// Fills the slice with the zones of pages that stand side by side, from this one on, and says of how many: of as many as the slice is
/// long, or as there are. A page of the direct range comes with those behind it in that range; any other one comes with those behind it
/// that its own indirect block names, with one look-up of that block. Where the call is cut, nothing is said of what the slice holds.
pub fn lookup_row<B: Blocks>(
    blocks: &mut B,
    geometry: &Geometry,
    inode: &Inode,
    page: u32,
    into: &mut [u32],
) -> Result<usize, Cut>
    requires on { IsOn B.world geometry.now blocks.old }
    requires some { 0 < length into.old }
    ensures reads { Reads B.world blocks.old blocks.new
        (λ d. IfOk result (λ n. HasZones geometry.now (pieces geometry.now d) inode.now page n into.new)) }
    ensures some { IfOk result (λ n. (0 < n) × (n ≤ length into.old)) }
    ensures row { IfOk result (λ n. n ≡ min (length into.old) (row_left geometry.now page)) }
    ensures cut { IfErr result (λ c. B.world.over blocks.new c) }
{
    let first = first_places(0);
    if page < first {
        let start = page as usize;
        let count = into.len().min(first as usize - start);
        into[..count].copy_from_slice(&inode.zones[start..start + count]);
        return Ok(count);
    }
    let width = numbers_in_zone(geometry);
    let past = page - first;
    let block = find(blocks, geometry, inode, 1, past / width)?;
    let from = past % width;
    let count = into.len().min((width - from) as usize);
    numbers(blocks, geometry, block, from, &mut into[..count])?;
    Ok(count)
}
