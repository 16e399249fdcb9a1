//! The pages of a file that are let go, from the last one down.

ghost use Rattle.std.specs.Prelude.{◌≡◌, ◌<◌, ◌≤◌, ◌+◌, ◌-◌, ◌*◌, ◌/◌, ◌%◌, IfErr, IfOk, IfSome, IsTrue};
ghost use Rattle.layout.specs.Places.{IsGeometry};
ghost use Rattle.volume.specs.Pieces.{pieces};
ghost use Rattle.volume.specs.Reading.{is_inode};
ghost use Rattle.block_store.specs.World.{Turns, Reads};
ghost use Rattle.block_store.specs.Halts.{Ends, IsHalt};
ghost use Rattle.block_store.specs.Volume.{IsOn};
ghost use Rattle.zone.specs.Pages.{place_count, child_at};
ghost use Rattle.zone.specs.CutFiles.{IsLastAt, IsFull, IsLastHeld, IsLastBefore, IsLastFrom, HasNoneFrom, MayDetach, DetachesFrom};
ghost use Rattle.zone.specs.Slots.{IsLastSlot};

use crate::holding::release;
use crate::numbers::{last_number, numbers_in_zone};
use crate::places::{find, first_places};
use block_store::{Blocks, Cut, Halt};
use inode::inode_table::load;
use layout::Geometry;
use volume::Inode;

/// The last slot of an inode that isn't 0.
fn last_slot(inode: &Inode) -> Option<u32>
    ensures { IsLastSlot inode.now result }
{
    for slot in (0..10).rev() {
        if inode.zones[slot] != 0 {
            return Some(slot as u32);
        }
    }
    None
}

/// The level and the place of a slot.
fn top_place(slot: u32) -> (u32, u32)
    ensures page { slot < 7 → (result.0 ≡ 0) × (result.1 ≡ slot) }
    ensures block { 7 ≤ slot → (result.0 ≡ slot - 6) × (result.1 ≡ 0) }
{
    if slot < 7 { (0, slot) } else { (slot - 6, 0) }
}

/// The place below a block, of the level below its own, that one of its numbers names.
fn child_of(geometry: &Geometry, level: u32, place: u32, index: u32) -> u32
    requires geometry { IsGeometry geometry.now }
    requires level { level < 3 }
    requires place { place < place_count geometry.now (level + 1) }
    requires index { index < geometry.now.block_size / 4 }
    ensures child { result ≡ child_at geometry.now level place index }
    ensures within { result < place_count geometry.now level }
{
    first_places(level) + place * numbers_in_zone(geometry) + index
}

/// The last page that has a zone, below the last place of a level that has one.
fn last_below<B: Blocks>(
    blocks: &mut B,
    geometry: &Geometry,
    inode: &Inode,
    level: u32,
    place: u32,
) -> Result<u32, Halt>
    requires on { IsOn B.world geometry.now blocks.old }
    requires level { level < 4 }
    requires place { place < place_count geometry.now level }
    ensures reads { Reads B.world blocks.old blocks.new (λ d. let v = pieces geometry.now d in Ends result
        (λ p. IsLastAt geometry.now v inode.now level place → IsLastAt geometry.now v inode.now 0 p)
        (IsLastAt geometry.now v inode.now level place × IsFull geometry.now v inode.now)) }
    ensures halt { IfErr result (λ h. IsHalt B.world blocks.new h) }
{
    if level == 0 {
        return Ok(place);
    }
    let block = find(blocks, geometry, inode, level, place)?;
    match last_number(blocks, geometry, block, numbers_in_zone(geometry))? {
        Some(index) => {
            let child = child_of(geometry, level - 1, place, index);
            last_below(blocks, geometry, inode, level - 1, child)
        }
        None => Err(Halt::Unsound),
    }
}

/// The last page of an inode that has a zone.
fn last_held<B: Blocks>(
    blocks: &mut B,
    geometry: &Geometry,
    inode: u32,
) -> Result<Option<u32>, Halt>
    requires on { IsOn B.world geometry.now blocks.old }
    ensures reads { Reads B.world blocks.old blocks.new (λ d. let v = pieces geometry.now d in Ends result
        (λ x. IsLastHeld geometry.now v (v.inodes inode) x) (IsTrue (is_inode geometry.now inode)
        × IsFull geometry.now v (v.inodes inode))) }
    ensures halt { IfErr result (λ h. IsHalt B.world blocks.new h) }
{
    let loaded = load(blocks, geometry, inode)?;
    match last_slot(&loaded) {
        Some(slot) => {
            let (level, place) = top_place(slot);
            Ok(Some(last_below(blocks, geometry, &loaded, level, place)?))
        }
        None => Ok(None),
    }
}

/// The last page before an end that has a zone, if it stands in the block that names the page before the end.
fn last_beside<B: Blocks>(
    blocks: &mut B,
    geometry: &Geometry,
    inode: &Inode,
    end: u32,
) -> Result<Option<u32>, Cut>
    requires on { IsOn B.world geometry.now blocks.old }
    ensures reads { Reads B.world blocks.old blocks.new (λ d. IfOk result
        (λ x. IfSome x (λ p. IsLastBefore geometry.now (pieces geometry.now d) inode.now end p))) }
    ensures cut { IfErr result (λ c. B.world.over blocks.new c) }
{
    let first = first_places(0);
    if end <= first {
        return Ok(None);
    }
    let width = numbers_in_zone(geometry);
    let past = end - 1 - first;
    let row = past / width;
    let block = find(blocks, geometry, inode, 1, row)?;
    if let Some(index) = last_number(blocks, geometry, block, past % width + 1)? {
        return Ok(Some(first + row * width + index));
    }
    Ok(None)
}

/// The last page of an inode that has a zone, where no page from an end on has one: looked for from the end down in the block that
/// names the page before it, and else from the inode's last slot.
fn last_before<B: Blocks>(
    blocks: &mut B,
    geometry: &Geometry,
    inode: u32,
    end: u32,
) -> Result<Option<u32>, Halt>
    requires on { IsOn B.world geometry.now blocks.old }
    ensures reads { Reads B.world blocks.old blocks.new (λ d. let v = pieces geometry.now d in Ends result
        (λ x. HasNoneFrom geometry.now v (v.inodes inode) end → IsLastHeld geometry.now v (v.inodes inode) x)
        (IsTrue (is_inode geometry.now inode) × IsFull geometry.now v (v.inodes inode))) }
    ensures halt { IfErr result (λ h. IsHalt B.world blocks.new h) }
{
    let loaded = load(blocks, geometry, inode)?;
    if let Some(held) = last_beside(blocks, geometry, &loaded, end)? {
        return Ok(Some(held));
    }
    last_held(blocks, geometry, inode)
}

/// The last page from this one on that has a zone, where no page from an end on has one.
fn last_from<B: Blocks>(
    blocks: &mut B,
    geometry: &Geometry,
    inode: u32,
    page: u32,
    end: u32,
) -> Result<Option<u32>, Halt>
    requires on { IsOn B.world geometry.now blocks.old }
    ensures reads { Reads B.world blocks.old blocks.new (λ d. let v = pieces geometry.now d in Ends result
        (λ x. HasNoneFrom geometry.now v (v.inodes inode) end → IsLastFrom geometry.now v (v.inodes inode) page x)
        (IsTrue (is_inode geometry.now inode) × IsFull geometry.now v (v.inodes inode))) }
    ensures within { IfOk result (λ x. IfSome x (λ p. page ≤ p)) }
    ensures halt { IfErr result (λ h. IsHalt B.world blocks.new h) }
{
    let Some(held) = last_before(blocks, geometry, inode, end)? else {
        return Ok(None);
    };
    if held < page {
        return Ok(None);
    }
    Ok(Some(held))
}

/// Lets go all pages from this one on, and each indirect block that has no number then. The work is that of the pages that are let
/// go, from the last one down: past holes each look goes on from the last place found. Unsound only where the rules are broken, or the
/// number is no marked inode's; nothing more is said of these.
pub fn detach_from<B: Blocks>(
    blocks: &mut B,
    geometry: &Geometry,
    inode: u32,
    page: u32,
) -> Result<(), Halt>
    requires on { IsOn B.world geometry.now blocks.old }
    ensures turns { Turns B.world blocks.old blocks.new (λ d e. Ends result
        (λ x. DetachesFrom geometry.now inode page d e) (MayDetach geometry.now (pieces geometry.now d) inode)) }
    ensures halt { IfErr result (λ h. IsHalt B.world blocks.new h) }
{
    let mut end = u32::MAX;
    while let Some(held) = last_from(blocks, geometry, inode, page, end)? {
        if held >= end {
            return Err(Halt::Unsound);
        }
        release(blocks, geometry, inode, 0, held)?;
        end = held;
    }
    Ok(())
}
