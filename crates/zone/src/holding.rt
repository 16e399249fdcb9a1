//! Places that get a zone, and places that are let go.

ghost use Rattle.std.specs.Prelude.{◌≡◌, ◌<◌, ◌≤◌, ◌+◌, ◌-◌, ◌*◌, ◌/◌, ◌%◌, IfErr, IsTrue};
ghost use Rattle.volume.specs.Reading.{is_inode};
ghost use Rattle.volume.specs.Places.{zone_at};
ghost use Rattle.volume.specs.Pieces.{pieces};
ghost use Rattle.block_store.specs.World.{Turns, Reads};
ghost use Rattle.block_store.specs.Halts.{Ends, IsHalt};
ghost use Rattle.block_store.specs.Volume.{IsOn};
ghost use Rattle.zone.specs.Pages.{MayHold, HoldsPlace, MayRelease, Releases};

use crate::numbers::numbers_in_zone;
use crate::places::{find, first_places, slot_of};
use crate::steps::{drop_in_block, drop_slot, hold_number, hold_slot};
use block_store::{Blocks, Halt};
use inode::inode_table::load;
use layout::Geometry;

/// The zone of a place, where it and the blocks on the way to it get one if they have none: the blocks first, so that at no time
/// a zone hangs below a place that has none.
pub fn hold<B: Blocks>(
    blocks: &mut B,
    geometry: &Geometry,
    inode: u32,
    level: u32,
    place: u32,
) -> Result<u32, Halt>
    requires on { IsOn B.world geometry.now blocks.old }
    requires level { level < 4 }
    ensures turns { Turns B.world blocks.old blocks.new (λ d e. Ends result
        (λ z. HoldsPlace geometry.now inode level place z d e) (MayHold geometry.now (pieces geometry.now d) inode level place)) }
    ensures halt { IfErr result (λ h. IsHalt B.world blocks.new h) }
{
    let first = first_places(level);
    if place < first {
        return hold_slot(blocks, geometry, inode, slot_of(level, place));
    }
    if level == 3 {
        return Err(Halt::Unsound);
    }
    let width = numbers_in_zone(geometry);
    let past = place - first;
    let block = hold(blocks, geometry, inode, level + 1, past / width)?;
    hold_number(blocks, geometry, block, past % width)
}

/// The number that stands at a place of the inode of a number.
fn zone_at<B: Blocks>(
    blocks: &mut B,
    geometry: &Geometry,
    inode: u32,
    level: u32,
    place: u32,
) -> Result<u32, Halt>
    requires on { IsOn B.world geometry.now blocks.old }
    requires level { level < 4 }
    ensures reads { Reads B.world blocks.old blocks.new (λ d. Ends result
        (λ x. let v = pieces geometry.now d in x ≡ zone_at geometry.now v (v.inodes inode) level place)
        (IsTrue (is_inode geometry.now inode))) }
    ensures halt { IfErr result (λ h. IsHalt B.world blocks.new h) }
{
    let loaded = load(blocks, geometry, inode)?;
    Ok(find(blocks, geometry, &loaded, level, place)?)
}

/// Lets go the zone of a place, and each block on the way to it that has no number then.
pub fn release<B: Blocks>(
    blocks: &mut B,
    geometry: &Geometry,
    inode: u32,
    level: u32,
    place: u32,
) -> Result<(), Halt>
    requires on { IsOn B.world geometry.now blocks.old }
    requires level { level < 4 }
    ensures turns { Turns B.world blocks.old blocks.new (λ d e. Ends result
        (λ x. Releases geometry.now inode level place d e) (MayRelease geometry.now (pieces geometry.now d) inode level place)) }
    ensures halt { IfErr result (λ h. IsHalt B.world blocks.new h) }
{
    let first = first_places(level);
    if place < first {
        return drop_slot(blocks, geometry, inode, slot_of(level, place));
    }
    if level == 3 {
        return Err(Halt::Unsound);
    }
    let width = numbers_in_zone(geometry);
    let past = place - first;
    let block = zone_at(blocks, geometry, inode, level + 1, past / width)?;
    match drop_in_block(blocks, geometry, block, past % width)? {
        Some(_) => Ok(()),
        None => release(blocks, geometry, inode, level + 1, past / width),
    }
}
