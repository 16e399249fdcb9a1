//! Zones are taken and given back, and their numbers put into inodes and blocks.
//!
//! A zone that is taken is marked and filled with zeros before its number is put anywhere, so nothing hangs below it, and no file
//! shows what it held before. A number that is removed is removed before its zone is given back.

ghost use Rattle.std.specs.Prelude.{◌≡◌, ◌<◌, ◌↔◌, IfErr, IsErrOf, IsTrue, false};
ghost use Rattle.tree.specs.Space.{numbers_in_zone};
ghost use Rattle.volume.specs.Pieces.{pieces};
ghost use Rattle.volume.specs.Reading.{is_data_zone};
ghost use Rattle.block_store.specs.World.{Turns};
ghost use Rattle.block_store.specs.Halts.{Ends, IsHalt};
ghost use Rattle.block_store.specs.Volume.{IsOn, Alters};
ghost use Rattle.zone.specs.PlaceParts.{IsSomeNumber};
ghost use Rattle.zone.specs.Parts.{with_mark};
ghost use Rattle.zone.specs.Steps.{MarksZone, TakesZone, HasRoom, HoldsSlot, MayHoldSlot, HoldsNumber, MayHoldNumber, DropsSlot, MayDropSlot, DropsNumber, MayDropNumber};

use crate::numbers::{clear_zone, is_data_zone, number, set_number, some_number};
use bitmap::{Map, clear, lowest_free, set};
use block_store::{Blocks, Halt};
use inode::inode_table::{load, store};
use layout::Geometry;

/// Marks the lowest free zone.
fn mark_free<B: Blocks>(blocks: &mut B, geometry: &Geometry) -> Result<u32, Halt>
    requires on { IsOn B.world geometry.now blocks.old }
    ensures turns { Turns B.world blocks.old blocks.new
        (λ d e. Ends result (λ z. MarksZone geometry.now z d e) (HasRoom geometry.now (pieces geometry.now d))) }
    ensures halt { IfErr result (λ h. IsHalt B.world blocks.new h) }
{
    match lowest_free(blocks, geometry, Map::Zones)? {
        Some(bit) => {
            set(blocks, geometry, Map::Zones, bit)?;
            Ok(geometry.first_zone + bit - 1)
        }
        None => Err(Halt::Unsound),
    }
}

/// Takes a free zone: it is marked, and its bytes are zeros. Which one isn't promised. Unsound only where none is free.
pub fn take<B: Blocks>(blocks: &mut B, geometry: &Geometry) -> Result<u32, Halt>
    requires on { IsOn B.world geometry.now blocks.old }
    ensures turns { Turns B.world blocks.old blocks.new
        (λ d e. Ends result (λ z. TakesZone geometry.now z d e) (HasRoom geometry.now (pieces geometry.now d))) }
    ensures halt { IfErr result (λ h. IsHalt B.world blocks.new h) }
{
    let zone = mark_free(blocks, geometry)?;
    clear_zone(blocks, geometry, zone)?;
    Ok(zone)
}

/// Gives a data zone back: it is marked no longer. Of another zone the answer is Unsound, and nothing is changed.
pub fn give<B: Blocks>(blocks: &mut B, geometry: &Geometry, zone: u32) -> Result<(), Halt>
    requires on { IsOn B.world geometry.now blocks.old }
    ensures turns { Turns B.world blocks.old blocks.new (λ d e. Ends result
        (λ x. Alters geometry.now (with_mark geometry.now (pieces geometry.now d) zone false) d e)
        (IsTrue (is_data_zone geometry.now zone))) }
    ensures unsound { IsErrOf result Halt.Unsound ↔ (is_data_zone geometry.now zone ≡ false) }
    ensures untouched { is_data_zone geometry.now zone ≡ false → blocks.new ≡ blocks.old }
    ensures halt { IfErr result (λ h. IsHalt B.world blocks.new h) }
{
    if !is_data_zone(geometry, zone) {
        return Err(Halt::Unsound);
    }
    clear(blocks, geometry, Map::Zones, zone - geometry.first_zone + 1)?;
    Ok(())
}

/// The zone in a slot of an inode, which gets a fresh one if it has none.
pub fn hold_slot<B: Blocks>(
    blocks: &mut B,
    geometry: &Geometry,
    inode: u32,
    slot: u32,
) -> Result<u32, Halt>
    requires on { IsOn B.world geometry.now blocks.old }
    requires slot { slot < 10 }
    ensures turns { Turns B.world blocks.old blocks.new
        (λ d e. Ends result (λ z. HoldsSlot geometry.now inode slot z d e) (MayHoldSlot geometry.now (pieces geometry.now d) inode slot)) }
    ensures halt { IfErr result (λ h. IsHalt B.world blocks.new h) }
{
    let mut changed = load(blocks, geometry, inode)?;
    let there = changed.zones[slot as usize];
    if there != 0 {
        return Ok(there);
    }
    let zone = take(blocks, geometry)?;
    changed.zones[slot as usize] = zone;
    store(blocks, geometry, inode, &changed)?;
    Ok(zone)
}

/// The zone that a number of a block names; the number becomes a fresh one's if it is 0.
pub fn hold_number<B: Blocks>(
    blocks: &mut B,
    geometry: &Geometry,
    block: u32,
    index: u32,
) -> Result<u32, Halt>
    requires on { IsOn B.world geometry.now blocks.old }
    requires index { index < numbers_in_zone geometry.now }
    ensures turns { Turns B.world blocks.old blocks.new (λ d e. Ends result
        (λ z. HoldsNumber geometry.now block index z d e) (MayHoldNumber geometry.now (pieces geometry.now d) block index)) }
    ensures halt { IfErr result (λ h. IsHalt B.world blocks.new h) }
{
    let there = number(blocks, geometry, block, index)?;
    if there != 0 {
        return Ok(there);
    }
    let zone = take(blocks, geometry)?;
    set_number(blocks, geometry, block, index, zone)?;
    Ok(zone)
}

/// Lets go the zone in a slot of an inode.
pub fn drop_slot<B: Blocks>(
    blocks: &mut B,
    geometry: &Geometry,
    inode: u32,
    slot: u32,
) -> Result<(), Halt>
    requires on { IsOn B.world geometry.now blocks.old }
    requires slot { slot < 10 }
    ensures turns { Turns B.world blocks.old blocks.new
        (λ d e. Ends result (λ x. DropsSlot geometry.now inode slot d e) (MayDropSlot geometry.now (pieces geometry.now d) inode slot)) }
    ensures halt { IfErr result (λ h. IsHalt B.world blocks.new h) }
{
    let mut changed = load(blocks, geometry, inode)?;
    let zone = changed.zones[slot as usize];
    changed.zones[slot as usize] = 0;
    store(blocks, geometry, inode, &changed)?;
    give(blocks, geometry, zone)
}

/// Lets go the zone that a number of a block names.
pub fn drop_number<B: Blocks>(
    blocks: &mut B,
    geometry: &Geometry,
    block: u32,
    index: u32,
) -> Result<(), Halt>
    requires on { IsOn B.world geometry.now blocks.old }
    requires index { index < numbers_in_zone geometry.now }
    ensures turns { Turns B.world blocks.old blocks.new (λ d e. Ends result
        (λ x. DropsNumber geometry.now block index d e) (MayDropNumber geometry.now (pieces geometry.now d) block index)) }
    ensures halt { IfErr result (λ h. IsHalt B.world blocks.new h) }
{
    let zone = number(blocks, geometry, block, index)?;
    set_number(blocks, geometry, block, index, 0)?;
    give(blocks, geometry, zone)
}

/// Lets go the zone that a number of a block names, and tells a number but 0 that the block has left, if there is one. The numbers
/// before it are looked at first.
pub fn drop_in_block<B: Blocks>(
    blocks: &mut B,
    geometry: &Geometry,
    block: u32,
    index: u32,
) -> Result<Option<u32>, Halt>
    requires on { IsOn B.world geometry.now blocks.old }
    requires index { index < numbers_in_zone geometry.now }
    ensures turns { Turns B.world blocks.old blocks.new (λ d e. Ends result
        (λ x. DropsNumber geometry.now block index d e × IsSomeNumber geometry.now (pieces geometry.now e) block x)
        (MayDropNumber geometry.now (pieces geometry.now d) block index)) }
    ensures halt { IfErr result (λ h. IsHalt B.world blocks.new h) }
{
    drop_number(blocks, geometry, block, index)?;
    Ok(some_number(blocks, geometry, block, index)?)
}
