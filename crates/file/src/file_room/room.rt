//! Whether a volume has zones enough for a write.

ghost use Rattle.std.specs.Prelude.{◌≤◌, ◌<◌, ◌+◌, IfErr, IsTrue};
ghost use Rattle.volume.specs.Pieces.{pieces};
ghost use Rattle.volume.specs.Reading.{is_inode};
ghost use Rattle.block_store.specs.World.{Reads};
ghost use Rattle.block_store.specs.Halts.{Ends, IsHalt};
ghost use Rattle.block_store.specs.Volume.{IsOn};
ghost use Rattle.file.specs.Room.{TakesMore, IsRoom, IsRoomBeside};

use crate::file_room::pages::need;
use bitmap::{Map, count_free};
use block_store::{Blocks, Halt};
use inode::inode_table::load;
use layout::Geometry;

/// How many zones more the file of an inode takes when `count` bytes from a place on are written into it: those of the pages that
/// they touch and that aren't held yet, and of the indirect blocks on the way to them. Nothing is changed. Unsound only where the
/// number is no inode's.
pub fn zones_for<B: Blocks>(
    blocks: &mut B,
    geometry: &Geometry,
    number: u32,
    at: u32,
    count: u32,
) -> Result<u32, Halt>
    requires on { IsOn B.world geometry.now blocks.old }
    requires some { 0 < count }
    requires end { at + count ≤ 2147483647 }
    ensures reads { Reads B.world blocks.old blocks.new (λ d. Ends result
        (λ x. TakesMore geometry.now (pieces geometry.now d) number at count x) (IsTrue (is_inode geometry.now number))) }
    ensures halt { IfErr result (λ h. IsHalt B.world blocks.new h) }
{
    let inode = load(blocks, geometry, number)?;
    let width = geometry.block_size;
    let first = at / width;
    let end = (at + count - 1) / width + 1;
    Ok(need(blocks, geometry, &inode, first, end - first)?)
}

/// Whether there are zones enough for `count` bytes from a place on to be written into the file of an inode, as `zones_for` counts
/// them, and for `others` zones beside. Nothing is changed. Unsound only where the number is no inode's.
pub fn has_room_beside<B: Blocks>(
    blocks: &mut B,
    geometry: &Geometry,
    number: u32,
    at: u32,
    count: u32,
    others: u32,
) -> Result<bool, Halt>
    requires on { IsOn B.world geometry.now blocks.old }
    requires some { 0 < count }
    requires end { at + count ≤ 2147483647 }
    ensures reads { Reads B.world blocks.old blocks.new (λ d. Ends result
        (λ x. IsRoomBeside geometry.now (pieces geometry.now d) number at count others x) (IsTrue (is_inode geometry.now number))) }
    ensures halt { IfErr result (λ h. IsHalt B.world blocks.new h) }
{
    let more = zones_for(blocks, geometry, number, at, count)?;
    let free = count_free(blocks, geometry, Map::Zones)?;
    Ok(u64::from(more) + u64::from(others) <= u64::from(free))
}

/// Whether there are zones enough for `count` bytes from a place on to be written into the file of an inode, as `zones_for` counts
/// them. Nothing is changed. Unsound only where the number is no inode's.
pub fn has_room<B: Blocks>(
    blocks: &mut B,
    geometry: &Geometry,
    number: u32,
    at: u32,
    count: u32,
) -> Result<bool, Halt>
    requires on { IsOn B.world geometry.now blocks.old }
    requires some { 0 < count }
    requires end { at + count ≤ 2147483647 }
    ensures reads { Reads B.world blocks.old blocks.new (λ d. Ends result
        (λ x. IsRoom geometry.now (pieces geometry.now d) number at count x) (IsTrue (is_inode geometry.now number))) }
    ensures halt { IfErr result (λ h. IsHalt B.world blocks.new h) }
{
    has_room_beside(blocks, geometry, number, at, count, 0)
}
