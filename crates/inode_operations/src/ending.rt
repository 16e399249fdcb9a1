//! The end of a node.

ghost use Rattle.std.specs.Prelude.{◌≢◌, IfErr};
ghost use Rattle.descriptors.specs.Table.{files_of};
ghost use Rattle.block_store.specs.Halts.{Ends, IsHalt};
ghost use Rattle.block_store.specs.Volume.{IsOn};
ghost use Rattle.block_store.specs.World.{Turns};
ghost use Rattle.volume.specs.Pieces.{pieces};
ghost use Rattle.inode_operations.specs.Steps.{FreesNode, IsOfNode, LosesName, LosesNode};

use crate::attributes::drop_link;
use bitmap::{Map, clear};
use block_store::{Blocks, Halt};
use descriptors::Descriptors;
use file::file_pages::changing::set_size;
use inode::inode_table::load;
use layout::Geometry;

/// Frees a node: its zones are given back, and its inode is no longer marked. What the inode says beside has no meaning then. Unsound
/// only where the volume isn't sound, or the number is no inode's.
pub fn free_node<B: Blocks>(blocks: &mut B, geometry: &Geometry, number: u32) -> Result<(), Halt>
    requires on { IsOn B.world geometry.now blocks.old }
    ensures turns { Turns B.world blocks.old blocks.new (λ d e. Ends result
        (λ x. FreesNode geometry.now number d e) (IsOfNode geometry.now (pieces geometry.now d) number)) }
    ensures halt { IfErr result (λ h. IsHalt B.world blocks.new h) }
{
    if number > geometry.inodes {
        return Err(Halt::Unsound);
    }
    set_size(blocks, geometry, number, 0)?;
    clear(blocks, geometry, Map::Inodes, number)?;
    Ok(())
}

/// Frees a node that has no link and isn't open; any other stays as it is, and a node that has a link is only looked at. Unsound only where
/// the volume isn't sound, or the number is no inode's.
pub fn lose_node<B: Blocks>(
    blocks: &mut B,
    opens: &Descriptors,
    geometry: &Geometry,
    number: u32,
) -> Result<(), Halt>
    requires on { IsOn B.world geometry.now blocks.old }
    ensures turns { Turns B.world blocks.old blocks.new (λ d e. Ends result
        (λ x. LosesNode geometry.now (files_of opens.now) number d e) (IsOfNode geometry.now (pieces geometry.now d) number)) }
    ensures looks { Turns B.world blocks.old blocks.new (λ d e.
        ((pieces geometry.now d).inodes number).links ≢ 0 → B.world.looks blocks.old blocks.new) }
    ensures halt { IfErr result (λ h. IsHalt B.world blocks.new h) }
{
    if number > 65535 {
        return Err(Halt::Unsound);
    }
    let inode = load(blocks, geometry, number)?;
    if inode.links > 0 {
        return Ok(());
    }
    if opens.is_open(number as u16) {
        return Ok(());
    }
    free_node(blocks, geometry, number)
}

/// Takes a link from a node at `now`, in seconds, and frees it where that was the last and it isn't open: what becomes of a file whose name
/// is gone. Unsound only where the volume isn't sound, or the number is no inode's.
pub fn lose_name<B: Blocks>(
    blocks: &mut B,
    opens: &Descriptors,
    geometry: &Geometry,
    number: u32,
    now: u32,
) -> Result<(), Halt>
    requires on { IsOn B.world geometry.now blocks.old }
    ensures turns { Turns B.world blocks.old blocks.new (λ d e. Ends result
        (λ x. LosesName geometry.now (files_of opens.now) number now d e) (IsOfNode geometry.now (pieces geometry.now d) number)) }
    ensures halt { IfErr result (λ h. IsHalt B.world blocks.new h) }
{
    drop_link(blocks, geometry, number, now)?;
    lose_node(blocks, opens, geometry, number)
}
