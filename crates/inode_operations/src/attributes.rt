//! The attributes of a node, changed.

ghost use Rattle.std.specs.Prelude.{IfErr};
ghost use Rattle.block_store.specs.Halts.{Ends, IsHalt};
ghost use Rattle.block_store.specs.Volume.{IsOn};
ghost use Rattle.block_store.specs.World.{Turns};
ghost use Rattle.volume.specs.Pieces.{pieces};
ghost use Rattle.inode_operations.specs.Steps.{AddsLink, DropsLink, IsOfNode, MayAddLink, MaySetAttributes, SetsAttributes};

use block_store::{Blocks, Halt};
use inode::inode_table::{load, store};
use layout::Geometry;
use volume::Inode;

/// Gives a node other attributes: its links, its owner, its permissions, its times. The inode's size, zones and type have to be those that
/// it has. Unsound only where the volume isn't sound, or the number is no inode's.
pub fn set_attributes<B: Blocks>(
    blocks: &mut B,
    geometry: &Geometry,
    number: u32,
    inode: &Inode,
) -> Result<(), Halt>
    requires on { IsOn B.world geometry.now blocks.old }
    ensures turns { Turns B.world blocks.old blocks.new (λ d e. Ends result
        (λ x. SetsAttributes geometry.now number inode.now d e)
        (MaySetAttributes geometry.now (pieces geometry.now d) number inode.now)) }
    ensures halt { IfErr result (λ h. IsHalt B.world blocks.new h) }
{
    store(blocks, geometry, number, inode)
}

/// Gives a node a link more; the time of its attributes becomes `now`, in seconds. Unsound only where the volume isn't sound, the node has
/// more links than there may be, or the number is no inode's.
pub fn add_link<B: Blocks>(
    blocks: &mut B,
    geometry: &Geometry,
    number: u32,
    now: u32,
) -> Result<(), Halt>
    requires on { IsOn B.world geometry.now blocks.old }
    ensures turns { Turns B.world blocks.old blocks.new (λ d e. Ends result
        (λ x. AddsLink geometry.now number now d e) (MayAddLink geometry.now (pieces geometry.now d) number)) }
    ensures halt { IfErr result (λ h. IsHalt B.world blocks.new h) }
{
    let mut inode = load(blocks, geometry, number)?;
    if inode.links == u16::MAX {
        return Err(Halt::Unsound);
    }
    inode.links += 1;
    inode.ctime = now;
    set_attributes(blocks, geometry, number, &inode)
}

/// Takes a link from a node, if it has one; the time of its attributes becomes `now`, in seconds. The node stays, also without a link: see
/// `lose_node`. Unsound only where the volume isn't sound, or the number is no inode's.
pub fn drop_link<B: Blocks>(
    blocks: &mut B,
    geometry: &Geometry,
    number: u32,
    now: u32,
) -> Result<(), Halt>
    requires on { IsOn B.world geometry.now blocks.old }
    ensures turns { Turns B.world blocks.old blocks.new (λ d e. Ends result
        (λ x. DropsLink geometry.now number now d e) (IsOfNode geometry.now (pieces geometry.now d) number)) }
    ensures halt { IfErr result (λ h. IsHalt B.world blocks.new h) }
{
    let mut inode = load(blocks, geometry, number)?;
    inode.links = inode.links.saturating_sub(1);
    inode.ctime = now;
    set_attributes(blocks, geometry, number, &inode)
}
