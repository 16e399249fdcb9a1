//! What a rename replaced.

ghost use Rattle.std.specs.Prelude.{IfErr};
ghost use Rattle.descriptors.specs.Table.{files_of};
ghost use Rattle.block_store.specs.Halts.{IsHalt};
ghost use Rattle.block_store.specs.Volume.{IsOn};
ghost use Rattle.block_store.specs.World.{Turns};
ghost use Rattle.inode_operations.specs.Leads.{Makes};
ghost use Rattle.inode_operations.specs.Replaced.{MayDropReplaced, without_it};

use crate::{drop_link, free_node, lose_name};
use block_store::{Blocks, Halt};
use descriptors::Descriptors;
use layout::Geometry;

/// Drops what lost its name to another, at `now`, in seconds. A file has a link less, and is gone where that was the last and it isn't
/// open. A directory, which is empty, is gone, and its parent has a link less.
pub fn drop_replaced<B: Blocks>(
    blocks: &mut B,
    opens: &Descriptors,
    geometry: &Geometry,
    number: u32,
    parent: u32,
    is_directory: bool,
    now: u32,
) -> Result<(), Halt>
    requires on { IsOn B.world geometry.now blocks.old }
    ensures turns { let f = files_of opens.now in Turns B.world blocks.old blocks.new (λ d e.
        Makes geometry.now (MayDropReplaced f now number parent is_directory) (without_it now number parent is_directory) result d e) }
    ensures halt { IfErr result (λ h. IsHalt B.world blocks.new h) }
{
    if !is_directory {
        return lose_name(blocks, opens, geometry, number, now);
    }
    drop_link(blocks, geometry, parent, now)?;
    free_node(blocks, geometry, number)
}
