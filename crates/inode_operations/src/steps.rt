//! Steps that change one directory, or the node that moves.

ghost use Rattle.std.specs.Prelude.{◌≤◌, ◌<◌, IfErr, length};
ghost use Rattle.lemmas.specs.Sums.{one_if};
ghost use Rattle.block_store.specs.Halts.{IsHalt};
ghost use Rattle.block_store.specs.Volume.{IsOn};
ghost use Rattle.block_store.specs.World.{Turns};
ghost use Rattle.inode_operations.specs.Leads.{Makes};
ghost use Rattle.inode_operations.specs.Moves.{IsThere, MayPutIn, MayPutOver, MaySettle, MayTakeOut, settled, taken_out, touched, with_entry_and_links};

use crate::{add_link, drop_link, set_attributes};
use block_store::{Blocks, Halt};
use directory::{insert, remove, replace, set_parent};
use inode::inode_table::load;
use layout::Geometry;

/// Takes a name out of a directory at `now`, in seconds; where it led to a directory, the parent has a link less.
pub fn take_out<B: Blocks>(
    blocks: &mut B,
    geometry: &Geometry,
    directory: u32,
    name: &[u8],
    is_directory: bool,
    now: u32,
) -> Result<(), Halt>
    requires on { IsOn B.world geometry.now blocks.old }
    requires named { 0 < length name.now }
    ensures turns { Turns B.world blocks.old blocks.new (λ d e.
        Makes geometry.now (MayTakeOut directory name.now) (taken_out now directory name.now (one_if is_directory)) result d e) }
    ensures halt { IfErr result (λ h. IsHalt B.world blocks.new h) }
{
    remove(blocks, geometry, directory, name, now)?;
    if !is_directory {
        return Ok(());
    }
    drop_link(blocks, geometry, directory, now)
}

/// Puts a name that leads to an inode into a directory that hasn't it, at `now`, in seconds; where the inode is a directory's, the
/// parent has a link more. Zones enough are asked for before.
pub fn put_in<B: Blocks>(
    blocks: &mut B,
    geometry: &Geometry,
    directory: u32,
    name: &[u8],
    number: u32,
    is_directory: bool,
    now: u32,
) -> Result<(), Halt>
    requires on { IsOn B.world geometry.now blocks.old }
    requires short { length name.now ≤ 60 }
    ensures turns { Turns B.world blocks.old blocks.new (λ d e.
        Makes geometry.now (MayPutIn geometry.now now directory name.now number)
        (with_entry_and_links now directory name.now number (one_if is_directory)) result d e) }
    ensures halt { IfErr result (λ h. IsHalt B.world blocks.new h) }
{
    insert(blocks, geometry, directory, name, number, now)?;
    if !is_directory {
        return Ok(());
    }
    add_link(blocks, geometry, directory, now)
}

/// Makes a name of a directory lead to another inode, at `now`, in seconds; where that is a directory's, the parent has a link more.
pub fn put_over<B: Blocks>(
    blocks: &mut B,
    geometry: &Geometry,
    directory: u32,
    name: &[u8],
    number: u32,
    is_directory: bool,
    now: u32,
) -> Result<(), Halt>
    requires on { IsOn B.world geometry.now blocks.old }
    requires named { 0 < length name.now }
    ensures turns { Turns B.world blocks.old blocks.new (λ d e.
        Makes geometry.now (MayPutOver directory name.now number)
        (with_entry_and_links now directory name.now number (one_if is_directory)) result d e) }
    ensures halt { IfErr result (λ h. IsHalt B.world blocks.new h) }
{
    replace(blocks, geometry, directory, name, number, now)?;
    if !is_directory {
        return Ok(());
    }
    add_link(blocks, geometry, directory, now)
}

/// Sets the time of the last change of a node's attributes, in seconds.
fn touch<B: Blocks>(blocks: &mut B, geometry: &Geometry, number: u32, now: u32) -> Result<(), Halt>
    requires on { IsOn B.world geometry.now blocks.old }
    ensures turns { Turns B.world blocks.old blocks.new (λ d e. Makes geometry.now (IsThere number) (touched now number) result d e) }
    ensures halt { IfErr result (λ h. IsHalt B.world blocks.new h) }
{
    let mut inode = load(blocks, geometry, number)?;
    inode.ctime = now;
    set_attributes(blocks, geometry, number, &inode)
}

/// Gives a node that has moved its new parent, if it is a directory, and the time of the move, `now`, in seconds.
pub fn settle<B: Blocks>(
    blocks: &mut B,
    geometry: &Geometry,
    number: u32,
    parent: u32,
    is_directory: bool,
    now: u32,
) -> Result<(), Halt>
    requires on { IsOn B.world geometry.now blocks.old }
    ensures turns { Turns B.world blocks.old blocks.new (λ d e.
        Makes geometry.now (MaySettle number parent is_directory) (settled now number parent) result d e) }
    ensures halt { IfErr result (λ h. IsHalt B.world blocks.new h) }
{
    if !is_directory {
        return touch(blocks, geometry, number, now);
    }
    set_parent(blocks, geometry, number, parent)?;
    touch(blocks, geometry, number, now)
}
