//! The moves of a rename, by what stands at the new name.

ghost use Rattle.std.specs.Prelude.{◌≡◌, IfErr};
ghost use Rattle.descriptors.specs.Table.{files_of};
ghost use Rattle.block_store.specs.Halts.{Ends, IsHalt};
ghost use Rattle.block_store.specs.Volume.{IsOn};
ghost use Rattle.block_store.specs.World.{Reads, Turns};
ghost use Rattle.inode_operations.specs.Leads.{Makes};
ghost use Rattle.inode_operations.specs.Whole.{moved};
ghost use Rattle.calls_rename.specs.Asked.{IsNamed};
ghost use Rattle.calls_rename.specs.Carrying.{IsSomeReady, MayCarry, MayMoveAside, MayMoveOnto, SaysFits, carried, moved_onto};

use crate::Asked;
use crate::room::has_room;
use block_store::{Blocks, Halt};
use descriptors::Descriptors;
use inode_operations::{Move, drop_replaced, move_over, move_to, move_within};
use layout::Geometry;

/// Whether the tree after the move fits. Room is asked for a new name of another directory alone: no other move takes a zone more.
pub(crate) fn fits<B: Blocks>(
    blocks: &mut B,
    geometry: &Geometry,
    asked: &Asked,
) -> Result<bool, Halt>
    requires on { IsOn B.world geometry.now blocks.old }
    ensures reads { Reads B.world blocks.old blocks.new (λ d. Ends result
        (λ b. SaysFits geometry.now d asked.now b) (IsSomeReady geometry.now d asked.now)) }
    ensures halt { IfErr result (λ h. IsHalt B.world blocks.new h) }
{
    if asked.there.is_some() {
        return Ok(true);
    }
    if asked.what.from == asked.what.to {
        return Ok(true);
    }
    has_room(blocks, geometry, asked)
}

/// Moves to a name that nothing has: within a directory, or to another where there is room.
fn move_aside<B: Blocks>(blocks: &mut B, geometry: &Geometry, what: &Move) -> Result<(), Halt>
    requires on { IsOn B.world geometry.now blocks.old }
    requires named { IsNamed what.now.now what.now }
    ensures turns { Turns B.world blocks.old blocks.new (λ d e.
        Makes geometry.now (MayMoveAside geometry.now what.entry.now) (moved what.entry.now) result d e) }
    ensures halt { IfErr result (λ h. IsHalt B.world blocks.new h) }
{
    if what.from == what.to {
        return move_within(blocks, geometry, what);
    }
    move_to(blocks, geometry, what)
}

/// Moves to the name of another node, which has lost it then, and is gone where that was a file's last name and it isn't open, or where it
/// was a directory.
fn move_onto<B: Blocks>(
    blocks: &mut B,
    opens: &Descriptors,
    geometry: &Geometry,
    what: &Move,
    other: u32,
) -> Result<(), Halt>
    requires on { IsOn B.world geometry.now blocks.old }
    requires named { IsNamed what.now.now what.now }
    ensures turns { let f = files_of opens.now in Turns B.world blocks.old blocks.new (λ d e.
        Makes geometry.now (MayMoveOnto f what.entry.now other) (moved_onto what.entry.now other) result d e) }
    ensures halt { IfErr result (λ h. IsHalt B.world blocks.new h) }
{
    move_over(blocks, geometry, what)?;
    drop_replaced(
        blocks,
        opens,
        geometry,
        other,
        what.to,
        what.is_directory,
        what.now,
    )
}

/// Moves what was asked, and drops what it replaced.
pub(crate) fn carry<B: Blocks>(
    blocks: &mut B,
    opens: &Descriptors,
    geometry: &Geometry,
    asked: &Asked,
) -> Result<(), Halt>
    requires on { IsOn B.world geometry.now blocks.old }
    requires named { IsNamed asked.now.what.now asked.now.what }
    ensures turns { let f = files_of opens.now in Turns B.world blocks.old blocks.new (λ d e.
        Makes geometry.now (MayCarry geometry.now f asked.now.what asked.now.there) (carried asked.now.what asked.now.there) result d e) }
    ensures halt { IfErr result (λ h. IsHalt B.world blocks.new h) }
{
    match asked.there {
        Some(other) => move_onto(blocks, opens, geometry, &asked.what, other),
        None => move_aside(blocks, geometry, &asked.what),
    }
}
