//! Whole moves.

ghost use Rattle.std.specs.Prelude.{◌≤◌, ◌<◌, IfErr, length};
ghost use Rattle.block_store.specs.Halts.{IsHalt};
ghost use Rattle.block_store.specs.Volume.{IsOn};
ghost use Rattle.block_store.specs.World.{Turns};
ghost use Rattle.inode_operations.specs.Leads.{Makes};
ghost use Rattle.inode_operations.specs.Whole.{MayMoveOver, MayMoveTo, MayMoveWithin, moved, moved_within};

use crate::steps::{put_in, put_over, settle, take_out};
use block_store::{Blocks, Halt};
use directory::rename;
use layout::Geometry;

/// What moves, from where to where, and when.
#[derive(Clone, Copy)]
pub struct Move<'a> {
    /// The inode that moves.
    pub number: u32,
    /// Whether it is a directory's.
    pub is_directory: bool,
    /// The directory that has it.
    pub from: u32,
    /// Its name there.
    pub old: &'a [u8],
    /// The directory that shall have it.
    pub to: u32,
    /// Its name there, of 1 to 60 bytes.
    pub new: &'a [u8],
    /// The time, in seconds.
    pub now: u32,
}

/// Moves an inode to a name that its new directory hasn't. The old name goes first, so that what it took is there for the new one.
pub fn move_to<B: Blocks>(blocks: &mut B, geometry: &Geometry, what: &Move) -> Result<(), Halt>
    requires on { IsOn B.world geometry.now blocks.old }
    requires named { 0 < length what.now.old.now }
    requires short { length what.now.new.now ≤ 60 }
    ensures turns { Turns B.world blocks.old blocks.new (λ d e.
        Makes geometry.now (MayMoveTo geometry.now what.entry.now) (moved what.entry.now) result d e) }
    ensures halt { IfErr result (λ h. IsHalt B.world blocks.new h) }
{
    take_out(
        blocks,
        geometry,
        what.from,
        what.old,
        what.is_directory,
        what.now,
    )?;
    put_in(
        blocks,
        geometry,
        what.to,
        what.new,
        what.number,
        what.is_directory,
        what.now,
    )?;
    settle(
        blocks,
        geometry,
        what.number,
        what.to,
        what.is_directory,
        what.now,
    )
}

/// Moves an inode to a name that leads elsewhere, and is its own then; what it led to has lost the name.
pub fn move_over<B: Blocks>(blocks: &mut B, geometry: &Geometry, what: &Move) -> Result<(), Halt>
    requires on { IsOn B.world geometry.now blocks.old }
    requires named { 0 < length what.now.old.now }
    requires over { 0 < length what.now.new.now }
    ensures turns { Turns B.world blocks.old blocks.new (λ d e.
        Makes geometry.now (MayMoveOver what.entry.now) (moved what.entry.now) result d e) }
    ensures halt { IfErr result (λ h. IsHalt B.world blocks.new h) }
{
    take_out(
        blocks,
        geometry,
        what.from,
        what.old,
        what.is_directory,
        what.now,
    )?;
    put_over(
        blocks,
        geometry,
        what.to,
        what.new,
        what.number,
        what.is_directory,
        what.now,
    )?;
    settle(
        blocks,
        geometry,
        what.number,
        what.to,
        what.is_directory,
        what.now,
    )
}

/// Gives an inode another name in its directory, which hasn't that name: its entry stays where it is.
pub fn move_within<B: Blocks>(blocks: &mut B, geometry: &Geometry, what: &Move) -> Result<(), Halt>
    requires on { IsOn B.world geometry.now blocks.old }
    requires named { 0 < length what.now.old.now }
    requires short { length what.now.new.now ≤ 60 }
    ensures turns { Turns B.world blocks.old blocks.new (λ d e.
        Makes geometry.now (MayMoveWithin what.entry.now) (moved_within what.entry.now) result d e) }
    ensures halt { IfErr result (λ h. IsHalt B.world blocks.new h) }
{
    rename(blocks, geometry, what.from, what.old, what.new, what.now)?;
    settle(
        blocks,
        geometry,
        what.number,
        what.from,
        what.is_directory,
        what.now,
    )
}
