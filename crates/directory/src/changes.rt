//! Names more, names less, names that lead elsewhere.

ghost use Rattle.std.specs.Prelude.{◌≡◌, ◌≤◌, ◌<◌, ◌+◌, ◌*◌, IfErr, IfOk, length};
ghost use Rattle.block_store.specs.Halts.{Ends, IsHalt};
ghost use Rattle.block_store.specs.Volume.{IsOn};
ghost use Rattle.block_store.specs.World.{Reads, Turns};
ghost use Rattle.volume.specs.Pieces.{pieces};
ghost use Rattle.directory.specs.Places.{IsPlaced};
ghost use Rattle.directory.specs.Names.{HasName, Inserts, MayInsert, MayRenameIt, MayReplace, MaySetParent, Renames, Replaces, SetsParent};

use crate::bytes::{entry_bytes, name_bytes};
use crate::position;
use block_store::{Blocks, Halt};
use file::file_pages::changing::stamp;
use file::write_at;
use inode::inode_table::load;
use layout::Geometry;
use tree::MAX_SIZE;

/// Gives a directory a name more, of 1 to 60 bytes, that leads to an inode: it stands last, and the directory is 64 bytes longer. Zones
/// enough are asked for before, by `file::has_room` of 64 bytes at its size. Its times become `now`, in seconds. Unsound only where the
/// volume isn't sound, the inode is no directory's, the name stands in it or is none, it leads to inode 0, the directory is as long as a
/// file may be, or there are too few zones.
pub fn insert<B: Blocks>(
    blocks: &mut B,
    geometry: &Geometry,
    directory: u32,
    name: &[u8],
    number: u32,
    now: u32,
) -> Result<(), Halt>
    requires on { IsOn B.world geometry.now blocks.old }
    requires short { length name.now ≤ 60 }
    ensures turns { Turns B.world blocks.old blocks.new (λ d e. Ends result
        (λ x. Inserts geometry.now directory name.now number now d e)
        (MayInsert geometry.now (pieces geometry.now d) directory name.now number)) }
    ensures halt { IfErr result (λ h. IsHalt B.world blocks.new h) }
{
    let inode = load(blocks, geometry, directory)?;
    if inode.size > MAX_SIZE - 64 {
        return Err(Halt::Unsound);
    }
    write_at(
        blocks,
        geometry,
        directory,
        inode.size,
        &entry_bytes(number, name),
    )?;
    stamp(blocks, geometry, directory, now)
}

/// Gives a directory another parent: its entry `..` leads there. Its times stay. Unsound only where the volume
/// isn't sound, the inode is no directory's, or the parent is inode 0.
pub fn set_parent<B: Blocks>(
    blocks: &mut B,
    geometry: &Geometry,
    directory: u32,
    parent: u32,
) -> Result<(), Halt>
    requires on { IsOn B.world geometry.now blocks.old }
    ensures turns { Turns B.world blocks.old blocks.new (λ d e. Ends result
        (λ x. SetsParent geometry.now directory parent d e) (MaySetParent geometry.now (pieces geometry.now d) directory parent)) }
    ensures halt { IfErr result (λ h. IsHalt B.world blocks.new h) }
{
    write_at(blocks, geometry, directory, 64, &parent.to_le_bytes())
}

/// The number of the entry of a directory that has a name. Unsound only where none has it, or the volume isn't sound.
pub(crate) fn place_of<B: Blocks>(
    blocks: &mut B,
    geometry: &Geometry,
    directory: u32,
    name: &[u8],
) -> Result<u32, Halt>
    requires on { IsOn B.world geometry.now blocks.old }
    requires named { 0 < length name.now }
    ensures reads { Reads B.world blocks.old blocks.new (λ d. Ends result
        (λ e. IsPlaced geometry.now (pieces geometry.now d) directory name.now e)
        (HasName geometry.now (pieces geometry.now d) directory name.now)) }
    ensures within { IfOk result (λ e. 64 * e + 64 ≤ 2147483647) }
    ensures halt { IfErr result (λ h. IsHalt B.world blocks.new h) }
{
    let inode = load(blocks, geometry, directory)?;
    if inode.size > MAX_SIZE {
        return Err(Halt::Unsound);
    }
    match position(blocks, geometry, &inode, name)? {
        Some(place) => Ok(place),
        None => Err(Halt::Unsound),
    }
}

/// Makes a name of a directory lead to another inode; it stands where it stood. Its times become `now`, in seconds. Unsound only where the
/// volume isn't sound, the directory hasn't the name or is longer than a file may be, or it is to lead to inode 0.
pub fn replace<B: Blocks>(
    blocks: &mut B,
    geometry: &Geometry,
    directory: u32,
    name: &[u8],
    number: u32,
    now: u32,
) -> Result<(), Halt>
    requires on { IsOn B.world geometry.now blocks.old }
    requires named { 0 < length name.now }
    ensures turns { Turns B.world blocks.old blocks.new (λ d e. Ends result
        (λ x. Replaces geometry.now directory name.now number now d e)
        (MayReplace geometry.now (pieces geometry.now d) directory name.now number)) }
    ensures halt { IfErr result (λ h. IsHalt B.world blocks.new h) }
{
    let place = place_of(blocks, geometry, directory, name)?;
    write_at(
        blocks,
        geometry,
        directory,
        64 * place,
        &number.to_le_bytes(),
    )?;
    stamp(blocks, geometry, directory, now)
}

/// Gives what has a name in a directory another name, of 1 to 60 bytes, that the directory hasn't: its entry stays where it is. The
/// directory's times become `now`, in seconds. Unsound only where the volume isn't sound, the
/// directory hasn't the old name or is longer than a file may be, or the new name is none or stands in it.
pub fn rename<B: Blocks>(
    blocks: &mut B,
    geometry: &Geometry,
    directory: u32,
    old: &[u8],
    new: &[u8],
    now: u32,
) -> Result<(), Halt>
    requires on { IsOn B.world geometry.now blocks.old }
    requires named { 0 < length old.now }
    requires short { length new.now ≤ 60 }
    ensures turns { Turns B.world blocks.old blocks.new (λ d e. Ends result
        (λ x. Renames geometry.now directory old.now new.now now d e)
        (MayRenameIt geometry.now (pieces geometry.now d) directory old.now new.now)) }
    ensures halt { IfErr result (λ h. IsHalt B.world blocks.new h) }
{
    let place = place_of(blocks, geometry, directory, old)?;
    write_at(
        blocks,
        geometry,
        directory,
        64 * place + 4,
        &name_bytes(new),
    )?;
    stamp(blocks, geometry, directory, now)
}
