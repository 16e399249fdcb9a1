//! The sizes of files, and the times of inodes, changed.

ghost use Rattle.std.specs.Prelude.{◌≤◌, IfErr};
ghost use Rattle.volume.specs.Pieces.{pieces};
ghost use Rattle.block_store.specs.World.{Turns};
ghost use Rattle.block_store.specs.Halts.{Ends, IsHalt};
ghost use Rattle.block_store.specs.Volume.{IsOn};
ghost use Rattle.file.specs.PageChanges.{MayChange, MayResize, Resized, SetsSize, PadsRest, Stamps};

use crate::file_pages::writing::write_page;
use block_store::{Blocks, Halt};
use inode::inode_table::{load, store};
use layout::Geometry;
use zone::cutting::detach_from;
use zone::places::lookup;

/// Makes the bytes zeros that stand in the last page behind the end of a file.
fn pad_rest<B: Blocks>(blocks: &mut B, geometry: &Geometry, number: u32) -> Result<(), Halt>
    requires on { IsOn B.world geometry.now blocks.old }
    ensures turns { Turns B.world blocks.old blocks.new (λ d e. Ends result
        (λ x. PadsRest geometry.now number d e) (MayChange geometry.now (pieces geometry.now d) number)) }
    ensures halt { IfErr result (λ h. IsHalt B.world blocks.new h) }
{
    let inode = load(blocks, geometry, number)?;
    let width = geometry.block_size as usize;
    let from = inode.size as usize % width;
    if from == 0 {
        return Ok(());
    }
    let zone = lookup(blocks, geometry, &inode, inode.size / geometry.block_size)?;
    if zone == 0 {
        return Ok(());
    }
    write_page(blocks, geometry, zone, from, &[0; 4096][from..width])
}

/// Sets the size (in bytes) of an inode of which no page at or past that size is held. Bytes up to it that weren't the file's are
/// zeros (POSIX). The times stay. Unsound only where the rules are broken, the inode isn't marked, or such a page is held; nothing more is
/// said of these.
pub fn resize<B: Blocks>(
    blocks: &mut B,
    geometry: &Geometry,
    number: u32,
    size: u32,
) -> Result<(), Halt>
    requires on { IsOn B.world geometry.now blocks.old }
    ensures turns { Turns B.world blocks.old blocks.new (λ d e. Ends result
        (λ x. Resized geometry.now number size d e) (MayResize geometry.now (pieces geometry.now d) number size)) }
    ensures halt { IfErr result (λ h. IsHalt B.world blocks.new h) }
{
    pad_rest(blocks, geometry, number)?;
    let mut inode = load(blocks, geometry, number)?;
    inode.size = size;
    store(blocks, geometry, number, &inode)
}

/// Makes the file of an inode that long. What lies past the size is gone, its pages and indirect blocks are let go; bytes past the
/// old end are zeros, of pages that aren't held. The times stay. Unsound only where the rules are broken, or the inode isn't marked.
pub fn set_size<B: Blocks>(
    blocks: &mut B,
    geometry: &Geometry,
    number: u32,
    size: u32,
) -> Result<(), Halt>
    requires on { IsOn B.world geometry.now blocks.old }
    requires end { size ≤ 2147483647 }
    ensures turns { Turns B.world blocks.old blocks.new (λ d e. Ends result
        (λ x. SetsSize geometry.now number size d e) (MayChange geometry.now (pieces geometry.now d) number)) }
    ensures halt { IfErr result (λ h. IsHalt B.world blocks.new h) }
{
    let pages = (size + geometry.block_size - 1) / geometry.block_size;
    detach_from(blocks, geometry, number, pages)?;
    resize(blocks, geometry, number, size)
}

/// Sets the time of the last change of an inode's bytes or names, and that of its attributes, in seconds. Unsound only where the rules
/// are broken, or the inode isn't marked.
pub fn stamp<B: Blocks>(
    blocks: &mut B,
    geometry: &Geometry,
    number: u32,
    now: u32,
) -> Result<(), Halt>
    requires on { IsOn B.world geometry.now blocks.old }
    ensures turns { Turns B.world blocks.old blocks.new (λ d e. Ends result
        (λ x. Stamps geometry.now number now d e) (MayChange geometry.now (pieces geometry.now d) number)) }
    ensures halt { IfErr result (λ h. IsHalt B.world blocks.new h) }
{
    let mut inode = load(blocks, geometry, number)?;
    inode.mtime = now;
    inode.ctime = now;
    store(blocks, geometry, number, &inode)
}
