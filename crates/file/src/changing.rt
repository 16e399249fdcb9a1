//! The bytes of files, changed: writes of any length.

ghost use Rattle.std.specs.Prelude.{◌≡◌, ◌≤◌, ◌<◌, ◌+◌, ◌*◌, ◌/◌, ◌%◌, ℕ, length, take, IfErr, IfOk};
ghost use Rattle.volume.specs.Pieces.{pieces};
ghost use Rattle.block_store.specs.World.{Turns};
ghost use Rattle.block_store.specs.Halts.{Ends, IsHalt};
ghost use Rattle.block_store.specs.Volume.{IsOn};
ghost use Rattle.file.specs.PageChanges.{MayChange};
ghost use Rattle.file.specs.Changing.{MayWriteAt, WritesAt, MayWriteInside, WritesInside, IsHeldRow, Grows};

use crate::file_pages::changing::resize;
use crate::file_pages::rows::{find_row, held_before};
use crate::file_pages::writing::write_page;
use block_store::{Blocks, Halt};
use inode::inode_table::load;
use layout::Geometry;
use zone::pages::attach;

/// Makes the file of an inode that long where it is shorter.
fn grow<B: Blocks>(blocks: &mut B, geometry: &Geometry, number: u32, size: u32) -> Result<(), Halt>
    requires on { IsOn B.world geometry.now blocks.old }
    ensures turns { Turns B.world blocks.old blocks.new (λ d e. Ends result
        (λ x. Grows geometry.now number size d e) (MayChange geometry.now (pieces geometry.now d) number)) }
    ensures halt { IfErr result (λ h. IsHalt B.world blocks.new h) }
{
    let inode = load(blocks, geometry, number)?;
    if inode.size < size {
        resize(blocks, geometry, number, size)
    } else {
        Ok(())
    }
}

/// Writes bytes of one page below the end of a file, whose page gets a zone if it has none.
fn write_chunk<B: Blocks>(
    blocks: &mut B,
    geometry: &Geometry,
    number: u32,
    at: u32,
    bytes: &[u8],
) -> Result<(), Halt>
    requires on { IsOn B.world geometry.now blocks.old }
    requires some { 0 < length bytes.now }
    requires end { at + length bytes.now ≤ 2147483647 }
    requires within { at % geometry.now.block_size + length bytes.now ≤ geometry.now.block_size }
    ensures turns { Turns B.world blocks.old blocks.new (λ d e. Ends result
        (λ x. WritesInside geometry.now number at bytes.now d e) (MayWriteInside geometry.now (pieces geometry.now d) number at
        bytes.now)) }
    ensures halt { IfErr result (λ h. IsHalt B.world blocks.new h) }
{
    let width = geometry.block_size;
    let zone = attach(blocks, geometry, number, at / width)?;
    write_page(blocks, geometry, zone, (at % width) as usize, bytes)
}

/// Writes bytes below the end of a file, page by page; each page gets a zone if it has none.
fn write_chunks<B: Blocks>(
    blocks: &mut B,
    geometry: &Geometry,
    number: u32,
    at: u32,
    bytes: &[u8],
) -> Result<(), Halt>
    requires on { IsOn B.world geometry.now blocks.old }
    requires some { 0 < length bytes.now }
    requires end { at + length bytes.now ≤ 2147483647 }
    ensures turns { Turns B.world blocks.old blocks.new (λ d e. Ends result
        (λ x. WritesInside geometry.now number at bytes.now d e) (MayWriteInside geometry.now (pieces geometry.now d) number at
        bytes.now)) }
    ensures halt { IfErr result (λ h. IsHalt B.world blocks.new h) }
{
    let width = geometry.block_size as usize;
    let mut done = 0;
    while done < bytes.len() {
        let place = at as usize + done;
        let end = bytes.len().min(done + width - place % width);
        write_chunk(blocks, geometry, number, place as u32, &bytes[done..end])?;
        done = end;
    }
    Ok(())
}

/// Writes bytes below the end of a file into the zones of the pages that they touch, all of which are held; these are the zones, the
/// first one that of the page at which the bytes begin.
fn write_held<B: Blocks>(
    blocks: &mut B,
    geometry: &Geometry,
    zones: &[u32],
    at: u32,
    bytes: &[u8],
) -> Result<(), Halt>
    requires on { IsOn B.world geometry.now blocks.old }
    requires some { 0 < length bytes.now }
    requires end { at + length bytes.now ≤ 2147483647 }
    requires pages { at % geometry.now.block_size + length bytes.now ≤ length zones.now * geometry.now.block_size }
    ensures turns { Turns B.world blocks.old blocks.new (λ d e. (n : ℕ)
        → IsHeldRow geometry.now (pieces geometry.now d) n (at / geometry.now.block_size) zones.now
        → Ends result (λ x. WritesInside geometry.now n at bytes.now d e)
        (MayWriteInside geometry.now (pieces geometry.now d) n at bytes.now)) }
    ensures halt { IfErr result (λ h. IsHalt B.world blocks.new h) }
{
    let width = geometry.block_size as usize;
    let mut index = 0;
    let mut from = at as usize % width;
    let mut done = 0;
    while done < bytes.len() {
        let end = bytes.len().min(done + width - from);
        write_page(blocks, geometry, zones[index], from, &bytes[done..end])?;
        index += 1;
        from = 0;
        done = end;
    }
    Ok(())
}

/// Writes the first of these bytes, below the end of a file, and says how many. The zones of their pages are found at once: where the
/// first page is held, its bytes are written, and those of the held pages behind it; else those of all pages that were found, each of
/// which gets a zone if it has none.
fn write_row<B: Blocks>(
    blocks: &mut B,
    geometry: &Geometry,
    number: u32,
    at: u32,
    bytes: &[u8],
) -> Result<usize, Halt>
    requires on { IsOn B.world geometry.now blocks.old }
    requires some { 0 < length bytes.now }
    requires end { at + length bytes.now ≤ 2147483647 }
    ensures turns { Turns B.world blocks.old blocks.new (λ d e. Ends result
        (λ n. WritesInside geometry.now number at (take n bytes.now) d e)
        (MayWriteInside geometry.now (pieces geometry.now d) number at bytes.now)) }
    ensures some { IfOk result (λ n. (0 < n) × (n ≤ length bytes.now)) }
    ensures halt { IfErr result (λ h. IsHalt B.world blocks.new h) }
{
    let inode = load(blocks, geometry, number)?;
    let mut zones = [0u32; 16];
    let found = find_row(blocks, geometry, &inode, at, bytes.len(), &mut zones)?;
    let held = held_before(&zones[..found]);
    let width = geometry.block_size as usize;
    let from = at as usize % width;
    if held == 0 {
        let room = found * width - from;
        let count = bytes.len().min(room);
        write_chunks(blocks, geometry, number, at, &bytes[..count])?;
        return Ok(count);
    }
    let room = held * width - from;
    let count = bytes.len().min(room);
    write_held(blocks, geometry, &zones[..held], at, &bytes[..count])?;
    Ok(count)
}

/// Writes bytes below the end of a file, some pages at once.
fn write_inside<B: Blocks>(
    blocks: &mut B,
    geometry: &Geometry,
    number: u32,
    at: u32,
    bytes: &[u8],
) -> Result<(), Halt>
    requires on { IsOn B.world geometry.now blocks.old }
    requires some { 0 < length bytes.now }
    requires end { at + length bytes.now ≤ 2147483647 }
    ensures turns { Turns B.world blocks.old blocks.new (λ d e. Ends result
        (λ x. WritesInside geometry.now number at bytes.now d e) (MayWriteInside geometry.now (pieces geometry.now d) number at
        bytes.now)) }
    ensures halt { IfErr result (λ h. IsHalt B.world blocks.new h) }
{
    let mut done = 0;
    while done < bytes.len() {
        let place = (at as usize + done) as u32;
        let more = write_row(blocks, geometry, number, place, &bytes[done..])?;
        done += more;
    }
    Ok(())
}

/// Writes these bytes into the file of an inode, from a place on: the pages that they touch are held then, and bytes between an
/// old end and the place are zeros. The times stay. Zones enough are asked for before, by `has_room`. Unsound only where the rules are
/// broken, the inode isn't marked, or there are too few zones for all of the bytes; what was written then isn't said.
pub fn write_at<B: Blocks>(
    blocks: &mut B,
    geometry: &Geometry,
    number: u32,
    at: u32,
    bytes: &[u8],
) -> Result<(), Halt>
    requires on { IsOn B.world geometry.now blocks.old }
    requires some { 0 < length bytes.now }
    requires end { at + length bytes.now ≤ 2147483647 }
    ensures turns { Turns B.world blocks.old blocks.new (λ d e. Ends result
        (λ x. WritesAt geometry.now number at bytes.now d e) (MayWriteAt geometry.now (pieces geometry.now d) number at bytes.now)) }
    ensures halt { IfErr result (λ h. IsHalt B.world blocks.new h) }
{
    grow(blocks, geometry, number, at + bytes.len() as u32)?;
    write_inside(blocks, geometry, number, at, bytes)
}
