//! The bytes of files, read.

ghost use Rattle.std.specs.Prelude.{◌≡◌, ◌<◌, ◌≤◌, ◌+◌, ◌^◌, ℕ, length, slice_index, IfErr, IfOk, OnOk, OnErr};
ghost use Rattle.volume.specs.Pieces.{pieces};
ghost use Rattle.volume.specs.Nodes.{file_of, page_byte};
ghost use Rattle.block_store.specs.World.{Reads};
ghost use Rattle.block_store.specs.Rows.{HasBytes};
ghost use Rattle.block_store.specs.Volume.{IsOn};
ghost use Rattle.file.specs.Reading.{HasFileBytes, read_count};

use crate::file_pages::rows::find_row;
use block_store::words::read_bytes;
use block_store::{Blocks, Cut};
use layout::Geometry;
use volume::Inode;
use zone::numbers::is_data_zone;

/// Fills the slice with bytes of the page in a zone, from an offset of the page on. A page without a zone, which is zone 0, has zeros,
/// and so has one whose number is no data zone's. Where the call is cut, the slice stays.
fn read_page<B: Blocks>(
    blocks: &mut B,
    geometry: &Geometry,
    zone: u32,
    from: usize,
    into: &mut [u8],
) -> Result<(), Cut>
    requires on { IsOn B.world geometry.now blocks.old }
    requires within { from + length into.old ≤ geometry.now.block_size }
    ensures reads { Reads B.world blocks.old blocks.new (λ d.
        OnOk result (HasBytes from into.new (page_byte (pieces geometry.now d) zone))) }
    ensures stays { OnErr result (into.new ≡ into.old) }
    ensures cut { IfErr result (λ c. B.world.over blocks.new c) }
{
    if is_data_zone(geometry, zone) {
        read_bytes(blocks, zone, from, into)
    } else {
        into.fill(0);
        Ok(())
    }
}

/// Fills the slice with bytes of a file from a place on, of the first pages, whose zones are found at once, and says how many they are.
fn read_row<B: Blocks>(
    blocks: &mut B,
    geometry: &Geometry,
    inode: &Inode,
    at: u32,
    into: &mut [u8],
) -> Result<usize, Cut>
    requires on { IsOn B.world geometry.now blocks.old }
    requires some { 0 < length into.old }
    requires inside { at + length into.old ≤ inode.now.size }
    requires end { at + length into.old < 2 ^ 32 }
    ensures reads { Reads B.world blocks.old blocks.new (λ d.
        IfOk result (λ n. HasFileBytes (file_of geometry.now (pieces geometry.now d) inode.now) at n into.new)) }
    ensures some { IfOk result (λ n. (0 < n) × (n ≤ length into.old)) }
    ensures cut { IfErr result (λ c. B.world.over blocks.new c) }
{
    let mut zones = [0u32; 16];
    let found = find_row(blocks, geometry, inode, at, into.len(), &mut zones)?;
    let width = geometry.block_size as usize;
    let mut index = 0;
    let mut from = at as usize % width;
    let room = found * width - from;
    let count = into.len().min(room);
    let mut done = 0;
    while done < count {
        let end = count.min(done + width - from);
        read_page(blocks, geometry, zones[index], from, &mut into[done..end])?;
        index += 1;
        from = 0;
        done = end;
    }
    Ok(count)
}

/// Fills the slice with the bytes of a file from a place on, up to the end of the file or of the slice, and says how many they
/// are: none at the end of the file or past it. What the slice holds behind them stays. The bytes of a hole are zeros. Where the
/// call is cut, the bytes that were to be read may have been changed.
pub fn read_at<B: Blocks>(
    blocks: &mut B,
    geometry: &Geometry,
    inode: &Inode,
    at: u32,
    into: &mut [u8],
) -> Result<usize, Cut>
    requires on { IsOn B.world geometry.now blocks.old }
    ensures reads { Reads B.world blocks.old blocks.new (λ d.
        IfOk result (λ n. HasFileBytes (file_of geometry.now (pieces geometry.now d) inode.now) at n into.new)) }
    ensures count { IfOk result (λ n. n ≡ read_count inode.now.size at (length into.old)) }
    ensures rest { (k : ℕ) → read_count inode.now.size at (length into.old) ≤ k → slice_index into.new k ≡ slice_index into.old k }
    ensures cut { IfErr result (λ c. B.world.over blocks.new c) }
{
    let count = into.len().min(inode.size.saturating_sub(at) as usize);
    let mut done = 0;
    while done < count {
        let place = (at as usize + done) as u32;
        let more = read_row(blocks, geometry, inode, place, &mut into[done..count])?;
        done += more;
    }
    Ok(count)
}
