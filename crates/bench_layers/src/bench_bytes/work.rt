//! The work that is measured. Each piece tells how many bytes it moved, or 0 where a call ended early.

ghost use Rattle.std.specs.Prelude.{◌≡◌, ◌≤◌, ◌<◌, ◌+◌, length};
ghost use Rattle.block_store.specs.Volume.{IsOn};

use block_store::Blocks;
use file::file_pages::reading::read_at;
use file::write_at;
use inode::inode_table::load;
use layout::Geometry;

/// How often work is done in a row.
pub(crate) const TIMES: u32 = 50;

/// Reads the slice full so often.
pub(crate) fn read_again<B: Blocks>(
    blocks: &mut B,
    geometry: &Geometry,
    at: u32,
    into: &mut [u8],
) -> usize
    requires { IsOn B.world geometry.now blocks.old }
    ensures { IsOn B.world geometry.now blocks.new }
{
    let Ok(inode) = load(blocks, geometry, 1) else {
        return 0;
    };
    let mut moved = 0usize;
    for _ in 0..TIMES {
        match read_at(blocks, geometry, &inode, at, into) {
            Ok(count) => moved = moved.saturating_add(count),
            Err(_) => return 0,
        }
    }
    moved
}

/// Writes these bytes so often.
pub(crate) fn write_again<B: Blocks>(
    blocks: &mut B,
    geometry: &Geometry,
    at: u32,
    bytes: &[u8],
) -> usize
    requires on { IsOn B.world geometry.now blocks.old }
    requires some { 0 < length bytes.now }
    requires end { at + length bytes.now ≤ 2147483647 }
    ensures { IsOn B.world geometry.now blocks.new }
{
    let mut moved = 0usize;
    for _ in 0..TIMES {
        match write_at(blocks, geometry, 1, at, bytes) {
            Ok(()) => moved = moved.saturating_add(bytes.len()),
            Err(_) => return 0,
        }
    }
    moved
}

/// Copies as many bytes as both slices have so often, each time turned by another number of them, so that no copy can be left out.
pub(crate) fn copy_again(from: &[u8], to: &mut [u8]) -> usize {
    let mut moved = 0usize;
    for turn in 0..TIMES {
        moved = moved.saturating_add(copy_turned(from, to, 64 * (turn % 8) as usize));
    }
    moved
}

/// Copies as many bytes as both slices have, turned by so many of them, and tells how many.
fn copy_turned(from: &[u8], to: &mut [u8], turn: usize) -> usize {
    let count = from.len().min(to.len());
    let first = turn.min(count);
    to[first..count].copy_from_slice(&from[..count - first]);
    to[..first].copy_from_slice(&from[count - first..count]);
    count
}
