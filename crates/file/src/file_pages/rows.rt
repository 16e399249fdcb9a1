//! The zones of pages that stand side by side, found at once.

ghost use Rattle.std.specs.Prelude.{◌≡◌, ◌≢◌, ◌<◌, ◌≤◌, ◌+◌, ◌/◌, ◌^◌, ℕ, length, slice_index, IfErr, IfOk};
ghost use Rattle.volume.specs.Pieces.{pieces};
ghost use Rattle.block_store.specs.World.{Reads};
ghost use Rattle.block_store.specs.Volume.{IsOn};
ghost use Rattle.zone.specs.PlaceParts.{HasZones};

use block_store::{Blocks, Cut};
use layout::Geometry;
use volume::Inode;
use zone::places::lookup_row;

/// Fills the slice with the zones of the pages that so many bytes of a file touch, from a place (in bytes) on, and says of how many: at
/// least of the first one, and of no more than the bytes touch. A hole's zone is 0 (MINIX format); to find several at once is our own.
/// Where the call is cut, nothing is said of what the slice holds.
pub fn find_row<B: Blocks>(
    blocks: &mut B,
    geometry: &Geometry,
    inode: &Inode,
    at: u32,
    count: usize,
    zones: &mut [u32],
) -> Result<usize, Cut>
    requires on { IsOn B.world geometry.now blocks.old }
    requires some { 0 < count }
    requires end { at + count < 2 ^ 32 }
    requires room { 0 < length zones.old }
    ensures reads { Reads B.world blocks.old blocks.new (λ d.
        IfOk result (λ n. HasZones geometry.now (pieces geometry.now d) inode.now (at / geometry.now.block_size) n zones.new)) }
    ensures some { IfOk result (λ n. (0 < n) × (n ≤ length zones.old)) }
    ensures cut { IfErr result (λ c. B.world.over blocks.new c) }
{
    let width = geometry.block_size as usize;
    let touched = (at as usize % width + count - 1) / width + 1;
    let most = zones.len().min(touched);
    let page = at / geometry.block_size;
    lookup_row(blocks, geometry, inode, page, &mut zones[..most])
}

/// How many zones stand before the first hole, which is a zone 0 (MINIX format); all of them where none is.
pub fn held_before(zones: &[u32]) -> usize
    ensures most { result ≤ length zones.now }
    ensures held { (k : ℕ) → k < result → slice_index zones.now k ≢ 0 }
    ensures hole { result < length zones.now → slice_index zones.now result ≡ 0 }
{
    for (k, zone) in zones.iter().enumerate() {
        if *zone == 0 {
            return k;
        }
    }
    zones.len()
}
