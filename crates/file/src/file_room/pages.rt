//! How many zones a row of pages takes.

ghost use Rattle.std.specs.Prelude.{◌≡◌, ◌==◌, ◌<◌, ◌≤◌, ◌+◌, ◌-◌, ◌*◌, ◌/◌, ◌%◌, IfOk, IfErr};
ghost use Rattle.lemmas.specs.Sums.{one_if};
ghost use Rattle.volume.specs.Pieces.{pieces};
ghost use Rattle.block_store.specs.World.{Reads};
ghost use Rattle.block_store.specs.Volume.{IsOn};
ghost use Rattle.zone.specs.Pages.{place_count};
ghost use Rattle.file.specs.Need.{holes, NeedsAt, NeedsMore};

use block_store::{Blocks, Cut};
use layout::Geometry;
use volume::Inode;
use zone::numbers::numbers_in_zone;
use zone::places::{find, first_places};

/// 1 where no zone stands, else 0.
fn count_of(zone: u32) -> u32
    ensures count { result ≡ one_if (zone == 0) }
    ensures most { result ≤ 1 }
{
    if zone == 0 { 1 } else { 0 }
}

/// How many of the places of a level, from one up to another, are holes.
fn holes<B: Blocks>(
    blocks: &mut B,
    geometry: &Geometry,
    inode: &Inode,
    level: u32,
    from: u32,
    end: u32,
) -> Result<u32, Cut>
    requires on { IsOn B.world geometry.now blocks.old }
    requires level { level < 4 }
    requires order { from ≤ end }
    ensures reads { Reads B.world blocks.old blocks.new
        (λ d. IfOk result (λ x. x ≡ holes geometry.now (pieces geometry.now d) inode.now level from end)) }
    ensures within { IfOk result (λ x. x ≤ end - from) }
    ensures cut { IfErr result (λ c. B.world.over blocks.new c) }
{
    let mut holes = 0;
    for place in from..end {
        let zone = find(blocks, geometry, inode, level, place)?;
        holes += count_of(zone);
    }
    Ok(holes)
}

/// How many zones more are needed of a level and of those above it, where the places from one up to another have zones too.
fn need_at<B: Blocks>(
    blocks: &mut B,
    geometry: &Geometry,
    inode: &Inode,
    level: u32,
    from: u32,
    end: u32,
) -> Result<u32, Cut>
    requires on { IsOn B.world geometry.now blocks.old }
    requires level { level < 4 }
    requires order { from < end }
    requires end { end ≤ place_count geometry.now level }
    requires few { end - from ≤ 2097152 }
    ensures reads { Reads B.world blocks.old blocks.new
        (λ d. IfOk result (λ x. NeedsAt geometry.now (pieces geometry.now d) inode.now level from end x)) }
    ensures within { IfOk result (λ x. x ≤ (4 - level) * (end - from)) }
    ensures cut { IfErr result (λ c. B.world.over blocks.new c) }
{
    let here = holes(blocks, geometry, inode, level, from, end)?;
    let first = first_places(level);
    if end <= first {
        return Ok(here);
    }
    if level == 3 {
        return Ok(here);
    }
    let width = numbers_in_zone(geometry);
    let low = from.saturating_sub(first) / width;
    let high = (end - 1 - first) / width;
    let above = need_at(blocks, geometry, inode, level + 1, low, high + 1)?;
    Ok(here + above)
}

/// How many zones more a file takes, its indirect blocks among them, when so many of its pages from the first one on are held too.
/// None that it holds is counted again. The pages are those of a file of at most 2147483647 bytes. Nothing is changed.
pub fn need<B: Blocks>(
    blocks: &mut B,
    geometry: &Geometry,
    inode: &Inode,
    first: u32,
    count: u32,
) -> Result<u32, Cut>
    requires on { IsOn B.world geometry.now blocks.old }
    requires pages { first + count ≤ 2097152 }
    ensures reads { Reads B.world blocks.old blocks.new
        (λ d. IfOk result (λ x. NeedsMore geometry.now (pieces geometry.now d) inode.now first (first + count) x)) }
    ensures within { IfOk result (λ x. x ≤ 4 * count) }
    ensures cut { IfErr result (λ c. B.world.over blocks.new c) }
{
    if count == 0 {
        return Ok(0);
    }
    need_at(blocks, geometry, inode, 0, first, first + count)
}
