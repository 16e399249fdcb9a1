//! What a name leads to.

ghost use Rattle.std.specs.Prelude.{◌≡◌, ◌<◌, ◌≤◌, ◌+◌, ◌-◌, ◌*◌, ◌/◌, ℕ, IfErr, IfOk, length, slice_index};
ghost use Rattle.block_store.specs.Rows.{HasBytes};
ghost use Rattle.directory.specs.Scan.{last_placed};
ghost use Rattle.directory.specs.Finding.{FindsEntry, stands_at};
ghost use Rattle.block_store.specs.Halts.{Ends, IsHalt};
ghost use Rattle.block_store.specs.Volume.{IsOn};
ghost use Rattle.block_store.specs.World.{Reads};
ghost use Rattle.volume.specs.Nodes.{directory_of, file_byte};
ghost use Rattle.volume.specs.Pieces.{pieces};

use crate::entries::{Placed, entry_inode, last_named, leads_to};
use block_store::words::read_bytes;
use block_store::{Blocks, Cut, Halt};
use file::zone::numbers::is_data_zone;
use file::zone::places::lookup;
use layout::Geometry;
use volume::Inode;

/// The last entry of a page, from one entry on to another, that has a name. In a page without a data zone no entry has one.
fn find_in_page<B: Blocks>(
    blocks: &mut B,
    geometry: &Geometry,
    inode: &Inode,
    page: u32,
    from: u32,
    to: u32,
    name: &[u8],
) -> Result<Option<Placed>, Cut>
    requires on { IsOn B.world geometry.now blocks.old }
    requires begins { page * (geometry.now.block_size / 64) ≤ from }
    requires order { from ≤ to }
    requires ends { to ≤ page * (geometry.now.block_size / 64) + geometry.now.block_size / 64 }
    requires size { 64 * to ≤ inode.now.size }
    requires named { 0 < length name.now }
    ensures reads { Reads B.world blocks.old blocks.new (λ d. IfOk result (λ x.
        x ≡ last_placed (file_byte geometry.now (pieces geometry.now d) inode.now) name.now from (to - from))) }
    ensures cut { IfErr result (λ c. B.world.over blocks.new c) }
{
    let zone = lookup(blocks, geometry, inode, page)?;
    if !is_data_zone(geometry, zone) {
        return Ok(None);
    }
    let frame = blocks.fetch(zone)?;
    let first = page * (geometry.block_size / 64);
    let bytes = blocks.bytes(frame);
    match last_named(bytes, (from - first) as usize, (to - first) as usize, name) {
        Some(at) => Ok(Some(Placed {
            place: first + at as u32,
            number: entry_inode(bytes, at),
        })),
        None => Ok(None),
    }
}

/// The entry of a directory that has a name, if one has it; where a name stands twice, the one that stands last. Neither `.` nor `..` is
/// asked for here: the first two entries aren't looked at. Any bytes may stand in the directory: each page's zone is looked up once and
/// its block fetched once, from the last page to the first, and no memory is taken.
pub fn find<B: Blocks>(
    blocks: &mut B,
    geometry: &Geometry,
    inode: &Inode,
    name: &[u8],
) -> Result<Option<Placed>, Cut>
    requires on { IsOn B.world geometry.now blocks.old }
    requires named { 0 < length name.now }
    ensures reads { Reads B.world blocks.old blocks.new (λ d. IfOk result (λ x.
        FindsEntry geometry.now (pieces geometry.now d) inode.now name.now x)) }
    ensures cut { IfErr result (λ c. B.world.over blocks.new c) }
{
    let each = geometry.block_size / 64;
    let mut left = inode.size / 64;
    while left > 2 {
        let page = (left - 1) / each;
        let from = (page * each).max(2);
        if let Some(found) = find_in_page(blocks, geometry, inode, page, from, left, name)? {
            return Ok(Some(found));
        }
        left = from;
    }
    Ok(None)
}

/// 64 bytes of zeros.
fn no_entry() -> [u8; 64]
    ensures { (o : ℕ) → slice_index result o ≡ 0 }
{
    [0; 64]
}

/// The 64 bytes of entry k of a directory, which its size covers; `entry_inode` and `entry_name` read them, as entry 0. Entry 1 leads to
/// the parent, and the names follow from entry 2 on. In a page without a data zone they are zeros. No memory is taken.
pub fn entry<B: Blocks>(
    blocks: &mut B,
    geometry: &Geometry,
    inode: &Inode,
    k: u32,
) -> Result<[u8; 64], Cut>
    requires on { IsOn B.world geometry.now blocks.old }
    requires below { 64 * k + 64 ≤ inode.now.size }
    ensures reads { Reads B.world blocks.old blocks.new (λ d. IfOk result (λ bytes.
        HasBytes (64 * k) bytes (file_byte geometry.now (pieces geometry.now d) inode.now))) }
    ensures cut { IfErr result (λ c. B.world.over blocks.new c) }
{
    let each = geometry.block_size / 64;
    let zone = lookup(blocks, geometry, inode, k / each)?;
    let mut bytes = no_entry();
    if !is_data_zone(geometry, zone) {
        return Ok(bytes);
    }
    read_bytes(blocks, zone, 64 * (k % each) as usize, &mut bytes)?;
    Ok(bytes)
}

/// Whether an entry of a directory after its first two still has a name and leads to an inode: as `find` would tell of a directory that
/// has each name once. One block is fetched, beside those in which its number stands.
pub fn stands_at<B: Blocks>(
    blocks: &mut B,
    geometry: &Geometry,
    inode: &Inode,
    name: &[u8],
    known: Placed,
) -> Result<bool, Cut>
    requires on { IsOn B.world geometry.now blocks.old }
    ensures reads { Reads B.world blocks.old blocks.new (λ d. IfOk result (λ x.
        x ≡ stands_at geometry.now (pieces geometry.now d) inode.now name.now known)) }
    ensures cut { IfErr result (λ c. B.world.over blocks.new c) }
{
    if known.place < 2 || known.place >= inode.size / 64 {
        return Ok(false);
    }
    let bytes = entry(blocks, geometry, inode, known.place)?;
    Ok(leads_to(&bytes, 0, name, known.number))
}

/// The directory that holds a directory, which its entry `..` names. Unsound where the directory is shorter than two entries.
pub fn parent<B: Blocks>(blocks: &mut B, geometry: &Geometry, inode: &Inode) -> Result<u32, Halt>
    requires on { IsOn B.world geometry.now blocks.old }
    ensures reads { Reads B.world blocks.old blocks.new (λ d. Ends result
        (λ x. x ≡ (directory_of geometry.now (pieces geometry.now d) inode.now).parent) (128 ≤ inode.now.size)) }
    ensures halt { IfErr result (λ h. IsHalt B.world blocks.new h) }
{
    if inode.size < 128 {
        return Err(Halt::Unsound);
    }
    let bytes = entry(blocks, geometry, inode, 1)?;
    Ok(entry_inode(&bytes, 0))
}
