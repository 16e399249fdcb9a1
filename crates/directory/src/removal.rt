//! Names less.

ghost use Rattle.std.specs.Prelude.{◌≡◌, ◌≤◌, ◌<◌, ◌+◌, ◌*◌, IfErr, IfOk, length};
ghost use Rattle.block_store.specs.Halts.{Ends, IsHalt};
ghost use Rattle.block_store.specs.Volume.{IsOn};
ghost use Rattle.block_store.specs.World.{Turns};
ghost use Rattle.volume.specs.Pieces.{pieces};
ghost use Rattle.directory.specs.Names.{HasName};
ghost use Rattle.directory.specs.Removal.{CopiesLast, Drops, MayDrop, Removes};

use crate::changes::place_of;
use crate::entry;
use block_store::{Blocks, Halt};
use file::file_pages::changing::{set_size, stamp};
use file::write_at;
use inode::inode_table::load;
use layout::Geometry;
use tree::MAX_SIZE;

/// Copies the last entry of a directory over another, and tells its number.
fn copy_last<B: Blocks>(
    blocks: &mut B,
    geometry: &Geometry,
    directory: u32,
    place: u32,
) -> Result<u32, Halt>
    requires on { IsOn B.world geometry.now blocks.old }
    requires within { 64 * place + 64 ≤ 2147483647 }
    ensures turns { Turns B.world blocks.old blocks.new (λ d e. Ends result
        (λ last. CopiesLast geometry.now directory place last d e) (MayDrop geometry.now (pieces geometry.now d) directory place)) }
    ensures low { IfOk result (λ last. 64 * last ≤ 2147483647) }
    ensures halt { IfErr result (λ h. IsHalt B.world blocks.new h) }
{
    let inode = load(blocks, geometry, directory)?;
    let size = inode.size;
    if size < 64 || size > MAX_SIZE {
        return Err(Halt::Unsound);
    }
    let last = size / 64 - 1;
    let bytes = entry(blocks, geometry, &inode, last)?;
    write_at(blocks, geometry, directory, 64 * place, &bytes)?;
    Ok(last)
}

/// Takes an entry away: the last one takes its place, and the directory is 64 bytes shorter.
fn drop_entry<B: Blocks>(
    blocks: &mut B,
    geometry: &Geometry,
    directory: u32,
    place: u32,
) -> Result<(), Halt>
    requires on { IsOn B.world geometry.now blocks.old }
    requires within { 64 * place + 64 ≤ 2147483647 }
    ensures turns { Turns B.world blocks.old blocks.new (λ d e. Ends result
        (λ x. Drops geometry.now directory place d e) (MayDrop geometry.now (pieces geometry.now d) directory place)) }
    ensures halt { IfErr result (λ h. IsHalt B.world blocks.new h) }
{
    let last = copy_last(blocks, geometry, directory, place)?;
    set_size(blocks, geometry, directory, 64 * last)
}

/// Takes a name from a directory: the last entry takes the place of its entry, and the directory is 64 bytes shorter. A page that no
/// entry is left of is let go. Its times become `now`, in seconds. Unsound only where the volume isn't sound, or the directory hasn't the
/// name.
pub fn remove<B: Blocks>(
    blocks: &mut B,
    geometry: &Geometry,
    directory: u32,
    name: &[u8],
    now: u32,
) -> Result<(), Halt>
    requires on { IsOn B.world geometry.now blocks.old }
    requires named { 0 < length name.now }
    ensures turns { Turns B.world blocks.old blocks.new (λ d e. Ends result
        (λ x. Removes geometry.now directory name.now now d e) (HasName geometry.now (pieces geometry.now d) directory name.now)) }
    ensures halt { IfErr result (λ h. IsHalt B.world blocks.new h) }
{
    let place = place_of(blocks, geometry, directory, name)?;
    drop_entry(blocks, geometry, directory, place)?;
    stamp(blocks, geometry, directory, now)
}
