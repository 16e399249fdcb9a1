//! Bytes written into one inode's file, with the times of the change.

ghost use Rattle.std.specs.Prelude.{◌≤◌, ◌<◌, ◌+◌, length, IfErr};
ghost use Rattle.volume.specs.Pieces.{pieces};
ghost use Rattle.block_store.specs.World.{Turns};
ghost use Rattle.block_store.specs.Volume.{IsOn};
ghost use Rattle.block_store.specs.Halts.{Ends, IsHalt};
ghost use Rattle.file.specs.PageChanges.{MayChange};
ghost use Rattle.calls_files.specs.Dated.{WritesIfRoom};

use block_store::{Blocks, Halt};
use file::file_pages::changing::stamp;
use file::file_room::has_room;
use file::write_at;
use layout::Geometry;

/// Writes these bytes into the file of an inode from a place on, at `now`, if there are zones enough for all of them, and says whether
/// there are. Where not, nothing is changed. Unsound only where the rules are broken, or the inode isn't marked.
pub(crate) fn write_if_room<B: Blocks>(
    blocks: &mut B,
    geometry: &Geometry,
    number: u32,
    at: u32,
    bytes: &[u8],
    now: u32,
) -> Result<bool, Halt>
    requires on { IsOn B.world geometry.now blocks.old }
    requires some { 0 < length bytes.now }
    requires end { at + length bytes.now ≤ 2147483647 }
    ensures turns { Turns B.world blocks.old blocks.new (λ d e. Ends result
        (λ x. WritesIfRoom geometry.now number at bytes.now now x d e) (MayChange geometry.now (pieces geometry.now d) number)) }
    ensures halt { IfErr result (λ h. IsHalt B.world blocks.new h) }
{
    if !has_room(blocks, geometry, number, at, bytes.len() as u32)? {
        return Ok(false);
    }
    write_at(blocks, geometry, number, at, bytes)?;
    stamp(blocks, geometry, number, now)?;
    Ok(true)
}
