//! The size of a file, changed with the times of the change.

ghost use Rattle.std.specs.Prelude.{◌≤◌, IfErr};
ghost use Rattle.volume.specs.Pieces.{pieces};
ghost use Rattle.block_store.specs.World.{Turns};
ghost use Rattle.block_store.specs.Volume.{IsOn};
ghost use Rattle.block_store.specs.Halts.{Ends, IsHalt};
ghost use Rattle.file.specs.PageChanges.{MayChange};
ghost use Rattle.inode_operations.specs.Sizes.{SetsSizeAt};

use block_store::{Blocks, Halt};
use file::file_pages::changing::{set_size, stamp};
use layout::Geometry;

/// Makes the file of an inode that long, at `now`: what lies past the size is gone, and what is new is a hole. Unsound only where the
/// rules are broken, or the inode isn't marked.
pub fn set_size_at<B: Blocks>(
    blocks: &mut B,
    geometry: &Geometry,
    number: u32,
    size: u32,
    now: u32,
) -> Result<(), Halt>
    requires on { IsOn B.world geometry.now blocks.old }
    requires end { size ≤ 2147483647 }
    ensures turns { Turns B.world blocks.old blocks.new (λ d e. Ends result
        (λ x. SetsSizeAt geometry.now number size now d e) (MayChange geometry.now (pieces geometry.now d) number)) }
    ensures halt { IfErr result (λ h. IsHalt B.world blocks.new h) }
{
    set_size(blocks, geometry, number, size)?;
    stamp(blocks, geometry, number, now)
}
