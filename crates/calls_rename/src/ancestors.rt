//! Which directories a directory lies below, over any blocks. No memory is taken.

ghost use Rattle.std.specs.Prelude.{◌≡◌, ◌≤◌, ◌<◌, IfErr};
ghost use Rattle.block_store.specs.Halts.{Ends, IsHalt};
ghost use Rattle.block_store.specs.Volume.{IsOn};
ghost use Rattle.block_store.specs.World.{Reads};
ghost use Rattle.calls_rename.specs.Within.{HoldsDirectory, SaysWithin};

use block_store::{Blocks, Halt};
use directory::parent;
use inode::inode_table::load;
use layout::Geometry;

/// The number of the root's inode.
const ROOT: u32 = 1;

/// Whether a directory is another, `top`, or lies below it: the entries `..` are followed up to the root, and never more of them than there
/// are inodes and one. Unsound only where the volume isn't sound, or the number is no directory's.
pub fn is_within<B: Blocks>(
    blocks: &mut B,
    geometry: &Geometry,
    number: u32,
    top: u32,
) -> Result<bool, Halt>
    requires on { IsOn B.world geometry.now blocks.old }
    ensures reads { Reads B.world blocks.old blocks.new (λ d. Ends result
        (λ x. SaysWithin geometry.now d number top x) (HoldsDirectory geometry.now d number)) }
    ensures halt { IfErr result (λ h. IsHalt B.world blocks.new h) }
{
    let mut here = number;
    let mut steps = 0;
    while steps <= geometry.inodes {
        if here == top {
            return Ok(true);
        }
        if here == ROOT {
            return Ok(false);
        }
        let inode = load(blocks, geometry, here)?;
        here = parent(blocks, geometry, &inode)?;
        steps += 1;
    }
    Ok(false)
}
