//! Where walks begin.

ghost use Rattle.std.specs.Prelude.{◌≡◌, ◌≢◌, IfErr, IfOk};
ghost use Rattle.block_store.specs.Volume.{IsOn};
ghost use Rattle.block_store.specs.World.{Reads};
ghost use Rattle.tree.specs.Tree.{Tree};
ghost use Rattle.volume.specs.Holds.{Holds};
ghost use Rattle.volume.specs.Nodes.{is_marked};
ghost use Rattle.volume.specs.Pieces.{pieces};
ghost use Rattle.path.specs.Stops.{Answers, IsStop, IfRefused};
ghost use Rattle.path.specs.Walking.{Begins};

use crate::stop::Stop;
use bitmap::{Map, is_set};
use block_store::{Blocks, Cut};
use errno::Errno;
use layout::Geometry;
use tree::{Start, User};

/// The number of the root's inode.
pub(crate) const ROOT: u32 = 1;

/// Whether a node has the number: it is one of the volume's, from 1 on, and in the inode map.
fn is_marked<B: Blocks>(blocks: &mut B, geometry: &Geometry, number: u32) -> Result<bool, Cut>
    requires on { IsOn B.world geometry.now blocks.old }
    ensures reads { Reads B.world blocks.old blocks.new (λ d. IfOk result (λ x.
        x ≡ is_marked geometry.now (pieces geometry.now d) number)) }
    ensures cut { IfErr result (λ c. B.world.over blocks.new c) }
{
    if number == 0 || number > geometry.inodes {
        return Ok(false);
    }
    is_set(blocks, geometry, Map::Inodes, number)
}

/// The inode where a walk begins: the root, or for user 0 the one of this number. EACCES for another user, and then ENOENT where no
/// node has the number.
pub(crate) fn first_node<B: Blocks>(
    blocks: &mut B,
    geometry: &Geometry,
    user: User,
    start: Start,
) -> Result<u32, Stop>
    requires on { IsOn B.world geometry.now blocks.old }
    ensures reads { Reads B.world blocks.old blocks.new (λ d. (t : Tree) → Holds geometry.now d t → Answers result (Begins t user start)) }
    ensures stop { IfErr result (λ s. IsStop B.world blocks.new s) }
    ensures proper { IfErr result (λ s. IfRefused s (λ e. e ≢ Errno.EIO)) }
{
    let Start::Inode(number) = start else {
        return Ok(ROOT);
    };
    if user.uid != 0 {
        return Err(Stop::Refused(Errno::EACCES));
    }
    let number = u32::from(number);
    let marked = is_marked(blocks, geometry, number)?;
    if !marked {
        return Err(Stop::Refused(Errno::ENOENT));
    }
    Ok(number)
}
