//! The call close.

ghost use Rattle.std.specs.Prelude.{◌≢◌, ◌<◌, IfErr, OnOk, IsTrue};
ghost use Rattle.tree.specs.Tree.{Tree, most_sessions};
ghost use Rattle.tree.specs.FileCalls.{close};
ghost use Rattle.tree.specs.Answers.{answer_of, refused};
ghost use Rattle.volume.specs.Holds.{HoldsVolume};
ghost use Rattle.descriptors.specs.Files.{HasFiles};
ghost use Rattle.descriptors.specs.Table.{files_of};
ghost use Rattle.block_store.specs.World.{Turns};
ghost use Rattle.block_store.specs.Volume.{IsOn};
ghost use Rattle.block_store.specs.Halts.{IsHalt};
ghost use Rattle.calls_attributes.specs.Does.{Meets};
ghost use Rattle.calls_files.specs.Closing.{leaves_node};

use block_store::{Blocks, Halt};
use descriptors::Descriptors;
use errno::Errno;
use inode_operations::lose_node;
use layout::Geometry;
use tree::Reply;

/// close: frees a descriptor. The last one of an open file closes it, and where no name leads to its node and no other open file is of
/// it, the node is freed. EBADF where the descriptor leads to no open file.
pub fn close<B: Blocks>(
    blocks: &mut B,
    opens: &mut Descriptors,
    geometry: &Geometry,
    session: u8,
    fd: u32,
    reply: &mut Reply,
) -> Result<(), Halt>
    requires on { IsOn B.world geometry.now blocks.old }
    requires session { session < most_sessions }
    ensures turns { Turns B.world blocks.old blocks.new (λ d e. Meets geometry.now (λ t. close t session fd) result reply.new
        (HasFiles (files_of opens.old)) (HasFiles (files_of opens.new)) d e) }
    ensures looks { Turns B.world blocks.old blocks.new (λ d e. (t : Tree) → HoldsVolume geometry.now d t → HasFiles (files_of opens.old) t
        → IsTrue (leaves_node t session fd) → B.world.looks blocks.old blocks.new) }
    ensures halt { IfErr result (λ h. IsHalt B.world blocks.new h) }
    ensures proper { OnOk result (answer_of reply.new ≢ refused Errno.EIO) }
{
    match opens.close(session, fd) {
        Ok(Some(inode)) => {
            lose_node(blocks, opens, geometry, u32::from(inode))?;
            *reply = Reply::Done;
            Ok(())
        }
        Ok(None) => {
            *reply = Reply::Done;
            Ok(())
        }
        Err(refusal) => {
            *reply = Reply::Refused(refusal);
            Ok(())
        }
    }
}
