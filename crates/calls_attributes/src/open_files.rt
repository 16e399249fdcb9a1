//! The calls on open files that change no node.

ghost use Rattle.std.specs.Prelude.{◌≡◌, ◌≢◌, ◌<◌, IfErr, OnOk};
ghost use Rattle.tree.specs.Tree.{Tree, most_sessions};
ghost use Rattle.tree.specs.FileCalls.{dup, fstat};
ghost use Rattle.tree.specs.Answers.{answer_of, refused};
ghost use Rattle.descriptors.specs.Files.{HasFiles};
ghost use Rattle.descriptors.specs.Table.{files_of};
ghost use Rattle.block_store.specs.World.{Turns};
ghost use Rattle.block_store.specs.Volume.{IsOn};
ghost use Rattle.block_store.specs.Halts.{IsHalt};
ghost use Rattle.layout.specs.declared.Geometry.{Geometry};
ghost use Rattle.volume.specs.Reading.{Disk};
ghost use Rattle.calls_attributes.specs.Does.{Does, Meets};

use crate::found::find;
use block_store::{Blocks, Halt};
use descriptors::Descriptors;
use errno::Errno;
use inode::attributes;
use layout::Geometry;
use tree::Reply;

/// fstat: the attributes of the node of an open file. EBADF where the descriptor leads to none.
pub fn fstat<B: Blocks>(
    blocks: &mut B,
    opens: &Descriptors,
    geometry: &Geometry,
    session: u8,
    fd: u32,
    reply: &mut Reply,
) -> Result<(), Halt>
    requires on { IsOn B.world geometry.now blocks.old }
    requires session { session < most_sessions }
    ensures turns { let f = files_of opens.now in Turns B.world blocks.old blocks.new (λ d e.
        Meets geometry.now (λ t. fstat t session fd) result reply.new (HasFiles f) (HasFiles f) d e) }
    ensures looks { B.world.looks blocks.old blocks.new }
    ensures halt { IfErr result (λ h. IsHalt B.world blocks.new h) }
    ensures proper { OnOk result (answer_of reply.new ≢ refused Errno.EIO) }
{
    match find(blocks, opens, geometry, session, fd)? {
        None => {
            *reply = Reply::Refused(Errno::EBADF);
            Ok(())
        }
        Some(file) => {
            *reply = Reply::Inode(attributes(&file.inode, file.number));
            Ok(())
        }
    }
}

/// dup: the lowest free descriptor leads to the same open file then. EBADF where the descriptor leads to none, else EMFILE where the
/// session has no free one.
pub fn dup(opens: &mut Descriptors, session: u8, fd: u32, reply: &mut Reply)
    requires session { session < most_sessions }
    ensures does { (g : Geometry) (d e : Disk) → e ≡ d
        → Does g (λ t. dup t session fd) (answer_of reply.new) (HasFiles (files_of opens.old)) (HasFiles (files_of opens.new)) d e }
    ensures proper { answer_of reply.new ≢ refused Errno.EIO }
{
    match opens.dup(session, fd) {
        Ok(other) => *reply = Reply::Descriptor(other),
        Err(refusal) => *reply = Reply::Refused(refusal),
    }
}
