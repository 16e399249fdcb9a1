//! The calls on a symbolic link that stands last in its path.

ghost use Rattle.std.specs.Prelude.{◌≡◌, ◌≢◌, IfOk, IfErr, OnOk, length};
ghost use Rattle.tree.specs.Tree.{most_target};
ghost use Rattle.tree.specs.NodeCalls.{lstat, readlink};
ghost use Rattle.tree.specs.Answers.{answer_of, refused};
ghost use Rattle.volume.specs.Nodes.{file_of};
ghost use Rattle.volume.specs.Pieces.{pieces};
ghost use Rattle.file.specs.Reading.{HasFileBytes, read_count};
ghost use Rattle.descriptors.specs.Files.{Files, HasFiles};
ghost use Rattle.block_store.specs.World.{Reads, Turns};
ghost use Rattle.block_store.specs.Volume.{IsOn};
ghost use Rattle.block_store.specs.Halts.{IsHalt};
ghost use Rattle.calls_attributes.specs.Does.{Meets};

use crate::found::is_link;
use crate::last::find_last;
use block_store::{Blocks, Cut, Halt};
use errno::Errno;
use file::file_pages::reading::read_at;
use inode::attributes;
use layout::Geometry;
use path::NameCache;
use tree::{LinkTarget, MAX_TARGET, PathFrom, Reply, User};
use volume::Inode;

/// lstat: the attributes of the node to which a path leads, of a symbolic link that stands last its own.
pub fn lstat<B: Blocks>(
    blocks: &mut B,
    names: &mut NameCache,
    geometry: &Geometry,
    user: User,
    path: PathFrom,
    reply: &mut Reply,
) -> Result<(), Halt>
    requires on { IsOn B.world geometry.now blocks.old }
    ensures turns { Turns B.world blocks.old blocks.new (λ d e. (f : Files) →
        Meets geometry.now (λ t. lstat t user path.entry) result reply.new (HasFiles f) (HasFiles f) d e) }
    ensures looks { B.world.looks blocks.old blocks.new }
    ensures halt { IfErr result (λ h. IsHalt B.world blocks.new h) }
    ensures proper { OnOk result (answer_of reply.new ≢ refused Errno.EIO) }
{
    match find_last(blocks, names, geometry, user, path)? {
        Ok((number, inode)) => {
            if number > 65535 {
                return Err(Halt::Unsound);
            }
            *reply = Reply::Inode(attributes(&inode, number as u16));
            Ok(())
        }
        Err(errno) => {
            *reply = Reply::Refused(errno);
            Ok(())
        }
    }
}

/// The first 1023 bytes of the file of an inode, or all where there are fewer.
fn target<B: Blocks>(blocks: &mut B, geometry: &Geometry, inode: &Inode) -> Result<LinkTarget, Cut>
    requires on { IsOn B.world geometry.now blocks.old }
    ensures reads { Reads B.world blocks.old blocks.new (λ d. IfOk result (λ x.
        HasFileBytes (file_of geometry.now (pieces geometry.now d) inode.now) 0 x.length x.bytes)) }
    ensures count { IfOk result (λ x. x.length ≡ read_count inode.now.size 0 most_target) }
    ensures room { IfOk result (λ x. length x.bytes ≡ most_target) }
    ensures cut { IfErr result (λ c. B.world.over blocks.new c) }
{
    let mut bytes = [0; MAX_TARGET];
    let length = read_at(blocks, geometry, inode, 0, &mut bytes)?;
    Ok(LinkTarget { bytes, length })
}

/// readlink: the target of the symbolic link to which a path leads. The refusals of the path, else EINVAL of what is no link.
pub fn readlink<B: Blocks>(
    blocks: &mut B,
    names: &mut NameCache,
    geometry: &Geometry,
    user: User,
    path: PathFrom,
    reply: &mut Reply,
) -> Result<(), Halt>
    requires on { IsOn B.world geometry.now blocks.old }
    ensures turns { Turns B.world blocks.old blocks.new (λ d e. (f : Files) →
        Meets geometry.now (λ t. readlink t user path.entry) result reply.new (HasFiles f) (HasFiles f) d e) }
    ensures looks { B.world.looks blocks.old blocks.new }
    ensures halt { IfErr result (λ h. IsHalt B.world blocks.new h) }
    ensures proper { OnOk result (answer_of reply.new ≢ refused Errno.EIO) }
{
    match find_last(blocks, names, geometry, user, path)? {
        Ok((_, inode)) => {
            if !is_link(&inode) {
                *reply = Reply::Refused(Errno::EINVAL);
                return Ok(());
            }
            *reply = Reply::Target(target(blocks, geometry, &inode)?);
            Ok(())
        }
        Err(errno) => {
            *reply = Reply::Refused(errno);
            Ok(())
        }
    }
}
