//! The calls on the attributes of a node.

ghost use Rattle.std.specs.Prelude.{◌≡◌, ◌≢◌, ℕ, IfErr, OnOk};
ghost use Rattle.tree.specs.Tree.{Tree};
ghost use Rattle.tree.specs.Answers.{answer_of, refused};
ghost use Rattle.tree.specs.NodeCalls.{stat, chmod, chown, utime};
ghost use Rattle.descriptors.specs.Files.{Files, HasFiles};
ghost use Rattle.block_store.specs.World.{Turns};
ghost use Rattle.block_store.specs.Volume.{IsOn};
ghost use Rattle.block_store.specs.Halts.{IsHalt};
ghost use Rattle.calls_attributes.specs.Does.{Meets};

use crate::named::find_node;
use block_store::{Blocks, Halt};
use errno::Errno;
use inode::attributes;
use inode::inode_table::store;
use layout::Geometry;
use path::{NameCache, is_owner};
use tree::{MAX_PERMISSIONS, PathFrom, Reply, User};

/// stat: the attributes of the node to which a path leads.
pub fn stat<B: Blocks>(
    blocks: &mut B,
    names: &mut NameCache,
    geometry: &Geometry,
    user: User,
    path: PathFrom,
    reply: &mut Reply,
) -> Result<(), Halt>
    requires on { IsOn B.world geometry.now blocks.old }
    ensures turns { Turns B.world blocks.old blocks.new (λ d e. (f : Files) →
        Meets geometry.now (λ t. stat t user path.entry) result reply.new (HasFiles f) (HasFiles f) d e) }
    ensures looks { B.world.looks blocks.old blocks.new }
    ensures halt { IfErr result (λ h. IsHalt B.world blocks.new h) }
    ensures proper { OnOk result (answer_of reply.new ≢ refused Errno.EIO) }
{
    match find_node(blocks, names, geometry, user, path)? {
        Ok((number, inode)) => {
            if number > 65535 {
                return Err(Halt::Unsound);
            }
            *reply = Reply::Inode(attributes(&inode, number as u16));
            Ok(())
        }
        Err(errno) => {
            *reply = Reply::Refused(errno);
            Ok(())
        }
    }
}

/// chmod: the permissions of a node, whose type stays. EINVAL of other bits, EPERM of a user who neither owns the node nor is user 0.
pub fn chmod<B: Blocks>(
    blocks: &mut B,
    names: &mut NameCache,
    geometry: &Geometry,
    user: User,
    now: u32,
    path: PathFrom,
    mode: u16,
    reply: &mut Reply,
) -> Result<(), Halt>
    requires on { IsOn B.world geometry.now blocks.old }
    ensures turns { Turns B.world blocks.old blocks.new (λ d e. (f : Files) →
        Meets geometry.now (λ t. chmod t user now path.entry mode) result reply.new (HasFiles f) (HasFiles f) d e) }
    ensures halt { IfErr result (λ h. IsHalt B.world blocks.new h) }
    ensures proper { OnOk result (answer_of reply.new ≢ refused Errno.EIO) }
{
    if mode > MAX_PERMISSIONS {
        *reply = Reply::Refused(Errno::EINVAL);
        return Ok(());
    }
    match find_node(blocks, names, geometry, user, path)? {
        Ok((number, mut inode)) => {
            if !is_owner(user, inode.uid) {
                *reply = Reply::Refused(Errno::EPERM);
                return Ok(());
            }
            inode.mode = inode.mode / 4096 * 4096 + mode;
            inode.ctime = now;
            store(blocks, geometry, number, &inode)?;
            *reply = Reply::Done;
            Ok(())
        }
        Err(errno) => {
            *reply = Reply::Refused(errno);
            Ok(())
        }
    }
}

/// chown: the owner and the group of a node. EPERM of any user but 0.
pub fn chown<B: Blocks>(
    blocks: &mut B,
    names: &mut NameCache,
    geometry: &Geometry,
    user: User,
    now: u32,
    path: PathFrom,
    uid: u16,
    gid: u16,
    reply: &mut Reply,
) -> Result<(), Halt>
    requires on { IsOn B.world geometry.now blocks.old }
    ensures turns { Turns B.world blocks.old blocks.new (λ d e. (f : Files) →
        Meets geometry.now (λ t. chown t user now path.entry uid gid) result reply.new (HasFiles f) (HasFiles f) d e) }
    ensures halt { IfErr result (λ h. IsHalt B.world blocks.new h) }
    ensures proper { OnOk result (answer_of reply.new ≢ refused Errno.EIO) }
{
    match find_node(blocks, names, geometry, user, path)? {
        Ok((number, mut inode)) => {
            if user.uid != 0 {
                *reply = Reply::Refused(Errno::EPERM);
                return Ok(());
            }
            inode.uid = uid;
            inode.gid = gid;
            inode.ctime = now;
            store(blocks, geometry, number, &inode)?;
            *reply = Reply::Done;
            Ok(())
        }
        Err(errno) => {
            *reply = Reply::Refused(errno);
            Ok(())
        }
    }
}

/// utime: the times of a node as given, and that of its attributes `now`. EPERM of a user who neither owns the node nor is user 0.
pub fn utime<B: Blocks>(
    blocks: &mut B,
    names: &mut NameCache,
    geometry: &Geometry,
    user: User,
    now: u32,
    path: PathFrom,
    atime: u32,
    mtime: u32,
    reply: &mut Reply,
) -> Result<(), Halt>
    requires on { IsOn B.world geometry.now blocks.old }
    ensures turns { Turns B.world blocks.old blocks.new (λ d e. (f : Files) →
        Meets geometry.now (λ t. utime t user now path.entry atime mtime) result reply.new (HasFiles f) (HasFiles f) d e) }
    ensures halt { IfErr result (λ h. IsHalt B.world blocks.new h) }
    ensures proper { OnOk result (answer_of reply.new ≢ refused Errno.EIO) }
{
    match find_node(blocks, names, geometry, user, path)? {
        Ok((number, mut inode)) => {
            if !is_owner(user, inode.uid) {
                *reply = Reply::Refused(Errno::EPERM);
                return Ok(());
            }
            inode.atime = atime;
            inode.mtime = mtime;
            inode.ctime = now;
            store(blocks, geometry, number, &inode)?;
            *reply = Reply::Done;
            Ok(())
        }
        Err(errno) => {
            *reply = Reply::Refused(errno);
            Ok(())
        }
    }
}
