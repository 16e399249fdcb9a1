//! The body of each call.

ghost use Rattle.std.specs.Prelude.{◌≡◌, ◌≢◌, ℕ, IfErr, OnOk, IsTrue};
ghost use Rattle.tree.specs.declared.Call.TheVariants.{Dup};
ghost use Rattle.tree.specs.Answers.{answer_of, refused};
ghost use Rattle.records.specs.Legal.{is_success, is_sync};
ghost use Rattle.descriptors.specs.Table.{files_of};
ghost use Rattle.block_store.specs.World.{Turns};
ghost use Rattle.block_store.specs.Volume.{IsOn};
ghost use Rattle.block_store.specs.Halts.{IsHalt};
ghost use Rattle.tree.specs.Effects.{user_of};
ghost use Rattle.client_calls.specs.Calls.{DoesCall, MeetsCall, OnlyLooks};

use block_store::{Blocks, Cut, Halt};
use calls_attributes::{chmod, chown, dup, fstat, lstat, readlink, stat, statfs, sync, utime};
use calls_files::{close, read, readdir, seek, truncate, write};
use calls_rename::calls_names::{link, mkdir, open, rmdir, symlink, unlink};
use calls_rename::rename;
use descriptors::Descriptors;
use errno::Errno;
use layout::Geometry;
use path::NameCache;
use std::alloc::Global;
use tree::{Call, MAX_SESSIONS, Reply, User, Who};

/// The user who calls.
fn user_of(who: Who) -> User
    ensures { result ≡ user_of who }
{
    User {
        uid: who.uid,
        gid: who.gid,
    }
}

/// The call by its kind, whose reply goes to `reply`.
fn perform<B: Blocks>(
    alloc: Global,
    blocks: &mut B,
    names: &mut NameCache,
    opens: &mut Descriptors,
    geometry: &Geometry,
    who: Who,
    now: u32,
    call: &Call,
    reply: &mut Reply,
) -> Result<(), Halt>
    requires on { IsOn B.world geometry.now blocks.old }
    ensures turns { Turns B.world blocks.old blocks.new (λ d e.
        MeetsCall geometry.now who now call.now result reply.new (files_of opens.old) (files_of opens.new) d e) }
    ensures synced { OnOk result (IsTrue (is_sync call.now) → IsTrue (is_success (answer_of reply.new)) → B.world.synced blocks.new) }
    ensures looks { OnlyLooks B.world geometry.now who call.now (files_of opens.old) blocks.old blocks.new }
    ensures still { (fd : ℕ) → call.now ≡ Dup fd → blocks.new ≡ blocks.old }
    ensures halt { IfErr result (λ h. IsHalt B.world blocks.new h) }
    ensures proper { OnOk result (answer_of reply.new ≢ refused Errno.EIO) }
{
    if who.session >= MAX_SESSIONS {
        *reply = Reply::Refused(Errno::EINVAL);
        return Ok(());
    }
    let session = who.session;
    let user = user_of(who);
    match *call {
        Call::Open { path, flags, mode } => {
            open(
                blocks, names, opens, geometry, user, now, session, path, flags, mode, reply,
            )
        }
        Call::Close { fd } => close(blocks, opens, geometry, session, fd, reply),
        Call::Dup { fd } => {
            dup(opens, session, fd, reply);
            Ok(())
        }
        Call::Read { fd, count } => read(alloc, blocks, opens, geometry, session, fd, count, reply),
        Call::Seek { fd, whence, offset } => {
            seek(blocks, opens, geometry, session, fd, whence, offset, reply)
        }
        Call::Stat { path } => stat(blocks, names, geometry, user, path, reply),
        Call::Fstat { fd } => fstat(blocks, opens, geometry, session, fd, reply),
        Call::Unlink { path } => unlink(blocks, names, opens, geometry, user, now, path, reply),
        Call::Rmdir { path } => rmdir(blocks, names, opens, geometry, user, now, path, reply),
        Call::Chmod { path, mode } => chmod(blocks, names, geometry, user, now, path, mode, reply),
        Call::Chown { path, uid, gid } => chown(
            blocks, names, geometry, user, now, path, uid, gid, reply,
        ),
        Call::Utime { path, atime, mtime } => {
            utime(
                blocks, names, geometry, user, now, path, atime, mtime, reply,
            )
        }
        Call::Readdir { fd } => readdir(alloc, blocks, opens, geometry, session, fd, reply),
        Call::Sync => sync(blocks, geometry, reply),
        Call::Statfs => statfs(blocks, geometry, reply),
        Call::Write { fd, bytes } => write(blocks, opens, geometry, now, session, fd, bytes, reply),
        Call::Truncate { path, size } => truncate(
            blocks, names, geometry, user, now, path, size, reply,
        ),
        Call::Link { old, new } => link(blocks, names, geometry, user, now, old, new, reply),
        Call::Mkdir { path, mode } => mkdir(blocks, names, geometry, user, now, path, mode, reply),
        Call::Rename { old, new } => rename(
            blocks, names, opens, geometry, user, now, old, new, reply,
        ),
        Call::Symlink { target, path } => symlink(
            blocks, names, geometry, user, now, target, path, reply,
        ),
        Call::Readlink { path } => readlink(blocks, names, geometry, user, path, reply),
        Call::Lstat { path } => lstat(blocks, names, geometry, user, path, reply),
    }
}

/// What a call on a volume that isn't sound is answered.
#[cold]
#[inline(never)]
fn refuse(reply: &mut Reply)
    ensures { answer_of reply.new ≡ refused Errno.EINVAL }
{
    *reply = Reply::Refused(Errno::EINVAL);
}

/// Does a client call, whose reply goes to `reply`. EINVAL where the session isn't one that may be, before anything else is looked at. EIO
/// is never answered, and after a sync that succeeded all that was changed is written. A volume that turns out not to be sound holds no
/// tree; the call is refused with EINVAL then. Read and readdir take memory for their answer, and no other call takes any.
pub fn body<B: Blocks>(
    alloc: Global,
    blocks: &mut B,
    names: &mut NameCache,
    opens: &mut Descriptors,
    geometry: &Geometry,
    who: Who,
    now: u32,
    call: &Call,
    reply: &mut Reply,
) -> Result<(), Cut>
    requires on { IsOn B.world geometry.now blocks.old }
    ensures turns { Turns B.world blocks.old blocks.new (λ d e. OnOk result
        (DoesCall geometry.now who now call.now (answer_of reply.new) (files_of opens.old) (files_of opens.new) d e)) }
    ensures synced { OnOk result (IsTrue (is_sync call.now) → IsTrue (is_success (answer_of reply.new)) → B.world.synced blocks.new) }
    ensures looks { OnlyLooks B.world geometry.now who call.now (files_of opens.old) blocks.old blocks.new }
    ensures still { (fd : ℕ) → call.now ≡ Dup fd → blocks.new ≡ blocks.old }
    ensures cut { IfErr result (λ c. B.world.over blocks.new c) }
    ensures proper { OnOk result (answer_of reply.new ≢ refused Errno.EIO) }
{
    match perform(alloc, blocks, names, opens, geometry, who, now, call, reply) {
        Ok(()) => Ok(()),
        Err(Halt::Cut(cut)) => Err(cut),
        Err(Halt::Unsound) => {
            refuse(reply);
            Ok(())
        }
    }
}
