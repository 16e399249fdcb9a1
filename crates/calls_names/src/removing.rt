//! The calls that take a name away.

ghost use Rattle.std.specs.Prelude.{◌≡◌, ◌≢◌, ◌≤◌, IfErr, OnOk, IfSome};
ghost use Rattle.tree.specs.Answers.{answer_of, refused};
ghost use Rattle.tree.specs.NameCalls.{rmdir, unlink};
ghost use Rattle.descriptors.specs.Files.{HasFiles};
ghost use Rattle.descriptors.specs.Table.{files_of};
ghost use Rattle.block_store.specs.World.{Turns};
ghost use Rattle.block_store.specs.Volume.{IsOn};
ghost use Rattle.block_store.specs.Halts.{Ends, IsHalt};
ghost use Rattle.calls_attributes.specs.Does.{Meets};
ghost use Rattle.calls_names.specs.Names.{why_kept};

use crate::named::{Named, find_name};
use block_store::{Blocks, Halt};
use calls_attributes::found::is_directory;
use descriptors::Descriptors;
use directory::remove;
use errno::Errno;
use inode_operations::{drop_link, free_node, lose_name};
use layout::Geometry;
use path::NameCache;
use tree::{PathFrom, Reply, User};

/// unlink: a file has one name less, and is gone where that was its last and it isn't open; one that is open lives on without a name. In
/// this order: the refusals of the path, EINVAL of one without a last name, those of the walk, ENOENT, EACCES of a directory that the user
/// may not write, EPERM of a directory.
pub fn unlink<B: Blocks>(
    blocks: &mut B,
    names: &mut NameCache,
    opens: &Descriptors,
    geometry: &Geometry,
    user: User,
    now: u32,
    path: PathFrom,
    reply: &mut Reply,
) -> Result<(), Halt>
    requires on { IsOn B.world geometry.now blocks.old }
    ensures turns { let f = files_of opens.now in Turns B.world blocks.old blocks.new (λ d e.
        Meets geometry.now (λ t. unlink t user now path.entry) result reply.new (HasFiles f) (HasFiles f) d e) }
    ensures halt { IfErr result (λ h. IsHalt B.world blocks.new h) }
    ensures proper { OnOk result (answer_of reply.new ≢ refused Errno.EIO) }
{
    match find_name(blocks, names, geometry, user, path)? {
        Ok(named) => {
            if is_directory(&named.inode) {
                *reply = Reply::Refused(Errno::EPERM);
                return Ok(());
            }
            remove(blocks, geometry, named.directory, named.name, now)?;
            lose_name(blocks, opens, geometry, named.number, now)?;
            *reply = Reply::Done;
            Ok(())
        }
        Err(errno) => {
            *reply = Reply::Refused(errno);
            Ok(())
        }
    }
}

/// Why a name may not go with its directory: it is a file's, the directory isn't empty, or it is open.
fn why_kept(opens: &Descriptors, named: &Named) -> Option<Errno>
    ensures kept { named.now.number ≤ 65535 → result ≡ why_kept (files_of opens.now) named.now }
    ensures proper { IfSome result (λ e. e ≢ Errno.EIO) }
{
    if !is_directory(&named.inode) {
        return Some(Errno::ENOTDIR);
    }
    if named.inode.size != 128 {
        return Some(Errno::ENOTEMPTY);
    }
    if named.number <= 65535 && opens.is_open(named.number as u16) {
        return Some(Errno::EBUSY);
    }
    None
}

/// rmdir: an empty directory is gone, with its name, and its parent has a link less. In this order: the refusals of the path, EINVAL of one
/// without a last name, those of the walk, ENOENT, EACCES of a directory that the user may not write, ENOTDIR, ENOTEMPTY, EBUSY of one that
/// is open.
pub fn rmdir<B: Blocks>(
    blocks: &mut B,
    names: &mut NameCache,
    opens: &Descriptors,
    geometry: &Geometry,
    user: User,
    now: u32,
    path: PathFrom,
    reply: &mut Reply,
) -> Result<(), Halt>
    requires on { IsOn B.world geometry.now blocks.old }
    ensures turns { let f = files_of opens.now in Turns B.world blocks.old blocks.new (λ d e.
        Meets geometry.now (λ t. rmdir t user now path.entry) result reply.new (HasFiles f) (HasFiles f) d e) }
    ensures halt { IfErr result (λ h. IsHalt B.world blocks.new h) }
    ensures proper { OnOk result (answer_of reply.new ≢ refused Errno.EIO) }
{
    match find_name(blocks, names, geometry, user, path)? {
        Ok(named) => {
            if let Some(errno) = why_kept(opens, &named) {
                *reply = Reply::Refused(errno);
                return Ok(());
            }
            remove(blocks, geometry, named.directory, named.name, now)?;
            drop_link(blocks, geometry, named.directory, now)?;
            free_node(blocks, geometry, named.number)?;
            *reply = Reply::Done;
            Ok(())
        }
        Err(errno) => {
            *reply = Reply::Refused(errno);
            Ok(())
        }
    }
}
