//! The call that gives a file a name more.

ghost use Rattle.std.specs.Prelude.{◌≡◌, ◌≢◌, ◌≤◌, IfErr, IfOk, OnOk, IsTrue, length, true};
ghost use Rattle.tree.specs.Answers.{answer_of, refused};
ghost use Rattle.tree.specs.NameCalls.{link};
ghost use Rattle.tree.specs.Walk.{has_last_name, last_part};
ghost use Rattle.volume.specs.Pieces.{pieces};
ghost use Rattle.volume.specs.Reading.{is_inode};
ghost use Rattle.descriptors.specs.Files.{Files, HasFiles};
ghost use Rattle.block_store.specs.World.{Reads, Turns};
ghost use Rattle.block_store.specs.Volume.{IsOn};
ghost use Rattle.block_store.specs.Halts.{Ends, IsHalt};
ghost use Rattle.calls_attributes.specs.Does.{Meets};
ghost use Rattle.calls_names.specs.Names.{IsVolume};
ghost use Rattle.calls_names.specs.Linking.{FindsFile, FindsFree, IsLast, IsRoomFor};

use crate::named::{are_bytes, may_write, place_of};
use block_store::{Blocks, Halt};
use calls_attributes::found::is_directory;
use calls_attributes::last::walk_to_last;
use directory::insert;
use errno::Errno;
use file::file_room::has_room;
use inode::inode_table::load;
use inode_operations::add_link;
use layout::Geometry;
use path::{NameCache, Path};
use tree::{MAX_LINKS, MAX_SIZE, PathFrom, Reply, User};

/// A place for a name more.
#[derive(Drop)]
pub(crate) struct Free<'a> {
    /// The directory.
    pub directory: u32,
    /// And its size in bytes, where the entry will stand.
    pub size: u32,
    pub name: &'a [u8],
}

/// The number of the file to which a path leads, which may have a link more; of a symbolic link that stands last its own. In this order:
/// the refusals of the walk, ENOENT where the last name is missing, EPERM of a directory, EMLINK.
fn find_file<B: Blocks>(
    blocks: &mut B,
    names: &mut NameCache,
    geometry: &Geometry,
    user: User,
    path: &Path,
) -> Result<Result<u32, Errno>, Halt>
    requires on { IsOn B.world geometry.now blocks.old }
    ensures reads { Reads B.world blocks.old blocks.new (λ d. Ends result
        (λ r. FindsFile geometry.now d user path.now r) (IsVolume geometry.now d)) }
    ensures halt { IfErr result (λ h. IsHalt B.world blocks.new h) }
    ensures proper { IfOk result (λ r. IfErr r (λ e. e ≢ Errno.EIO)) }
{
    let number = match walk_to_last(blocks, names, geometry, user, path)? {
        Ok(number) => number,
        Err(errno) => return Ok(Err(errno)),
    };
    let inode = load(blocks, geometry, number)?;
    if is_directory(&inode) {
        return Ok(Err(Errno::EPERM));
    }
    if inode.links >= MAX_LINKS {
        return Ok(Err(Errno::EMLINK));
    }
    Ok(Ok(number))
}

/// The place where a path's last name is missing. In this order: the refusals of the walk there, EEXIST where it is taken, EACCES of a
/// directory that the user may not write.
fn find_free<'a, B: Blocks>(
    blocks: &mut B,
    names: &mut NameCache,
    geometry: &Geometry,
    user: User,
    path: &Path<'a>,
) -> Result<Result<Free<'a>, Errno>, Halt>
    requires on { IsOn B.world geometry.now blocks.old }
    ensures reads { Reads B.world blocks.old blocks.new (λ d. Ends result
        (λ r. FindsFree geometry.now d user path.now r) (IsVolume geometry.now d)) }
    ensures last { IfOk result (λ r. IfOk r (λ x. IsLast path.now x.name.now)) }
    ensures halt { IfErr result (λ h. IsHalt B.world blocks.new h) }
    ensures proper { IfOk result (λ r. IfErr r (λ e. e ≢ Errno.EIO)) }
{
    let place = match place_of(blocks, names, geometry, user, path)? {
        Ok(place) => place,
        Err(errno) => return Ok(Err(errno)),
    };
    if !path.has_last_name() {
        return Ok(Err(Errno::EEXIST));
    }
    if place.there.is_some() {
        return Ok(Err(Errno::EEXIST));
    }
    if !may_write(user, &place.inode) {
        return Ok(Err(Errno::EACCES));
    }
    Ok(Ok(Free {
        directory: place.directory,
        size: place.inode.size,
        name: path.last(),
    }))
}

/// Whether there is room for the name: zones enough for its entry, and a directory that isn't as long as a file may be.
fn has_room_for<B: Blocks>(blocks: &mut B, geometry: &Geometry, free: &Free) -> Result<bool, Halt>
    requires on { IsOn B.world geometry.now blocks.old }
    ensures reads { Reads B.world blocks.old blocks.new (λ d. Ends result
        (λ room. IsRoomFor geometry.now (pieces geometry.now d) free.now room) (IsTrue (is_inode geometry.now free.now.directory))) }
    ensures halt { IfErr result (λ h. IsHalt B.world blocks.new h) }
{
    if free.size > MAX_SIZE - 64 {
        return Ok(false);
    }
    has_room(blocks, geometry, free.directory, free.size, 64)
}

/// link: a file has a name more. In this order: the refusals of the old path and of the new, those of the walk to the file, EPERM of a
/// directory, EMLINK, those of the walk to the place, EEXIST where it is taken, EACCES of a directory that the user may not write, ENOSPC.
pub fn link<B: Blocks>(
    blocks: &mut B,
    names: &mut NameCache,
    geometry: &Geometry,
    user: User,
    now: u32,
    old: PathFrom,
    new: PathFrom,
    reply: &mut Reply,
) -> Result<(), Halt>
    requires on { IsOn B.world geometry.now blocks.old }
    ensures turns { Turns B.world blocks.old blocks.new (λ d e. (f : Files) →
        Meets geometry.now (λ t. link geometry.now t user now old.entry new.entry) result reply.new (HasFiles f) (HasFiles f) d e) }
    ensures halt { IfErr result (λ h. IsHalt B.world blocks.new h) }
    ensures proper { OnOk result (answer_of reply.new ≢ refused Errno.EIO) }
{
    are_bytes(new.bytes);
    let from = match Path::parse(old) {
        Ok(path) => path,
        Err(errno) => {
            *reply = Reply::Refused(errno);
            return Ok(());
        }
    };
    let to = match Path::parse(new) {
        Ok(path) => path,
        Err(errno) => {
            *reply = Reply::Refused(errno);
            return Ok(());
        }
    };
    let number = match find_file(blocks, names, geometry, user, &from)? {
        Ok(number) => number,
        Err(errno) => {
            *reply = Reply::Refused(errno);
            return Ok(());
        }
    };
    let free = match find_free(blocks, names, geometry, user, &to)? {
        Ok(free) => free,
        Err(errno) => {
            *reply = Reply::Refused(errno);
            return Ok(());
        }
    };
    if !has_room_for(blocks, geometry, &free)? {
        *reply = Reply::Refused(Errno::ENOSPC);
        return Ok(());
    }
    add_link(blocks, geometry, number, now)?;
    insert(blocks, geometry, free.directory, free.name, number, now)?;
    *reply = Reply::Done;
    Ok(())
}
