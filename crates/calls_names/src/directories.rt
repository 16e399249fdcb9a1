//! New directories.

ghost use Rattle.std.specs.Prelude.{◌≢◌, ◌≤◌, IfErr, OnOk};
ghost use Rattle.tree.specs.Tree.{most_permissions};
ghost use Rattle.tree.specs.Answers.{answer_of, done, refused};
ghost use Rattle.tree.specs.NameCalls.{mkdir};
ghost use Rattle.descriptors.specs.Files.{Files, HasFiles};
ghost use Rattle.block_store.specs.Halts.{Ends, IsHalt};
ghost use Rattle.block_store.specs.Volume.{IsOn};
ghost use Rattle.block_store.specs.World.{Turns};
ghost use Rattle.calls_attributes.specs.Does.{Meets};
ghost use Rattle.path.specs.Stops.{IfRefused, IsStop};
ghost use Rattle.calls_names.specs.Making.{MakesDirectoryAt, MayMakeDirectoryAt};
ghost use Rattle.calls_names.specs.Stopping.{MeetsOrStops};

use crate::named::are_bytes;
use crate::vacant::{free_number, vacant_place};
use block_store::{Blocks, Halt};
use directory::insert;
use errno::Errno;
use inode_operations::{add_link, new_directory};
use layout::Geometry;
use path::{NameCache, NamePlace, Stop};
use tree::{MAX_LINKS, MAX_NAME, MAX_PERMISSIONS, PathFrom, Reply, User};

/// Makes a directory at a vacant place: its node, its name, and the link that its `..` is of its parent.
fn put_directory<B: Blocks>(
    blocks: &mut B,
    geometry: &Geometry,
    place: &NamePlace,
    number: u32,
    user: User,
    now: u32,
    mode: u16,
) -> Result<(), Halt>
    requires on { IsOn B.world geometry.now blocks.old }
    requires mode { mode ≤ most_permissions }
    ensures turns { Turns B.world blocks.old blocks.new (λ d e. Ends result
        (λ x. MakesDirectoryAt geometry.now user now mode place.now number d e)
        (MayMakeDirectoryAt geometry.now d place.now number)) }
    ensures halt { IfErr result (λ h. IsHalt B.world blocks.new h) }
{
    if place.name.len() > MAX_NAME {
        return Err(Halt::Unsound);
    }
    new_directory(blocks, geometry, number, place.directory, user, now, mode)?;
    insert(blocks, geometry, place.directory, place.name, number, now)?;
    add_link(blocks, geometry, place.directory, now)
}

/// Makes a directory, or says why not.
fn make<B: Blocks>(
    blocks: &mut B,
    names: &mut NameCache,
    geometry: &Geometry,
    user: User,
    now: u32,
    path: PathFrom,
    mode: u16,
) -> Result<(), Stop>
    requires on { IsOn B.world geometry.now blocks.old }
    ensures turns { Turns B.world blocks.old blocks.new (λ d e. (f : Files) →
        MeetsOrStops geometry.now (λ t. mkdir geometry.now t user now path.entry mode) (λ x. done) result (HasFiles f) (HasFiles f) d e) }
    ensures stop { IfErr result (λ s. IsStop B.world blocks.new s) }
    ensures proper { IfErr result (λ s. IfRefused s (λ e. e ≢ Errno.EIO)) }
{
    are_bytes(path.bytes);
    if mode > MAX_PERMISSIONS {
        return Err(Stop::Refused(Errno::EINVAL));
    }
    let place = vacant_place(blocks, names, geometry, user, path)?;
    if place.inode.links >= MAX_LINKS {
        return Err(Stop::Refused(Errno::EMLINK));
    }
    let number = free_number(blocks, geometry, &place, 1)?;
    put_directory(blocks, geometry, &place, number, user, now, mode)?;
    Ok(())
}

/// mkdir: a directory at a place where nothing is, with the permissions of the mode; its parent has a link more. EINVAL of other bits, the
/// refusals of the path and of the walk, EEXIST, EACCES where the user may not change the parent's names, EMLINK where the parent has as
/// many links as may be, ENOSPC where no inode is free or there aren't zones enough.
pub fn mkdir<B: Blocks>(
    blocks: &mut B,
    names: &mut NameCache,
    geometry: &Geometry,
    user: User,
    now: u32,
    path: PathFrom,
    mode: u16,
    reply: &mut Reply,
) -> Result<(), Halt>
    requires on { IsOn B.world geometry.now blocks.old }
    ensures turns { Turns B.world blocks.old blocks.new (λ d e. (f : Files) →
        Meets geometry.now (λ t. mkdir geometry.now t user now path.entry mode) result reply.new (HasFiles f) (HasFiles f) d e) }
    ensures halt { IfErr result (λ h. IsHalt B.world blocks.new h) }
    ensures proper { OnOk result (answer_of reply.new ≢ refused Errno.EIO) }
{
    match make(blocks, names, geometry, user, now, path, mode) {
        Ok(()) => {
            *reply = Reply::Done;
            Ok(())
        }
        Err(Stop::Refused(errno)) => {
            *reply = Reply::Refused(errno);
            Ok(())
        }
        Err(Stop::Halted(halt)) => Err(halt),
    }
}
