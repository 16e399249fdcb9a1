//! New symbolic links.

ghost use Rattle.std.specs.Prelude.{◌≡◌, ◌≢◌, ◌≤◌, ◌<◌, ◌==◌, IfErr, IfOk, OnOk, length};
ghost use Rattle.std.specs.List.{list_any};
ghost use Rattle.tree.specs.Tree.{most_target};
ghost use Rattle.tree.specs.Answers.{answer_of, done, refused};
ghost use Rattle.tree.specs.NameCalls.{symlink};
ghost use Rattle.descriptors.specs.Files.{Files, HasFiles};
ghost use Rattle.block_store.specs.Halts.{Ends, IsHalt};
ghost use Rattle.block_store.specs.Volume.{IsOn};
ghost use Rattle.block_store.specs.World.{Turns};
ghost use Rattle.calls_attributes.specs.Does.{Meets};
ghost use Rattle.path.specs.Stops.{IfRefused, IsStop};
ghost use Rattle.calls_names.specs.Asking.{may_be_target};
ghost use Rattle.calls_names.specs.Making.{MakesLinkAt, MayMakeAt};
ghost use Rattle.calls_names.specs.Stopping.{MeetsOrStops};

use crate::named::are_bytes;
use crate::vacant::{free_number, vacant_place};
use block_store::{Blocks, Halt};
use directory::insert;
use errno::Errno;
use inode_operations::new_link;
use layout::Geometry;
use path::{NameCache, NamePlace, Stop};
use tree::{MAX_NAME, MAX_TARGET, PathFrom, Reply, User};

/// Whether a byte of a target is zero.
fn has_zero(target: &[u8]) -> bool
    ensures { result ≡ list_any (λ c. c == 0) target.now }
{
    target.iter().any(|c| *c == 0)
}

/// Whether these bytes may be a link's target: ENOENT where there are none, ENAMETOOLONG of more than 1023, EINVAL where one is zero.
fn may_be_target(target: &[u8]) -> Result<(), Errno>
    ensures asked { result ≡ may_be_target target.now }
    ensures some { IfOk result (λ x. 0 < length target.now) }
    ensures few { IfOk result (λ x. length target.now ≤ most_target) }
    ensures proper { IfErr result (λ e. e ≢ Errno.EIO) }
{
    if target.is_empty() {
        return Err(Errno::ENOENT);
    }
    if target.len() > MAX_TARGET {
        return Err(Errno::ENAMETOOLONG);
    }
    if has_zero(target) {
        return Err(Errno::EINVAL);
    }
    Ok(())
}

/// Makes a symbolic link at a vacant place: its node, with the target's bytes, and its name.
fn put_link<B: Blocks>(
    blocks: &mut B,
    geometry: &Geometry,
    place: &NamePlace,
    number: u32,
    user: User,
    now: u32,
    target: &[u8],
) -> Result<(), Halt>
    requires on { IsOn B.world geometry.now blocks.old }
    requires some { 0 < length target.now }
    requires few { length target.now ≤ most_target }
    ensures turns { Turns B.world blocks.old blocks.new (λ d e. Ends result
        (λ x. MakesLinkAt geometry.now user now target.now place.now number d e)
        (MayMakeAt geometry.now d place.now number 1)) }
    ensures halt { IfErr result (λ h. IsHalt B.world blocks.new h) }
{
    if place.name.len() > MAX_NAME {
        return Err(Halt::Unsound);
    }
    new_link(blocks, geometry, number, user, now, target)?;
    insert(blocks, geometry, place.directory, place.name, number, now)
}

/// Makes a symbolic link, or says why not.
fn make<B: Blocks>(
    blocks: &mut B,
    names: &mut NameCache,
    geometry: &Geometry,
    user: User,
    now: u32,
    target: &[u8],
    path: PathFrom,
) -> Result<(), Stop>
    requires on { IsOn B.world geometry.now blocks.old }
    ensures turns { Turns B.world blocks.old blocks.new (λ d e. (f : Files) →
        MeetsOrStops geometry.now (λ t. symlink geometry.now t user now target.now path.entry) (λ x. done) result
        (HasFiles f) (HasFiles f) d e) }
    ensures stop { IfErr result (λ s. IsStop B.world blocks.new s) }
    ensures proper { IfErr result (λ s. IfRefused s (λ e. e ≢ Errno.EIO)) }
{
    are_bytes(path.bytes);
    may_be_target(target)?;
    let place = vacant_place(blocks, names, geometry, user, path)?;
    let number = free_number(blocks, geometry, &place, 1)?;
    put_link(blocks, geometry, &place, number, user, now, target)?;
    Ok(())
}

/// symlink: a symbolic link with this target at a place where nothing is, with all permissions. Of the target ENOENT where it is empty,
/// ENAMETOOLONG over 1023 bytes, EINVAL with a zero byte; then the refusals of the path and of the walk, EEXIST, EACCES where the user may
/// not change the parent's names, ENOSPC where no inode is free or there aren't zones enough.
pub fn symlink<B: Blocks>(
    blocks: &mut B,
    names: &mut NameCache,
    geometry: &Geometry,
    user: User,
    now: u32,
    target: &[u8],
    path: PathFrom,
    reply: &mut Reply,
) -> Result<(), Halt>
    requires on { IsOn B.world geometry.now blocks.old }
    ensures turns { Turns B.world blocks.old blocks.new (λ d e. (f : Files) →
        Meets geometry.now (λ t. symlink geometry.now t user now target.now path.entry) result reply.new (HasFiles f) (HasFiles f) d e) }
    ensures halt { IfErr result (λ h. IsHalt B.world blocks.new h) }
    ensures proper { OnOk result (answer_of reply.new ≢ refused Errno.EIO) }
{
    match make(blocks, names, geometry, user, now, target, path) {
        Ok(()) => {
            *reply = Reply::Done;
            Ok(())
        }
        Err(Stop::Refused(errno)) => {
            *reply = Reply::Refused(errno);
            Ok(())
        }
        Err(Stop::Halted(halt)) => Err(halt),
    }
}
