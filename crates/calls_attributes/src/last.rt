//! The node to which a path leads, where a symbolic link that stands last isn't followed.

ghost use Rattle.std.specs.Prelude.{◌≢◌, IfErr, IfOk};
ghost use Rattle.block_store.specs.World.{Reads};
ghost use Rattle.block_store.specs.Volume.{IsOn};
ghost use Rattle.block_store.specs.Halts.{IsHalt, Ends};
ghost use Rattle.calls_attributes.specs.Named.{IsVolume, LeadsTo, NamesLast, FindsLast};

use block_store::{Blocks, Halt};
use errno::Errno;
use inode::inode_table::load;
use layout::Geometry;
use path::{Found, NameCache, Path, Stop, look_up};
use tree::{PathFrom, User};
use volume::Inode;

/// The number of the inode to which a path leads, where a symbolic link that stands last isn't followed; or the refusal of the walk, ENOENT
/// where the last name is missing. Nothing is changed. Unsound only where the volume holds no tree.
pub fn walk_to_last<B: Blocks>(
    blocks: &mut B,
    names: &mut NameCache,
    geometry: &Geometry,
    user: User,
    path: &Path,
) -> Result<Result<u32, Errno>, Halt>
    requires on { IsOn B.world geometry.now blocks.old }
    ensures reads { Reads B.world blocks.old blocks.new (λ d. Ends result
        (λ r. LeadsTo geometry.now d user path.now r) (IsVolume geometry.now d)) }
    ensures halt { IfErr result (λ h. IsHalt B.world blocks.new h) }
    ensures proper { IfOk result (λ r. IfErr r (λ e. e ≢ Errno.EIO)) }
{
    match look_up(blocks, names, geometry, user, path) {
        Ok(Found::There(number)) => Ok(Ok(number)),
        Ok(Found::Missing(_)) => Ok(Err(Errno::ENOENT)),
        Err(Stop::Refused(errno)) => Ok(Err(errno)),
        Err(Stop::Halted(halt)) => Err(halt),
    }
}

/// The same, from the bytes of the path, and with the refusals of the path.
fn named_last<B: Blocks>(
    blocks: &mut B,
    names: &mut NameCache,
    geometry: &Geometry,
    user: User,
    path: PathFrom,
) -> Result<Result<u32, Errno>, Halt>
    requires on { IsOn B.world geometry.now blocks.old }
    ensures reads { Reads B.world blocks.old blocks.new (λ d. Ends result
        (λ r. NamesLast geometry.now d user path.entry r) (IsVolume geometry.now d)) }
    ensures halt { IfErr result (λ h. IsHalt B.world blocks.new h) }
    ensures proper { IfOk result (λ r. IfErr r (λ e. e ≢ Errno.EIO)) }
{
    match Path::parse(path) {
        Ok(path) => walk_to_last(blocks, names, geometry, user, &path),
        Err(errno) => Ok(Err(errno)),
    }
}

/// The inode to which a path leads, after its number, where a symbolic link that stands last isn't followed; or the refusal of the path or
/// of the walk. Nothing is changed. Unsound only where the volume holds no tree.
pub fn find_last<B: Blocks>(
    blocks: &mut B,
    names: &mut NameCache,
    geometry: &Geometry,
    user: User,
    path: PathFrom,
) -> Result<Result<(u32, Inode), Errno>, Halt>
    requires on { IsOn B.world geometry.now blocks.old }
    ensures reads { Reads B.world blocks.old blocks.new (λ d. Ends result
        (λ r. FindsLast geometry.now d user path.entry r) (IsVolume geometry.now d)) }
    ensures halt { IfErr result (λ h. IsHalt B.world blocks.new h) }
    ensures proper { IfOk result (λ r. IfErr r (λ e. e ≢ Errno.EIO)) }
{
    match named_last(blocks, names, geometry, user, path)? {
        Ok(number) => Ok(Ok((number, load(blocks, geometry, number)?))),
        Err(errno) => Ok(Err(errno)),
    }
}
