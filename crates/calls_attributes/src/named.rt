//! The node to which a path leads.

ghost use Rattle.std.specs.Prelude.{◌≢◌, IfErr, IfOk};
ghost use Rattle.block_store.specs.World.{Reads};
ghost use Rattle.block_store.specs.Volume.{IsOn};
ghost use Rattle.block_store.specs.Halts.{IsHalt, Ends};
ghost use Rattle.calls_attributes.specs.Named.{IsVolume, Names, Finds};

use block_store::{Blocks, Halt};
use errno::Errno;
use inode::inode_table::load;
use layout::Geometry;
use path::{NameCache, Path, Stop, walk};
use tree::{PathFrom, User};
use volume::Inode;

/// The number of the inode to which a path leads, or the refusal of the path or of the walk.
fn named<B: Blocks>(
    blocks: &mut B,
    names: &mut NameCache,
    geometry: &Geometry,
    user: User,
    path: PathFrom,
) -> Result<Result<u32, Errno>, Halt>
    requires on { IsOn B.world geometry.now blocks.old }
    ensures reads { Reads B.world blocks.old blocks.new (λ d. Ends result
        (λ r. Names geometry.now d user path.entry r) (IsVolume geometry.now d)) }
    ensures halt { IfErr result (λ h. IsHalt B.world blocks.new h) }
    ensures proper { IfOk result (λ r. IfErr r (λ e. e ≢ Errno.EIO)) }
{
    let path = match Path::parse(path) {
        Ok(path) => path,
        Err(errno) => return Ok(Err(errno)),
    };
    match walk(blocks, names, geometry, user, &path) {
        Ok(number) => Ok(Ok(number)),
        Err(Stop::Refused(errno)) => Ok(Err(errno)),
        Err(Stop::Halted(halt)) => Err(halt),
    }
}

/// The inode to which a path leads, after its number; or the refusal of the path or of the walk. Nothing is changed. Unsound only where the
/// volume holds no tree.
pub fn find_node<B: Blocks>(
    blocks: &mut B,
    names: &mut NameCache,
    geometry: &Geometry,
    user: User,
    path: PathFrom,
) -> Result<Result<(u32, Inode), Errno>, Halt>
    requires on { IsOn B.world geometry.now blocks.old }
    ensures reads { Reads B.world blocks.old blocks.new (λ d. Ends result
        (λ r. Finds geometry.now d user path.entry r) (IsVolume geometry.now d)) }
    ensures halt { IfErr result (λ h. IsHalt B.world blocks.new h) }
    ensures proper { IfOk result (λ r. IfErr r (λ e. e ≢ Errno.EIO)) }
{
    match named(blocks, names, geometry, user, path)? {
        Ok(number) => Ok(Ok((number, load(blocks, geometry, number)?))),
        Err(errno) => Ok(Err(errno)),
    }
}
