//! Places for new names, and numbers for new nodes.

ghost use Rattle.std.specs.Prelude.{◌≢◌, IfErr};
ghost use Rattle.tree.specs.Tree.{Node, Tree};
ghost use Rattle.volume.specs.Holds.{HoldsVolume};
ghost use Rattle.block_store.specs.Volume.{IsOn};
ghost use Rattle.block_store.specs.World.{Reads};
ghost use Rattle.path.specs.Stops.{Answers, IfRefused, IsStop};
ghost use Rattle.calls_names.specs.Vacant.{FindsNewPlace, FindsNumber, IsVacant};

use crate::named::{are_bytes, may_write};
use block_store::{Blocks, Halt};
use errno::Errno;
use file::file_room::has_room_beside;
use inode_operations::free_inode;
use layout::Geometry;
use path::{NameCache, NamePlace, Path, Stop, find_place};
use tree::{MAX_SIZE, PathFrom, User};

/// The place at which a path's last name is missing. The refusals of the path and of the walk come first, then EEXIST where the name is
/// there or the path has none, then EACCES where the user may not change the directory's names.
pub(crate) fn vacant_place<'a, B: Blocks>(
    blocks: &mut B,
    names: &mut NameCache,
    geometry: &Geometry,
    user: User,
    path: PathFrom<'a>,
) -> Result<NamePlace<'a>, Stop>
    requires on { IsOn B.world geometry.now blocks.old }
    ensures reads { Reads B.world blocks.old blocks.new (λ d. (t : Tree) → HoldsVolume geometry.now d t
        → Answers result (FindsNewPlace geometry.now d t user path.entry)) }
    ensures stop { IfErr result (λ s. IsStop B.world blocks.new s) }
    ensures proper { IfErr result (λ s. IfRefused s (λ e. e ≢ Errno.EIO)) }
{
    are_bytes(path.bytes);
    let path = Path::parse(path)?;
    let place = find_place(blocks, names, geometry, user, &path)?;
    if !path.has_last_name() || place.there.is_some() {
        return Err(Stop::Refused(Errno::EEXIST));
    }
    if !may_write(user, &place.inode) {
        return Err(Stop::Refused(Errno::EACCES));
    }
    Ok(place)
}

/// The number of the inode of a new node at a vacant place: ENOSPC where none is free, or there aren't zones enough for the name and for
/// `others` zones beside. Nothing is changed.
pub fn free_number<B: Blocks>(
    blocks: &mut B,
    geometry: &Geometry,
    place: &NamePlace,
    others: u32,
) -> Result<u32, Stop>
    requires on { IsOn B.world geometry.now blocks.old }
    ensures reads { Reads B.world blocks.old blocks.new (λ d. (t : Tree) (parent : Node) → HoldsVolume geometry.now d t
        → IsVacant geometry.now d t place.now parent
        → Answers result (FindsNumber geometry.now t place.now.directory parent place.now.name.now others)) }
    ensures stop { IfErr result (λ s. IsStop B.world blocks.new s) }
    ensures proper { IfErr result (λ s. IfRefused s (λ e. e ≢ Errno.EIO)) }
{
    let Some(number) = free_inode(blocks, geometry)? else {
        return Err(Stop::Refused(Errno::ENOSPC));
    };
    let size = place.inode.size;
    if size > MAX_SIZE - 64 {
        return Err(Stop::Halted(Halt::Unsound));
    }
    if !has_room_beside(blocks, geometry, place.directory, size, 64, others)? {
        return Err(Stop::Refused(Errno::ENOSPC));
    }
    Ok(number)
}
