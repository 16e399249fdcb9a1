//! New files.

ghost use Rattle.std.specs.Prelude.{◌≡◌, ◌≢◌, ◌≤◌, IfErr, false};
ghost use Rattle.tree.specs.Tree.{Node, Tree, most_permissions};
ghost use Rattle.volume.specs.Holds.{HoldsVolume};
ghost use Rattle.block_store.specs.Halts.{Ends, IsHalt};
ghost use Rattle.block_store.specs.Volume.{IsOn};
ghost use Rattle.block_store.specs.World.{Turns};
ghost use Rattle.path.specs.Stops.{Answers, IfRefused, IsStop};
ghost use Rattle.calls_names.specs.Making.{MakesFileAt, MakesFileOr, MayMakeAt};
ghost use Rattle.calls_names.specs.Vacant.{IsVacant};

use crate::named::may_write;
use crate::vacant::free_number;
use block_store::{Blocks, Halt};
use directory::insert;
use errno::Errno;
use inode_operations::new_file;
use layout::Geometry;
use path::{NamePlace, Stop};
use tree::{MAX_NAME, User};

/// Makes a file of no bytes at a vacant place, with a number that `free_number` gave for no zones beside: its node, and its name. Its
/// times and those of the directory are `now`, in seconds. Unsound only where the volume isn't sound.
pub fn put_file<B: Blocks>(
    blocks: &mut B,
    geometry: &Geometry,
    place: &NamePlace,
    number: u32,
    user: User,
    now: u32,
    mode: u16,
) -> Result<(), Halt>
    requires on { IsOn B.world geometry.now blocks.old }
    requires mode { mode ≤ most_permissions }
    ensures turns { Turns B.world blocks.old blocks.new (λ d e. Ends result
        (λ x. MakesFileAt geometry.now user now mode place.now number d e)
        (MayMakeAt geometry.now d place.now number 0)) }
    ensures halt { IfErr result (λ h. IsHalt B.world blocks.new h) }
{
    if place.name.len() > MAX_NAME {
        return Err(Halt::Unsound);
    }
    new_file(blocks, geometry, number, user, now, mode)?;
    insert(blocks, geometry, place.directory, place.name, number, now)
}

/// Makes a file where a path's last name is missing, and tells its number. ENOENT where the call doesn't create, EACCES where the user may
/// not change the directory's names, ENOSPC where no inode is free or there aren't zones enough; then nothing is changed.
pub fn make_file<B: Blocks>(
    blocks: &mut B,
    geometry: &Geometry,
    user: User,
    now: u32,
    place: &NamePlace,
    creates: bool,
    mode: u16,
) -> Result<u32, Stop>
    requires on { IsOn B.world geometry.now blocks.old }
    requires mode { mode ≤ most_permissions }
    ensures turns { Turns B.world blocks.old blocks.new (λ d e. (t : Tree) (parent : Node) → HoldsVolume geometry.now d t
        → IsVacant geometry.now d t place.now parent
        → Answers result (λ r. MakesFileOr geometry.now t user creates now mode place.now d e r)) }
    ensures looks { creates ≡ false → B.world.looks blocks.old blocks.new }
    ensures stop { IfErr result (λ s. IsStop B.world blocks.new s) }
    ensures proper { IfErr result (λ s. IfRefused s (λ e. e ≢ Errno.EIO)) }
{
    if !creates {
        return Err(Stop::Refused(Errno::ENOENT));
    }
    if !may_write(user, &place.inode) {
        return Err(Stop::Refused(Errno::EACCES));
    }
    let number = free_number(blocks, geometry, place, 0)?;
    put_file(blocks, geometry, place, number, user, now, mode)?;
    Ok(number)
}
