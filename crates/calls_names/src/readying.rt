//! The node that open opens.

ghost use Rattle.std.specs.Prelude.{◌≡◌, ◌≢◌, ◌≤◌, IfErr, IsTrue, is_some, false};
ghost use Rattle.tree.specs.Flags.{creates, truncates};
ghost use Rattle.tree.specs.Tree.{Tree, most_permissions};
ghost use Rattle.volume.specs.Holds.{HoldsVolume};
ghost use Rattle.block_store.specs.Volume.{IsOn};
ghost use Rattle.block_store.specs.World.{Reads, Turns};
ghost use Rattle.path.specs.Stops.{Answers, IfRefused, IsStop};
ghost use Rattle.calls_names.specs.Opening.{FindsToOpen, Readies, ReadiesThere, open_named};

use crate::asking::{is_emptied, only_makes, refusal};
use crate::make_file;
use crate::named::are_bytes;
use block_store::Blocks;
use calls_attributes::found::is_link;
use errno::Errno;
use inode::inode_table::load;
use inode_operations::set_size_at;
use layout::Geometry;
use path::{Found, NameCache, Path, Stop, look_up, walk};
use tree::{OpenFlags, PathFrom, User};

/// Readies a node that is there: with the truncate flag its file is emptied, changed at `now` (seconds). EEXIST where the call makes files
/// and takes no others, ELOOP of a symbolic link, EISDIR of a directory to be written, EACCES where the user lacks a permission; then
/// nothing is changed.
fn ready_there<B: Blocks>(
    blocks: &mut B,
    geometry: &Geometry,
    user: User,
    now: u32,
    number: u32,
    flags: OpenFlags,
) -> Result<(), Stop>
    requires on { IsOn B.world geometry.now blocks.old }
    ensures turns { Turns B.world blocks.old blocks.new (λ d e. (t : Tree) → HoldsVolume geometry.now d t
        → IsTrue (is_some (t.nodes number))
        → Answers result (ReadiesThere geometry.now t user now number flags.0 d e)) }
    ensures looks { truncates flags.0 ≡ false → B.world.looks blocks.old blocks.new }
    ensures stop { IfErr result (λ s. IsStop B.world blocks.new s) }
    ensures proper { IfErr result (λ s. IfRefused s (λ e. e ≢ Errno.EIO)) }
{
    let inode = load(blocks, geometry, number)?;
    if let Some(errno) = refusal(user, &inode, flags) {
        return Err(Stop::Refused(errno));
    }
    if is_emptied(&inode, flags) {
        set_size_at(blocks, geometry, number, 0, now)?;
    }
    Ok(())
}

/// What a path finds for open: where a symbolic link stands last, what the whole path leads to, or the link itself where it is taken as it
/// is. The refusals of the walk come first; of a link those of the whole path's walk come then, ENOENT and ELOOP among them.
fn find<'a, B: Blocks>(
    blocks: &mut B,
    names: &mut NameCache,
    geometry: &Geometry,
    user: User,
    path: &Path<'a>,
    as_is: bool,
) -> Result<Found<'a>, Stop>
    requires on { IsOn B.world geometry.now blocks.old }
    ensures reads { Reads B.world blocks.old blocks.new (λ d. (t : Tree) → HoldsVolume geometry.now d t
        → Answers result (FindsToOpen geometry.now d t user as_is path.now)) }
    ensures stop { IfErr result (λ s. IsStop B.world blocks.new s) }
    ensures proper { IfErr result (λ s. IfRefused s (λ e. e ≢ Errno.EIO)) }
{
    let number = match look_up(blocks, names, geometry, user, path)? {
        Found::There(number) => number,
        Found::Missing(place) => return Ok(Found::Missing(place)),
    };
    if as_is {
        return Ok(Found::There(number));
    }
    let inode = load(blocks, geometry, number)?;
    if !is_link(&inode) {
        return Ok(Found::There(number));
    }
    let end = walk(blocks, names, geometry, user, path)?;
    Ok(Found::There(end))
}

/// The number of the node that open opens, which is readied or made. The refusals of the path and of the look-up come first, then those of
/// a node that is there, or of a missing name: ENOENT where the call doesn't create, EACCES, ENOSPC. A refused call has changed nothing.
pub(crate) fn ready<B: Blocks>(
    blocks: &mut B,
    names: &mut NameCache,
    geometry: &Geometry,
    user: User,
    now: u32,
    path: PathFrom,
    flags: OpenFlags,
    mode: u16,
) -> Result<u32, Stop>
    requires on { IsOn B.world geometry.now blocks.old }
    requires mode { mode ≤ most_permissions }
    ensures turns { Turns B.world blocks.old blocks.new (λ d e. (t : Tree) → HoldsVolume geometry.now d t
        → Answers result (Readies geometry.now t (open_named geometry.now t user now path.entry flags.0 mode) flags.0 d e)) }
    ensures looks { creates flags.0 ≡ false → truncates flags.0 ≡ false → B.world.looks blocks.old blocks.new }
    ensures stop { IfErr result (λ s. IsStop B.world blocks.new s) }
    ensures proper { IfErr result (λ s. IfRefused s (λ e. e ≢ Errno.EIO)) }
{
    are_bytes(path.bytes);
    let path = Path::parse(path)?;
    match find(blocks, names, geometry, user, &path, only_makes(flags))? {
        Found::There(number) => {
            ready_there(blocks, geometry, user, now, number, flags)?;
            Ok(number)
        }
        Found::Missing(place) => {
            make_file(blocks, geometry, user, now, &place, flags.creates(), mode)
        }
    }
}
