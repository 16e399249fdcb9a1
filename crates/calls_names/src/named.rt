//! The name at the end of a path.

ghost use Rattle.std.specs.Prelude.{◌≡◌, ◌≢◌, ◌<◌, IfErr, IfOk, length};
ghost use Rattle.block_store.specs.World.{Reads};
ghost use Rattle.block_store.specs.Volume.{IsOn};
ghost use Rattle.block_store.specs.Halts.{IsHalt, Ends};
ghost use Rattle.tree.specs.IsCall.{IsBytes};
ghost use Rattle.tree.specs.Tree.{Node};
ghost use Rattle.tree.specs.Walk.{may_access, to_write};
ghost use Rattle.calls_names.specs.Names.{FindsName, IsOfInode, IsVolume, MeansPlace};

use block_store::{Blocks, Halt};
use errno::Errno;
use inode::inode_table::load;
use layout::Geometry;
use path::{NameCache, NamePlace, Path, Stop, Wish, find_place, may};
use tree::{PathFrom, User};
use volume::Inode;

/// A name that leads to a node.
#[derive(Drop)]
pub(crate) struct Named<'a> {
    /// The directory that has it.
    pub directory: u32,
    pub name: &'a [u8],
    /// The number of the node.
    pub number: u32,
    /// And its inode.
    pub inode: Inode,
}

/// Whether a user may change the names of the directory of an inode.
pub fn may_write(user: User, inode: &Inode) -> bool
    ensures { (node : Node) → IsOfInode node inode.now → result ≡ may_access user node to_write }
{
    may(user, inode.mode % 512, inode.uid, inode.gid, Wish::Write)
}

/// The bytes of a path are bytes: a proof hears it of a slice alone, and not of a struct's. Nothing is done.
pub fn are_bytes(bytes: &[u8])
    ensures { IsBytes bytes.now }
{}

/// The place that a path means, or the refusal of the walk there.
pub fn place_of<'a, B: Blocks>(
    blocks: &mut B,
    names: &mut NameCache,
    geometry: &Geometry,
    user: User,
    path: &Path<'a>,
) -> Result<Result<NamePlace<'a>, Errno>, Halt>
    requires on { IsOn B.world geometry.now blocks.old }
    ensures reads { Reads B.world blocks.old blocks.new (λ d. Ends result
        (λ r. MeansPlace geometry.now d user path.now r) (IsVolume geometry.now d)) }
    ensures proper { IfOk result (λ r. IfErr r (λ e. e ≢ Errno.EIO)) }
    ensures halt { IfErr result (λ h. IsHalt B.world blocks.new h) }
{
    match find_place(blocks, names, geometry, user, path) {
        Ok(place) => Ok(Ok(place)),
        Err(Stop::Refused(errno)) => Ok(Err(errno)),
        Err(Stop::Halted(halt)) => Err(halt),
    }
}

/// The name at the end of a path, which has to lead to a node from a directory that the user may write: what unlink and rmdir begin with.
/// In this order: the refusals of the path, EINVAL where it has no last name, those of the walk, ENOENT where there is none, EACCES.
pub(crate) fn find_name<'a, B: Blocks>(
    blocks: &mut B,
    names: &mut NameCache,
    geometry: &Geometry,
    user: User,
    path: PathFrom<'a>,
) -> Result<Result<Named<'a>, Errno>, Halt>
    requires on { IsOn B.world geometry.now blocks.old }
    ensures reads { Reads B.world blocks.old blocks.new (λ d. Ends result
        (λ r. FindsName geometry.now d user path.entry r) (IsVolume geometry.now d)) }
    ensures named { IfOk result (λ r. IfOk r (λ x. 0 < length x.name.now)) }
    ensures proper { IfOk result (λ r. IfErr r (λ e. e ≢ Errno.EIO)) }
    ensures halt { IfErr result (λ h. IsHalt B.world blocks.new h) }
{
    are_bytes(path.bytes);
    let parts = match Path::parse(path) {
        Ok(parts) => parts,
        Err(errno) => return Ok(Err(errno)),
    };
    if !parts.has_last_name() {
        return Ok(Err(Errno::EINVAL));
    }
    let place = match place_of(blocks, names, geometry, user, &parts)? {
        Ok(place) => place,
        Err(errno) => return Ok(Err(errno)),
    };
    let Some(number) = place.there else {
        return Ok(Err(Errno::ENOENT));
    };
    if !may_write(user, &place.inode) {
        return Ok(Err(Errno::EACCES));
    }
    let inode = load(blocks, geometry, number)?;
    Ok(Ok(Named {
        directory: place.directory,
        name: parts.last(),
        number,
        inode,
    }))
}
