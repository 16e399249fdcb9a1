//! Places for names.

ghost use Rattle.std.specs.Prelude.{◌≡◌, ◌≢◌, IfErr, IfOk};
ghost use Rattle.block_store.specs.Volume.{IsOn};
ghost use Rattle.block_store.specs.World.{Reads};
ghost use Rattle.tree.specs.Tree.{Tree};
ghost use Rattle.volume.specs.Holds.{Holds};
ghost use Rattle.volume.specs.Nodes.{directory_of};
ghost use Rattle.volume.specs.Pieces.{pieces};
ghost use Rattle.path.specs.Stops.{Answers, IsStop, IfRefused};
ghost use Rattle.path.specs.Places.{Finds, FindsPlace, last_leads_to};
ghost use Rattle.path.specs.Walking.{IsDirectoryAt};

use crate::step::{enter, named, walk, walk_parts};
use crate::stop::Stop;
use crate::{NameCache, Path};
use block_store::{Blocks, Cut};
use errno::Errno;
use layout::Geometry;
use tree::User;
use volume::Inode;

/// A place for a name: a directory that the user may search, and the last part of a path.
#[derive(Drop)]
pub struct NamePlace<'a> {
    /// The directory's number.
    pub directory: u32,
    /// Its inode.
    pub inode: Inode,
    /// The path's last part, or no bytes where there is none.
    pub name: &'a [u8],
    /// The inode to which that name leads from the directory. None where the directory has no such name, and where the path has no
    /// last name: it ends with `.` or `..`, or is the root's.
    pub there: Option<u32>,
}

/// What a path finds: an inode, or the place where its last name is missing.
#[derive(Drop)]
pub enum Found<'a> {
    /// The inode to which the path leads.
    There(u32),
    /// The place where its last name is missing.
    Missing(NamePlace<'a>),
}

/// The inode to which the last name of a path leads from a directory. None where there is none, or the path has no last name.
fn there<B: Blocks>(
    blocks: &mut B,
    names: &mut NameCache,
    geometry: &Geometry,
    here: u32,
    inode: &Inode,
    path: &Path,
) -> Result<Option<u32>, Cut>
    requires on { IsOn B.world geometry.now blocks.old }
    ensures reads { Reads B.world blocks.old blocks.new (λ d. IsDirectoryAt geometry.now (pieces geometry.now d) here inode.now
        → IfOk result (λ x. x ≡ last_leads_to (directory_of geometry.now (pieces geometry.now d) inode.now).names path.now)) }
    ensures cut { IfErr result (λ c. B.world.over blocks.new c) }
{
    if !path.has_last_name() {
        return Ok(None);
    }
    named(blocks, names, geometry, here, inode, path.last())
}

/// The place that a path means: the directory to which all parts but the last lead. Refused as the walk there is, and then ENOTDIR
/// where it leads to a file, EACCES where the user may not search the directory.
pub fn find_place<'a, B: Blocks>(
    blocks: &mut B,
    names: &mut NameCache,
    geometry: &Geometry,
    user: User,
    path: &Path<'a>,
) -> Result<NamePlace<'a>, Stop>
    requires on { IsOn B.world geometry.now blocks.old }
    ensures reads { Reads B.world blocks.old blocks.new (λ d. (t : Tree) → Holds geometry.now d t
        → Answers result (FindsPlace geometry.now d t user path.now)) }
    ensures stop { IfErr result (λ s. IsStop B.world blocks.new s) }
    ensures proper { IfErr result (λ s. IfRefused s (λ e. e ≢ Errno.EIO)) }
{
    let directory = walk_parts(blocks, names, geometry, user, path.start(), path.parent())?;
    let inode = enter(blocks, geometry, user, directory)?;
    let there = there(blocks, names, geometry, directory, &inode, path)?;
    Ok(NamePlace {
        directory,
        inode,
        name: path.last(),
        there,
    })
}

/// What a path finds, as `open` asks: the inode to which it leads, or the place where its last name is missing. A path without a
/// last name leads to an inode. The walk's refusals come first.
pub fn look_up<'a, B: Blocks>(
    blocks: &mut B,
    names: &mut NameCache,
    geometry: &Geometry,
    user: User,
    path: &Path<'a>,
) -> Result<Found<'a>, Stop>
    requires on { IsOn B.world geometry.now blocks.old }
    ensures reads { Reads B.world blocks.old blocks.new (λ d. (t : Tree) → Holds geometry.now d t
        → Answers result (Finds geometry.now d t user path.now)) }
    ensures stop { IfErr result (λ s. IsStop B.world blocks.new s) }
    ensures proper { IfErr result (λ s. IfRefused s (λ e. e ≢ Errno.EIO)) }
{
    if !path.has_last_name() {
        return Ok(Found::There(walk(blocks, names, geometry, user, path)?));
    }
    let place = find_place(blocks, names, geometry, user, path)?;
    match place.there {
        Some(number) => Ok(Found::There(number)),
        None => Ok(Found::Missing(place)),
    }
}
