//! The walk of a path's parts.

ghost use Rattle.std.specs.Prelude.{◌≡◌, ◌≢◌, ◌<◌, ◌≤◌, ◌/◌, ◌%◌, ◌==◌, ◌∷◌, [], IfErr, IfOk, IfSome, IsTrue, Some, is_some, length};
ghost use Rattle.block_store.specs.Volume.{IsOn};
ghost use Rattle.block_store.specs.World.{Reads};
ghost use Rattle.tree.specs.Names.{inode_of};
ghost use Rattle.tree.specs.Tree.{Tree};
ghost use Rattle.tree.specs.Walk.{next, start_of};
ghost use Rattle.volume.specs.Holds.{Holds};
ghost use Rattle.volume.specs.Nodes.{directory_of, is_directory_mode, is_link_mode, permissions_in};
ghost use Rattle.volume.specs.Pieces.{pieces};
ghost use Rattle.path.specs.Stops.{Answers, IsStop, IfRefused};
ghost use Rattle.path.specs.Walking.{entries_in, Arrives, Enters, IsDirectoryAt, StepsTo, TellsTarget, Walks};

use crate::first::{ROOT, first_node};
use crate::stop::Stop;
use crate::{NameCache, Parts, Path, Wish, is_dot, is_dot_dot, may};
use block_store::{Blocks, Cut};
use directory::file_pages::reading::read_at;
use directory::{find, parent, stands_at};
use errno::Errno;
use inode::inode_table::load;
use layout::Geometry;
use tree::{MAX_TARGET, Start, User};
use volume::Inode;

/// How many symbolic links a walk follows.
const MOST_LINKS: u32 = 8;

/// Whether the mode's type is that of directories.
fn is_directory(mode: u16) -> bool
    ensures { result ≡ is_directory_mode mode }
{
    mode / 4096 == 4
}

/// The permissions in a mode.
fn permissions(mode: u16) -> u16
    ensures { result ≡ permissions_in mode }
{
    mode % 512
}

/// The inode of a directory that the user may search: ENOTDIR of a file, EACCES where the user may not.
pub(crate) fn enter<B: Blocks>(
    blocks: &mut B,
    geometry: &Geometry,
    user: User,
    here: u32,
) -> Result<Inode, Stop>
    requires on { IsOn B.world geometry.now blocks.old }
    ensures reads { Reads B.world blocks.old blocks.new (λ d. (t : Tree) → Holds geometry.now d t → IsTrue (is_some (t.nodes here))
        → Answers result (Enters geometry.now d t user here)) }
    ensures stop { IfErr result (λ s. IsStop B.world blocks.new s) }
    ensures proper { IfErr result (λ s. IfRefused s (λ e. e ≢ Errno.EIO)) }
{
    let inode = load(blocks, geometry, here)?;
    if !is_directory(inode.mode) {
        return Err(Stop::Refused(Errno::ENOTDIR));
    }
    if !may(
        user,
        permissions(inode.mode),
        inode.uid,
        inode.gid,
        Wish::Search,
    ) {
        return Err(Stop::Refused(Errno::EACCES));
    }
    Ok(inode)
}

/// The inode to which a name leads from a directory, if the cache has an entry that the name still has.
fn known<B: Blocks>(
    blocks: &mut B,
    names: &mut NameCache,
    geometry: &Geometry,
    here: u32,
    inode: &Inode,
    name: &[u8],
) -> Result<Option<u32>, Cut>
    requires on { IsOn B.world geometry.now blocks.old }
    ensures reads { Reads B.world blocks.old blocks.new (λ d. IsDirectoryAt geometry.now (pieces geometry.now d) here inode.now
        → IfOk result (λ x. IfSome x (λ n.
        inode_of (directory_of geometry.now (pieces geometry.now d) inode.now).names name.now ≡ Some n))) }
    ensures cut { IfErr result (λ c. B.world.over blocks.new c) }
{
    let Some(known) = names.get(here, name) else {
        return Ok(None);
    };
    let stands = stands_at(blocks, geometry, inode, name, known)?;
    if !stands {
        return Ok(None);
    }
    Ok(Some(known.number))
}

/// The inode to which a name leads from a directory. Where the cache doesn't tell it, all entries are searched.
pub(crate) fn named<B: Blocks>(
    blocks: &mut B,
    names: &mut NameCache,
    geometry: &Geometry,
    here: u32,
    inode: &Inode,
    name: &[u8],
) -> Result<Option<u32>, Cut>
    requires on { IsOn B.world geometry.now blocks.old }
    requires named { 0 < length name.now }
    ensures reads { Reads B.world blocks.old blocks.new (λ d. IsDirectoryAt geometry.now (pieces geometry.now d) here inode.now
        → IfOk result (λ x. x ≡ inode_of (directory_of geometry.now (pieces geometry.now d) inode.now).names name.now)) }
    ensures cut { IfErr result (λ c. B.world.over blocks.new c) }
{
    if let Some(number) = known(blocks, names, geometry, here, inode, name)? {
        return Ok(Some(number));
    }
    match find(blocks, geometry, inode, name)? {
        Some(found) => {
            names.put(here, name, found);
            Ok(Some(found.number))
        }
        None => Ok(None),
    }
}

/// Where a part leads from a directory: `.` stays, `..` goes to the parent, and a name to its inode; ENOENT where there is none.
fn next<B: Blocks>(
    blocks: &mut B,
    names: &mut NameCache,
    geometry: &Geometry,
    here: u32,
    inode: &Inode,
    part: &[u8],
) -> Result<u32, Stop>
    requires on { IsOn B.world geometry.now blocks.old }
    requires part { 0 < length part.now }
    ensures reads { Reads B.world blocks.old blocks.new (λ d. IsDirectoryAt geometry.now (pieces geometry.now d) here inode.now
        → let dir = entries_in geometry.now d inode.now in Answers result (λ r. r ≡ next here dir.0 dir.1 part.now)) }
    ensures stop { IfErr result (λ s. IsStop B.world blocks.new s) }
    ensures proper { IfErr result (λ s. IfRefused s (λ e. e ≢ Errno.EIO)) }
{
    if is_dot(part) {
        return Ok(here);
    }
    if is_dot_dot(part) {
        return Ok(parent(blocks, geometry, inode)?);
    }
    match named(blocks, names, geometry, here, inode, part)? {
        Some(there) => Ok(there),
        None => Err(Stop::Refused(Errno::ENOENT)),
    }
}

/// Where a part leads from a node.
fn step<B: Blocks>(
    blocks: &mut B,
    names: &mut NameCache,
    geometry: &Geometry,
    user: User,
    here: u32,
    part: &[u8],
) -> Result<u32, Stop>
    requires on { IsOn B.world geometry.now blocks.old }
    requires part { 0 < length part.now }
    ensures reads { Reads B.world blocks.old blocks.new (λ d. (t : Tree) → Holds geometry.now d t → IsTrue (is_some (t.nodes here))
        → Answers result (StepsTo t user here part.now)) }
    ensures stop { IfErr result (λ s. IsStop B.world blocks.new s) }
    ensures proper { IfErr result (λ s. IfRefused s (λ e. e ≢ Errno.EIO)) }
{
    let inode = enter(blocks, geometry, user, here)?;
    next(blocks, names, geometry, here, &inode, part)
}

/// Whether the mode's type is that of symbolic links.
fn is_link(mode: u16) -> bool
    ensures { result ≡ is_link_mode mode }
{
    mode / 4096 == 10
}

/// How many bytes the target of a symbolic link has, which are put into the room for them. None of what is no link.
fn target<B: Blocks>(
    blocks: &mut B,
    geometry: &Geometry,
    there: u32,
    room: &mut [u8],
) -> Result<Option<usize>, Stop>
    requires on { IsOn B.world geometry.now blocks.old }
    requires room { length room.old ≡ 1023 }
    ensures reads { Reads B.world blocks.old blocks.new (λ d. (t : Tree) → Holds geometry.now d t → IsTrue (is_some (t.nodes there))
        → Answers result (TellsTarget t there room.new)) }
    ensures count { IfOk result (λ o. IfSome o (λ n. n ≤ 1023)) }
    ensures stop { IfErr result (λ s. IsStop B.world blocks.new s) }
    ensures proper { IfErr result (λ s. IfRefused s (λ e. e ≢ Errno.EIO)) }
{
    let inode = load(blocks, geometry, there)?;
    if !is_link(inode.mode) {
        return Ok(None);
    }
    let count = read_at(blocks, geometry, &inode, 0, room)?;
    Ok(Some(count))
}

/// Where a target is read from: the root where it begins with a slash, else the directory of its link.
fn start(here: u32, target: &[u8]) -> u32
    ensures { result ≡ start_of here target.now }
{
    match target.first() {
        Some(first) => { if *first == b'/' { ROOT } else { here } }
        None => here,
    }
}

/// Where a walk stands: at a node, with so many links that it may follow still.
#[derive(Clone, Copy)]
pub struct Stand {
    pub here: u32,
    pub links: u32,
}

/// Where parts lead from a stand. The target of each link on the way is read into this call's own room and walked by a further call.
#[cycle(links)]
fn lead<B: Blocks>(
    blocks: &mut B,
    names: &mut NameCache,
    geometry: &Geometry,
    user: User,
    first: Stand,
    parts: Parts,
) -> Result<Stand, Stop>
    requires on { IsOn B.world geometry.now blocks.old }
    ensures reads { Reads B.world blocks.old blocks.new (λ d. (t : Tree) → Holds geometry.now d t → IsTrue (is_some (t.nodes first.here))
        → Answers result (Arrives t user first parts.entry)) }
    ensures links { IfOk result (λ s. s.links ≤ first.links) }
    ensures stop { IfErr result (λ s. IsStop B.world blocks.new s) }
    ensures proper { IfErr result (λ s. IfRefused s (λ e. e ≢ Errno.EIO)) }
{
    let mut parts = parts;
    let mut at = first;
    while let Some(part) = parts.next() {
        at = follow(blocks, names, geometry, user, at, part)?;
    }
    Ok(at)
}

/// Where one part leads from a stand.
#[cycle(links)]
fn follow<B: Blocks>(
    blocks: &mut B,
    names: &mut NameCache,
    geometry: &Geometry,
    user: User,
    at: Stand,
    part: &[u8],
) -> Result<Stand, Stop>
    requires on { IsOn B.world geometry.now blocks.old }
    requires part { 0 < length part.now }
    ensures reads { Reads B.world blocks.old blocks.new (λ d. (t : Tree) → Holds geometry.now d t → IsTrue (is_some (t.nodes at.here))
        → Answers result (Arrives t user at (part.now ∷ []))) }
    ensures links { IfOk result (λ s. s.links ≤ at.links) }
    ensures stop { IfErr result (λ s. IsStop B.world blocks.new s) }
    ensures proper { IfErr result (λ s. IfRefused s (λ e. e ≢ Errno.EIO)) }
{
    let there = step(blocks, names, geometry, user, at.here, part)?;
    let mut room = [0; MAX_TARGET];
    let Some(count) = target(blocks, geometry, there, &mut room)? else {
        return Ok(Stand {
            here: there,
            links: at.links,
        });
    };
    if at.links == 0 {
        return Err(Stop::Refused(Errno::ELOOP));
    }
    let bytes = &room[..count];
    let Some(parts) = Parts::of_target(bytes) else {
        return Err(Stop::Refused(Errno::ENAMETOOLONG));
    };
    let next = Stand {
        here: start(at.here, bytes),
        links: at.links - 1,
    };
    lead(blocks, names, geometry, user, next, parts)
}

/// Where parts of a path lead from its start.
pub(crate) fn walk_parts<B: Blocks>(
    blocks: &mut B,
    names: &mut NameCache,
    geometry: &Geometry,
    user: User,
    start: Start,
    parts: Parts,
) -> Result<u32, Stop>
    requires on { IsOn B.world geometry.now blocks.old }
    ensures reads { Reads B.world blocks.old blocks.new (λ d. (t : Tree) → Holds geometry.now d t
        → Answers result (Walks t user (record { start = start; parts = parts.entry }))) }
    ensures stop { IfErr result (λ s. IsStop B.world blocks.new s) }
    ensures proper { IfErr result (λ s. IfRefused s (λ e. e ≢ Errno.EIO)) }
{
    let here = first_node(blocks, geometry, user, start)?;
    let first = Stand {
        here,
        links: MOST_LINKS,
    };
    let end = lead(blocks, names, geometry, user, first, parts)?;
    Ok(end.here)
}

/// The inode to which a path leads: the tree's walk, with its refusals in their order. From a start that is a node, EACCES for another
/// user than 0, and ENOENT where no node has the number. Then from each part but the last a directory is entered: ENOTDIR where it is a
/// file, EACCES where the user may not search it, then ENOENT where the name is missing. Where the volume isn't sound, any inode may be
/// answered, any refusal but EIO, or Unsound; each part is read once.
pub fn walk<B: Blocks>(
    blocks: &mut B,
    names: &mut NameCache,
    geometry: &Geometry,
    user: User,
    path: &Path,
) -> Result<u32, Stop>
    requires on { IsOn B.world geometry.now blocks.old }
    ensures reads { Reads B.world blocks.old blocks.new (λ d. (t : Tree) → Holds geometry.now d t
        → Answers result (Walks t user path.now)) }
    ensures stop { IfErr result (λ s. IsStop B.world blocks.new s) }
    ensures proper { IfErr result (λ s. IfRefused s (λ e. e ≢ Errno.EIO)) }
{
    walk_parts(blocks, names, geometry, user, path.start(), path.parts())
}
