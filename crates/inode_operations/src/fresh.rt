//! A free inode becomes a node.

ghost use Rattle.std.specs.Prelude.{◌≡◌, ◌≤◌, ◌<◌, IfErr, IfOk, IfSome, IsTrue, length};
ghost use Rattle.tree.specs.Tree.{directory_type, file_type, link_type, most_permissions, most_target};
ghost use Rattle.volume.specs.Pieces.{pieces};
ghost use Rattle.volume.specs.Reading.{is_inode};
ghost use Rattle.block_store.specs.World.{Reads, Turns};
ghost use Rattle.block_store.specs.Halts.{Ends, IsHalt};
ghost use Rattle.block_store.specs.Volume.{Alters, IsOn};
ghost use Rattle.inode_operations.specs.NewNodes.{new_inode, with_new_inode, IsLeastFree, MakesDirectory, MakesFile, MayMakeDirectory, MakesLink, MayMakeFile, MayMakeLink};

use bitmap::{Map, lowest_free, set};
use block_store::{Blocks, Cut, Halt};
use directory::first_entries;
use file::write_at;
use inode::inode_table::store;
use layout::Geometry;
use tree::{MAX_PERMISSIONS, User};
use volume::Inode;

/// The type bits of a file's mode.
const FILE: u16 = 0o100000;

/// The type bits of a directory's mode.
const DIRECTORY: u16 = 0o040000;

/// The type bits of a symbolic link's mode.
const LINK: u16 = 0o120000;

/// The least number of an inode that is free. None where each is in use.
pub fn free_inode<B: Blocks>(blocks: &mut B, geometry: &Geometry) -> Result<Option<u32>, Cut>
    requires on { IsOn B.world geometry.now blocks.old }
    ensures reads { Reads B.world blocks.old blocks.new (λ d. IfOk result (λ x. IsLeastFree geometry.now (pieces geometry.now d) x)) }
    ensures cut { IfErr result (λ c. B.world.over blocks.new c) }
{
    lowest_free(blocks, geometry, Map::Inodes)
}

/// The inode of a new node of this type: it has no bytes and no zones.
fn new_inode(kind: u16, links: u16, user: User, now: u32, permissions: u16) -> Inode
    requires kind { kind ≤ link_type }
    requires permissions { permissions ≤ most_permissions }
    ensures { result ≡ new_inode kind links user now permissions }
{
    Inode {
        mode: kind + permissions,
        links,
        uid: user.uid,
        gid: user.gid,
        size: 0,
        atime: now,
        mtime: now,
        ctime: now,
        zones: [0; 10],
    }
}

/// Makes this the inode of a number, and marks it. Unsound only where no inode has the number.
fn mark<B: Blocks>(
    blocks: &mut B,
    geometry: &Geometry,
    number: u32,
    inode: &Inode,
) -> Result<(), Halt>
    requires on { IsOn B.world geometry.now blocks.old }
    ensures turns { Turns B.world blocks.old blocks.new (λ d e. Ends result
        (λ x. Alters geometry.now (with_new_inode (pieces geometry.now d) number inode.now) d e) (IsTrue (is_inode geometry.now number))) }
    ensures halt { IfErr result (λ h. IsHalt B.world blocks.new h) }
{
    store(blocks, geometry, number, inode)?;
    set(blocks, geometry, Map::Inodes, number)?;
    Ok(())
}

/// Makes a file of no bytes, of one link, which is the user's: the inode of that number, which is free, is written whole and marked.
/// Its times are `now`, in seconds. Unsound only where no inode has the number.
pub fn new_file<B: Blocks>(
    blocks: &mut B,
    geometry: &Geometry,
    number: u32,
    user: User,
    now: u32,
    permissions: u16,
) -> Result<(), Halt>
    requires on { IsOn B.world geometry.now blocks.old }
    requires permissions { permissions ≤ most_permissions }
    ensures turns { Turns B.world blocks.old blocks.new (λ d e. Ends result
        (λ x. MakesFile geometry.now number user now permissions d e) (MayMakeFile geometry.now (pieces geometry.now d) number)) }
    ensures halt { IfErr result (λ h. IsHalt B.world blocks.new h) }
{
    let inode = new_inode(FILE, 1, user, now, permissions);
    mark(blocks, geometry, number, &inode)
}

/// Makes a directory without names, of two links, which is the user's: a free inode is written whole and marked, and its first page
/// gets the entries `.` and `..`. Its times are `now`, in seconds. That a zone is free is asked for before. Unsound only where no inode
/// has the number, or the volume isn't sound.
pub fn new_directory<B: Blocks>(
    blocks: &mut B,
    geometry: &Geometry,
    number: u32,
    parent: u32,
    user: User,
    now: u32,
    permissions: u16,
) -> Result<(), Halt>
    requires on { IsOn B.world geometry.now blocks.old }
    requires permissions { permissions ≤ most_permissions }
    ensures turns { Turns B.world blocks.old blocks.new (λ d e. Ends result
        (λ x. MakesDirectory geometry.now number parent user now permissions d e)
        (MayMakeDirectory geometry.now (pieces geometry.now d) number parent)) }
    ensures halt { IfErr result (λ h. IsHalt B.world blocks.new h) }
{
    let inode = new_inode(DIRECTORY, 2, user, now, permissions);
    mark(blocks, geometry, number, &inode)?;
    write_at(blocks, geometry, number, 0, &first_entries(number, parent))
}

/// Makes a symbolic link with this target, of one link, which is the user's, and with which all may do all: a free inode is written whole
/// and marked, and its first page gets the target's bytes. Its times are `now`, in seconds. That a zone is free is asked for before.
/// Unsound only where no inode has the number, or the volume isn't sound.
pub fn new_link<B: Blocks>(
    blocks: &mut B,
    geometry: &Geometry,
    number: u32,
    user: User,
    now: u32,
    target: &[u8],
) -> Result<(), Halt>
    requires on { IsOn B.world geometry.now blocks.old }
    requires some { 0 < length target.now }
    requires few { length target.now ≤ most_target }
    ensures turns { Turns B.world blocks.old blocks.new (λ d e. Ends result
        (λ x. MakesLink geometry.now number user now target.now d e)
        (MayMakeLink geometry.now (pieces geometry.now d) number)) }
    ensures halt { IfErr result (λ h. IsHalt B.world blocks.new h) }
{
    let inode = new_inode(LINK, 1, user, now, MAX_PERMISSIONS);
    mark(blocks, geometry, number, &inode)?;
    write_at(blocks, geometry, number, 0, target)
}
