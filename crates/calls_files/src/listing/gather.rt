//! The names of a directory, entry by entry.

ghost use Rattle.std.specs.Prelude.{◌≡◌, ◌≤◌, ◌+◌, ◌*◌, IfErr, IfOk, OnOk, map};
ghost use Rattle.block_store.specs.Halts.{Ends, IsHalt};
ghost use Rattle.block_store.specs.Volume.{IsOn};
ghost use Rattle.block_store.specs.World.{Reads};
ghost use Rattle.tree.specs.Answers.{entry_of};
ghost use Rattle.tree.specs.Names.{with_name};
ghost use Rattle.volume.specs.Nodes.{directory_of, entry_count_of, entry_inode, entry_name, file_byte};
ghost use Rattle.volume.specs.Pieces.{pieces};
ghost use Rattle.calls_files.specs.Numbers.{HasInodes};

use crate::listing::names::NameMap;
use block_store::{Blocks, Halt};
use directory::{entry, entry_inode, entry_name};
use layout::Geometry;
use std::alloc::{AllocError, Global};
use tree::Entry;
use volume::Inode;

/// Puts the name of entry k of a directory among others, if there is memory for it. Unsound only where its number is none of an inode.
fn put_entry<B: Blocks>(
    alloc: Global,
    names: &mut NameMap,
    blocks: &mut B,
    geometry: &Geometry,
    inode: &Inode,
    k: u32,
) -> Result<Result<(), AllocError>, Halt>
    requires on { IsOn B.world geometry.now blocks.old }
    requires below { 64 * k + 64 ≤ inode.now.size }
    ensures reads { Reads B.world blocks.old blocks.new (λ d. let f = file_byte geometry.now (pieces geometry.now d) inode.now in
        Ends result (λ r. OnOk r (names.new ≡ with_name names.old (entry_name f k) (entry_inode f k))) (entry_inode f k ≤ 65535)) }
    ensures halt { IfErr result (λ h. IsHalt B.world blocks.new h) }
{
    let bytes = entry(blocks, geometry, inode, k)?;
    let number = entry_inode(&bytes, 0);
    if number > 65535 {
        return Err(Halt::Unsound);
    }
    Ok(names.put(alloc, entry_name(&bytes, 0), number as u16))
}

/// All names of a directory, if there is memory for them.
fn names_of<B: Blocks>(
    alloc: Global,
    blocks: &mut B,
    geometry: &Geometry,
    inode: &Inode,
) -> Result<Result<NameMap, AllocError>, Halt>
    requires on { IsOn B.world geometry.now blocks.old }
    ensures reads { Reads B.world blocks.old blocks.new (λ d. let v = pieces geometry.now d in Ends result
        (λ r. IfOk r (λ names. names ≡ (directory_of geometry.now v inode.now).names)) (HasInodes (file_byte geometry.now v inode.now)
        (entry_count_of inode.now))) }
    ensures halt { IfErr result (λ h. IsHalt B.world blocks.new h) }
{
    let mut names = NameMap::new(alloc);
    for k in 2..inode.size / 64 {
        if let Err(error) = put_entry(alloc, &mut names, blocks, geometry, inode, k)? {
            return Ok(Err(error));
        }
    }
    Ok(Ok(names))
}

/// All names of a directory in the order of their bytes, with their inodes, if there is memory for them. Unsound only where a number is
/// none of an inode. Any bytes may stand in the directory: each entry is read once.
pub(crate) fn entries_of<B: Blocks>(
    alloc: Global,
    blocks: &mut B,
    geometry: &Geometry,
    inode: &Inode,
) -> Result<Result<Vec<Entry>, AllocError>, Halt>
    requires on { IsOn B.world geometry.now blocks.old }
    ensures reads { Reads B.world blocks.old blocks.new (λ d. let v = pieces geometry.now d in Ends result
        (λ r. IfOk r (λ entries. map entry_of entries.items ≡ (directory_of geometry.now v inode.now).names))
        (HasInodes (file_byte geometry.now v inode.now) (entry_count_of inode.now))) }
    ensures halt { IfErr result (λ h. IsHalt B.world blocks.new h) }
{
    match names_of(alloc, blocks, geometry, inode)? {
        Ok(names) => Ok(names.into_entries(alloc)),
        Err(error) => Ok(Err(error)),
    }
}
