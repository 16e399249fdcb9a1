//! The node of a descriptor's open file.

ghost use Rattle.std.specs.Prelude.{◌≡◌, ◌<◌, ◌≤◌, IfOk, IfErr, IfSome, option_map};
ghost use Rattle.tree.specs.Tree.{most_sessions, most_size};
ghost use Rattle.volume.specs.Nodes.{is_directory_mode, is_link_mode};
ghost use Rattle.volume.specs.Pieces.{pieces};
ghost use Rattle.descriptors.specs.Files.{HasFiles, file_at};
ghost use Rattle.descriptors.specs.Table.{files_of};
ghost use Rattle.block_store.specs.World.{Reads};
ghost use Rattle.block_store.specs.Volume.{IsOn};
ghost use Rattle.block_store.specs.Halts.{IsHalt, Ends};
ghost use Rattle.calls_attributes.specs.Does.{IsHeld};
ghost use Rattle.calls_attributes.specs.Found.{file_of};

use block_store::{Blocks, Halt};
use descriptors::Descriptors;
use inode::inode_table::load;
use layout::Geometry;
use tree::OpenFlags;
use volume::Inode;

/// An open file, and the inode of its node.
#[derive(Clone, Copy)]
pub struct Found {
    /// The number of the inode.
    pub number: u16,
    /// The place of the next read or write.
    pub position: u32,
    /// The flags that it was opened with.
    pub flags: OpenFlags,
    /// The inode.
    pub inode: Inode,
}

/// Whether an inode is a directory's.
pub fn is_directory(inode: &Inode) -> bool
    ensures { result ≡ is_directory_mode inode.now.mode }
{
    inode.mode / 4096 == 4
}

/// Whether an inode is a symbolic link's.
pub fn is_link(inode: &Inode) -> bool
    ensures { result ≡ is_link_mode inode.now.mode }
{
    inode.mode / 4096 == 10
}

/// The open file to which a descriptor leads, with its inode, if it leads to one. Nothing is changed.
pub fn find<B: Blocks>(
    blocks: &mut B,
    opens: &Descriptors,
    geometry: &Geometry,
    session: u8,
    fd: u32,
) -> Result<Option<Found>, Halt>
    requires on { IsOn B.world geometry.now blocks.old }
    requires session { session < most_sessions }
    ensures file { IfOk result (λ x. option_map file_of x ≡ file_at (files_of opens.now) session fd) }
    ensures within { IfOk result (λ x. IfSome x (λ y. y.position ≤ most_size)) }
    ensures reads { Reads B.world blocks.old blocks.new (λ d. Ends result
        (λ x. IfSome x (λ y. y.inode ≡ (pieces geometry.now d).inodes y.number)) (IsHeld geometry.now (HasFiles (files_of opens.now)) d)) }
    ensures halt { IfErr result (λ h. IsHalt B.world blocks.new h) }
{
    opens.keep_limits();
    match opens.get(session, fd) {
        None => Ok(None),
        Some((number, position, flags)) => {
            let inode = load(blocks, geometry, u32::from(number))?;
            Ok(Some(Found {
                number,
                position,
                flags,
                inode,
            }))
        }
    }
}
