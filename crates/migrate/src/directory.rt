//! A directory's entries as version 3 has them.

ghost use Rattle.std.specs.Prelude.{◌≤◌, IfOk};
ghost use Rattle.tree.specs.Tree.{most_size};
ghost use Rattle.volume.specs.Nodes.{file_byte};
ghost use Rattle.image.specs.Contents.{contents};
ghost use Rattle.fsck.specs.Form.{version_2};
ghost use Rattle.fsck.specs.Nodes.{entry_count_of};
ghost use Rattle.migrate.specs.Written.{AreEntries};

use crate::old_volume::entries::{entry, entry_count, is_free};
use image::Image;
use std::alloc::{AllocError, Global};
use volume::Inode;

/// The entries of a version 2 directory, without the free ones, each in the 64 bytes of version 3.
pub(crate) fn new_entries(
    alloc: Global,
    image: &Image,
    inode: &Inode,
) -> Result<Vec<u8>, AllocError>
    requires { inode.now.size ≤ most_size }
    ensures { IfOk result (λ bytes. AreEntries (file_byte image.now.geometry (contents image.now) inode.now)
        (entry_count_of version_2 inode.now) bytes.items) }
{
    let mut bytes = Vec::new(alloc);
    for number in 0..entry_count(inode) {
        let entry = entry(image, inode, number);
        if is_free(&entry, number) {
            continue;
        }
        bytes.extend_from_slice(&entry)?;
    }
    Ok(bytes)
}
