//! The entries of a version 2 directory: 16 bytes, a number of two and 14 of name, filled with zeros.

ghost use Rattle.std.specs.Prelude.{◌≡◌, ◌<◌, ◌≤◌, ◌==◌, ◌&&◌, length, nat_le};
ghost use Rattle.tree.specs.Tree.{most_size};
ghost use Rattle.layout.specs.Bytes.{u32_at};
ghost use Rattle.volume.specs.Nodes.{file_byte};
ghost use Rattle.image.specs.Contents.{contents};
ghost use Rattle.fsck.specs.Form.{version_2};
ghost use Rattle.fsck.specs.Nodes.{entry_count_of};
ghost use Rattle.fsck.specs.Widened.{IsWidened};

use fsck::{Version, entries};
use image::Image;
use volume::Inode;

/// How many entries a directory has, free ones among them.
pub fn entry_count(inode: &Inode) -> u32
    ensures { result ≡ entry_count_of version_2 inode.now }
{
    entries::entry_count(Version::V2, inode)
}

/// An entry of a directory in the 64 bytes that version 3 has for it: a number of four, and 60 of name.
pub fn entry(image: &Image, inode: &Inode, number: u32) -> [u8; 64]
    requires there { number < entry_count_of version_2 inode.now }
    requires small { inode.now.size ≤ most_size }
    ensures { IsWidened version_2 (file_byte image.now.geometry (contents image.now) inode.now) number result }
{
    entries::entry(Version::V2, image, inode, number)
}

/// Whether an entry is past the first two, and free: it names nothing.
pub fn is_free(entry: &[u8], number: u32) -> bool
    requires { length entry.now ≡ 64 }
    ensures { result ≡ (nat_le 2 number && (u32_at entry.now 0 == 0)) }
{
    entries::is_free(Version::V2, entry, number)
}
