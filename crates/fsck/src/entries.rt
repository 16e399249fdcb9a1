//! The entries of a directory: an inode number and a name, filled with zeros.

ghost use Rattle.std.specs.Prelude.{◌≡◌, ◌<◌, ◌≤◌, ◌+◌, ◌*◌, ◌==◌, ◌&&◌, ℕ, length, slice_index, nat_le};
ghost use Rattle.tree.specs.Tree.{most_size};
ghost use Rattle.layout.specs.Bytes.{u32_at};
ghost use Rattle.volume.specs.Nodes.{file_byte};
ghost use Rattle.image.specs.Contents.{contents};
ghost use Rattle.fsck.specs.Form.{form_of, version_2, version_3};
ghost use Rattle.fsck.specs.Nodes.{entry_count_of, entry_name};
ghost use Rattle.fsck.specs.Widened.{IsWidened};

use crate::version::Version;
use image::{Image, name_of};
use layout::u32_at;
use volume::Inode;

/// How many entries a directory has, free ones among them.
pub fn entry_count(version: Version, inode: &Inode) -> u32
    ensures value { result ≡ entry_count_of (form_of version) inode.now }
    ensures few { result ≤ 268435456 }
{
    inode.size / version.entry_size()
}

/// An entry of a directory in the 64 bytes that version 3 has for it: a number of four, and 60 of name. Where no data zone lies there,
/// zeros.
pub fn entry(version: Version, image: &Image, inode: &Inode, number: u32) -> [u8; 64]
    requires there { number < entry_count_of (form_of version) inode.now }
    requires small { inode.now.size ≤ most_size }
    ensures { IsWidened (form_of version) (file_byte image.now.geometry (contents image.now) inode.now) number result }
{
    match version {
        Version::V2 => widened(image, inode, number),
        Version::V3 => whole(image, inode, number),
    }
}

/// The name of an entry, up to the first zero byte.
pub fn name_at<'a>(version: Version, image: &Image<'a>, inode: &Inode, number: u32) -> &'a [u8]
    requires there { number < entry_count_of (form_of version) inode.now }
    requires small { inode.now.size ≤ most_size }
    ensures { result.now ≡ entry_name (form_of version) (file_byte image.now.geometry (contents image.now) inode.now) number }
{
    match version {
        Version::V2 => short_name(image, inode, number),
        Version::V3 => name_of(image.entry(inode, number)),
    }
}

/// Whether an entry is past the first two, and free where it may be: it names nothing.
pub fn is_free(version: Version, entry: &[u8], number: u32) -> bool
    requires { length entry.now ≡ 64 }
    ensures { result ≡ ((form_of version).may_be_free && (nat_le 2 number && (u32_at entry.now 0 == 0))) }
{
    version.may_be_free() && (2 <= number && u32_at(entry, 0) == 0)
}

/// The 16 bytes of an entry of a version 2 directory; where no data zone lies there, zeros.
fn raw_entry<'a>(image: &Image<'a>, inode: &Inode, number: u32) -> &'a [u8]
    requires there { number < entry_count_of version_2 inode.now }
    requires small { inode.now.size ≤ most_size }
    ensures len { length result.now ≡ 16 }
    ensures bytes { (a : ℕ) → a < 16
        → slice_index result.now a ≡ file_byte image.now.geometry (contents image.now) inode.now (16 * number + a) }
{
    let mut wide = *inode;
    wide.size = u32::MAX;
    let four = image.entry(&wide, number / 4);
    let at = 16 * (number as usize % 4);
    &four[at..at + 16]
}

/// An entry of version 2 in 64 bytes.
fn widened(image: &Image, inode: &Inode, number: u32) -> [u8; 64]
    requires there { number < entry_count_of version_2 inode.now }
    requires small { inode.now.size ≤ most_size }
    ensures { IsWidened version_2 (file_byte image.now.geometry (contents image.now) inode.now) number result }
{
    let raw = raw_entry(image, inode, number);
    let mut wide = [0; 64];
    wide[0] = raw[0];
    wide[1] = raw[1];
    for a in 0..14 {
        wide[4 + a] = raw[2 + a];
    }
    wide
}

/// An entry of version 3.
fn whole(image: &Image, inode: &Inode, number: u32) -> [u8; 64]
    requires { number < entry_count_of version_3 inode.now }
    ensures { IsWidened version_3 (file_byte image.now.geometry (contents image.now) inode.now) number result }
{
    let mut bytes = [0; 64];
    bytes.copy_from_slice(image.entry(inode, number));
    bytes
}

/// The name of an entry of version 2, up to the first zero byte.
fn short_name<'a>(image: &Image<'a>, inode: &Inode, number: u32) -> &'a [u8]
    requires there { number < entry_count_of version_2 inode.now }
    requires small { inode.now.size ≤ most_size }
    ensures { result.now ≡ entry_name version_2 (file_byte image.now.geometry (contents image.now) inode.now) number }
{
    let field = &raw_entry(image, inode, number)[2..];
    for (a, byte) in field.iter().enumerate() {
        if *byte == 0 {
            return &field[..a];
        }
    }
    field
}
