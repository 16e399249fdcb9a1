//! Holes in directories, their first two entries, and entries that lead nowhere.

ghost use Rattle.std.specs.Prelude.{◌≡◌, ◌≤◌, ◌<◌, ◌==◌, ◌&&◌, ℕ, false, length, nat_le, not};
ghost use Rattle.layout.specs.Bytes.{u32_at};
ghost use Rattle.tree.specs.Tree.{most_size};
ghost use Rattle.volume.specs.Nodes.{file_byte, is_marked};
ghost use Rattle.fsck.specs.Nodes.{entry_count_of, entry_inode};
ghost use Rattle.volume.specs.Entries.{is_directory_inode};
ghost use Rattle.fsck.specs.Entries.{entry_count, target_at};
ghost use Rattle.volume.specs.Findings.{has_hole};
ghost use Rattle.fsck.specs.Findings.{has_bad_dots, has_bad_size, has_bad_target};
ghost use Rattle.volume.specs.Verdict.{place_limit};
ghost use Rattle.image.specs.Contents.{contents};
ghost use Rattle.image.specs.Least.{least_of};
ghost use Rattle.fsck.specs.Form.{form_of};

use crate::entries::{entry, entry_count, is_free};
use crate::version::Version;
use image::{Image, is_field, least_passing};
use layout::u32_at;
use volume::Inode;

/// The least directory with a page below its end that has no zone.
pub(crate) fn hole(image: &Image) -> Option<u32>
    ensures { result ≡ least_of (has_hole image.now.geometry (contents image.now)) (place_limit image.now.geometry) }
{
    least_passing(image.geometry().inodes + 1, |n| has_hole(image, n))
}

/// Whether n is a directory with such a page.
fn has_hole(image: &Image, n: u32) -> bool
    ensures { result ≡ has_hole image.now.geometry (contents image.now) n }
{
    if !image.is_directory(n) {
        return false;
    }
    let inode = image.inode(n);
    for page in 0..image.pages(&inode) {
        if image.page_zone(&inode, page) == 0 {
            return true;
        }
    }
    false
}

/// The least directory whose entry 0 isn't . with its own number, or whose entry 1 isn't named .., where each has two entries.
pub(crate) fn bad_dots(version: Version, image: &Image) -> Option<u32>
    requires { (n : ℕ) → has_bad_size (form_of version) image.now.geometry (contents image.now) n ≡ false }
    ensures { result ≡ least_of (has_bad_dots (form_of version) image.now.geometry (contents image.now)) (place_limit image.now.geometry) }
{
    least_passing(
        image.geometry().inodes + 1,
        |n| has_bad_dots(version, image, n),
    )
}

/// Whether n is a directory with such entries.
fn has_bad_dots(version: Version, image: &Image, n: u32) -> bool
    requires { (n : ℕ) → has_bad_size (form_of version) image.now.geometry (contents image.now) n ≡ false }
    ensures { result ≡ has_bad_dots (form_of version) image.now.geometry (contents image.now) n }
{
    if !image.is_directory(n) {
        return false;
    }
    let inode = image.inode(n);
    let first = entry(version, image, &inode, 0);
    if !is_field(&first, b".") {
        return true;
    }
    if u32_at(&first, 0) != n {
        return true;
    }
    !is_field(&entry(version, image, &inode, 1), b"..")
}

/// The least directory with an entry that leads to no marked inode.
pub(crate) fn bad_target(version: Version, image: &Image) -> Option<u32>
    requires { (n : ℕ) → has_bad_size (form_of version) image.now.geometry (contents image.now) n ≡ false }
    ensures { result ≡ least_of (has_bad_target (form_of version) image.now.geometry (contents image.now)) (place_limit image.now.geometry) }
{
    least_passing(
        image.geometry().inodes + 1,
        |n| has_bad_target(version, image, n),
    )
}

/// Whether n is a directory with such an entry.
fn has_bad_target(version: Version, image: &Image, n: u32) -> bool
    requires { (n : ℕ) → has_bad_size (form_of version) image.now.geometry (contents image.now) n ≡ false }
    ensures { result ≡ has_bad_target (form_of version) image.now.geometry (contents image.now) n }
{
    if !image.is_directory(n) {
        return false;
    }
    let inode = image.inode(n);
    for number in 0..entry_count(version, &inode) {
        if is_lost(
            version,
            image,
            &entry(version, image, &inode, number),
            number,
        ) {
            return true;
        }
    }
    false
}

/// Whether an entry isn't free, and leads to no marked inode.
fn is_lost(version: Version, image: &Image, entry: &[u8], number: u32) -> bool
    requires { length entry.now ≡ 64 }
    ensures { result ≡ (not ((form_of version).may_be_free && (nat_le 2 number && (u32_at entry.now 0 == 0)))
        && not (is_marked image.now.geometry (contents image.now) (u32_at entry.now 0))) }
{
    !is_free(version, entry, number) && !image.is_marked(u32_at(entry, 0))
}

/// The inode number of an entry of an inode's file.
pub(crate) fn target(version: Version, image: &Image, inode: &Inode, number: u32) -> u32
    requires there { number < entry_count_of (form_of version) inode.now }
    requires small { inode.now.size ≤ most_size }
    ensures { result ≡ entry_inode (form_of version) (file_byte image.now.geometry (contents image.now) inode.now) number }
{
    u32_at(&entry(version, image, inode, number), 0)
}
