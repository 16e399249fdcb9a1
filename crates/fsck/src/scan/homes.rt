//! Where directories stand, and link counts.

ghost use Rattle.std.specs.Prelude.{◌≡◌, ◌≤◌, ◌+◌, ◌-◌, ◌==◌, ℕ, true, false, length, not, slice_index, if◌then◌else◌};
ghost use Rattle.lemmas.specs.Sums.{one_if};
ghost use Rattle.volume.specs.Entries.{is_directory_inode};
ghost use Rattle.fsck.specs.Findings.{has_bad_links, has_bad_size, is_misplaced, subdirectories_of};
ghost use Rattle.volume.specs.Verdict.{place_limit};
ghost use Rattle.image.specs.Contents.{contents};
ghost use Rattle.image.specs.Least.{least_of};
ghost use Rattle.fsck.specs.Form.{form_of};
ghost use Rattle.fsck.specs.Named.{AreNamed};
ghost use Rattle.fsck.specs.Reached.{AreReached};

use crate::entries::entry_count;
use crate::scan::dots::target;
use crate::version::Version;
use image::{Image, least_passing};

/// The least directory that isn't reached from the root, is named other than once, or whose .. isn't its parent. Each has two
/// entries; it is known how often each inode is named, a directory that names it, and whether it is reached.
pub(crate) fn misplaced(
    version: Version,
    image: &Image,
    named: &[u16],
    namer: &[u16],
    seen: &[bool],
) -> Option<u32>
    requires sizes { (n : ℕ) → has_bad_size (form_of version) image.now.geometry (contents image.now) n ≡ false }
    requires named { AreNamed (form_of version) image.now named.now namer.now }
    requires seen { AreReached (form_of version) image.now seen.now }
    requires seen_size { length seen.now ≡ image.now.geometry.inodes + 1 }
    ensures { result ≡ least_of (is_misplaced (form_of version) image.now.geometry (contents image.now)) (place_limit image.now.geometry) }
{
    least_passing(
        image.geometry().inodes + 1,
        |n| is_misplaced(version, image, named, namer, seen, n),
    )
}

/// Whether n is such a directory.
fn is_misplaced(
    version: Version,
    image: &Image,
    named: &[u16],
    namer: &[u16],
    seen: &[bool],
    n: u32,
) -> bool
    requires sizes { (n : ℕ) → has_bad_size (form_of version) image.now.geometry (contents image.now) n ≡ false }
    requires named { AreNamed (form_of version) image.now named.now namer.now }
    requires seen { AreReached (form_of version) image.now seen.now }
    requires seen_size { length seen.now ≡ image.now.geometry.inodes + 1 }
    ensures { result ≡ is_misplaced (form_of version) image.now.geometry (contents image.now) n }
{
    if !image.is_directory(n) {
        return false;
    }
    let inode = image.inode(n);
    let place = n as usize;
    if !seen[place] {
        return true;
    }
    if u32::from(named[place]) != names_wanted(n) {
        return true;
    }
    !is_home(
        n,
        u32::from(namer[place]),
        target(version, image, &inode, 1),
    )
}

/// How many names a directory has: the root none, others one.
fn names_wanted(n: u32) -> u32
    ensures { result ≡ one_if (not (n == 1)) }
{
    if n == 1 { 0 } else { 1 }
}

/// Whether m is the parent of n, which m' names: the root's is the root.
fn is_home(n: u32, namer: u32, m: u32) -> bool
    ensures { result ≡ (if n == 1 then m == 1 else m == namer) }
{
    if n == 1 { m == 1 } else { m == namer }
}

/// The least inode with another link count than it should have, 0, or one over the greatest.
pub(crate) fn bad_links(
    version: Version,
    image: &Image,
    named: &[u16],
    namer: &[u16],
) -> Option<u32>
    requires sizes { (n : ℕ) → has_bad_size (form_of version) image.now.geometry (contents image.now) n ≡ false }
    requires named { AreNamed (form_of version) image.now named.now namer.now }
    ensures { result ≡ least_of (has_bad_links (form_of version) image.now.geometry (contents image.now)) (place_limit image.now.geometry) }
{
    least_passing(
        image.geometry().inodes + 1,
        |n| has_bad_links(version, image, named, namer, n),
    )
}

/// Whether n is such an inode.
fn has_bad_links(version: Version, image: &Image, named: &[u16], namer: &[u16], n: u32) -> bool
    requires sizes { (n : ℕ) → has_bad_size (form_of version) image.now.geometry (contents image.now) n ≡ false }
    requires named { AreNamed (form_of version) image.now named.now namer.now }
    ensures { result ≡ has_bad_links (form_of version) image.now.geometry (contents image.now) n }
{
    if !image.is_marked(n) {
        return false;
    }
    let links = u32::from(image.links(n));
    if links == 0 {
        return true;
    }
    if 32767 < links {
        return true;
    }
    if image.is_directory(n) {
        return links != 2 + subdirectories(version, image, n);
    }
    links != u32::from(named[n as usize])
}

/// How many names of directory n lead to directories.
fn subdirectories(version: Version, image: &Image, n: u32) -> u32
    requires sizes { (n : ℕ) → has_bad_size (form_of version) image.now.geometry (contents image.now) n ≡ false }
    requires directory { is_directory_inode image.now.geometry (contents image.now) n ≡ true }
    ensures value { result ≡ subdirectories_of (form_of version) image.now.geometry (contents image.now) n }
    ensures most { result ≤ 268435456 }
{
    let inode = image.inode(n);
    let mut count = 0;
    for number in 2..entry_count(version, &inode) {
        count += one_when(image.is_directory(target(version, image, &inode, number)));
    }
    count
}

/// 1 where it holds, else 0.
fn one_when(holds: bool) -> u32
    ensures { result ≡ one_if holds }
{
    if holds { 1 } else { 0 }
}
