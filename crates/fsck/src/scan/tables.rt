//! Who names an inode, and how often.

ghost use Rattle.std.specs.Prelude.{◌≡◌, ◌≤◌, ◌<◌, ◌+◌, ◌==◌, ℕ, false, length, min, slice_index};
ghost use Rattle.lemmas.specs.Sums.{one_if};
ghost use Rattle.fsck.specs.Findings.{has_bad_size, names_in_of};
ghost use Rattle.image.specs.Contents.{contents};
ghost use Rattle.fsck.specs.Form.{form_of};
ghost use Rattle.fsck.specs.Named.{AreNamed, AreNamedMore};

use crate::entries::entry_count;
use crate::scan::dots::target;
use crate::version::Version;
use image::Image;
use volume::Inode;

/// More than the greatest link count: names are counted up to this.
const MOST_NAMES: u16 = 32768;

/// Counts the names of each inode, up to 32768, and notes a directory that names it, the last. The counts are 0 at first.
pub(crate) fn count_names(version: Version, image: &Image, named: &mut [u16], namer: &mut [u16])
    requires sizes { (n : ℕ) → has_bad_size (form_of version) image.now.geometry (contents image.now) n ≡ false }
    requires named_size { length named.old ≡ image.now.geometry.inodes + 1 }
    requires namer_size { length namer.old ≡ image.now.geometry.inodes + 1 }
    requires fresh { (m : ℕ) → slice_index named.old m ≡ 0 }
    ensures { AreNamed (form_of version) image.now named.new namer.new }
{
    for n in 0..image.geometry().inodes + 1 {
        count_names_in(version, image, n, named, namer);
    }
}

/// Counts the names in directory n, and notes it where it names an inode.
fn count_names_in(version: Version, image: &Image, n: u32, named: &mut [u16], namer: &mut [u16])
    requires good { (n : ℕ) → has_bad_size (form_of version) image.now.geometry (contents image.now) n ≡ false }
    requires inode { n ≤ image.now.geometry.inodes }
    requires sizes { length namer.old ≡ length named.old }
    requires most { (m : ℕ) → slice_index named.old m ≤ 32768 }
    ensures most { (m : ℕ) → slice_index named.new m ≤ 32768 }
    ensures more { AreNamedMore n (names_in_of (form_of version) image.now.geometry (contents image.now) n)
        named.old namer.old named.new namer.new }
{
    if !image.is_directory(n) {
        return;
    }
    let inode = image.inode(n);
    for number in 2..entry_count(version, &inode) {
        count_name(target(version, image, &inode, number), n, named, namer);
    }
}

/// Counts a name of inode m in directory n.
fn count_name(m: u32, n: u32, named: &mut [u16], namer: &mut [u16])
    requires inode { n < 65536 }
    requires sizes { length namer.old ≡ length named.old }
    requires most { (m : ℕ) → slice_index named.old m ≤ 32768 }
    ensures most { (m : ℕ) → slice_index named.new m ≤ 32768 }
    ensures more { AreNamedMore n (λ k. one_if (m == k)) named.old namer.old named.new namer.new }
{
    let place = m as usize;
    if place < named.len() {
        namer[place] = n as u16;
        named[place] = one_more(named[place]);
    }
}

/// A count and one, up to the most.
fn one_more(count: u16) -> u16
    ensures { result ≡ min 32768 (count + 1) }
{
    if count < MOST_NAMES {
        count + 1
    } else {
        MOST_NAMES
    }
}
