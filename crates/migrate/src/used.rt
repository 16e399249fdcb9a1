//! How many zones the tree of an old volume uses, with entries of version 3 and blocks of 1024 bytes.

ghost use Rattle.std.specs.Prelude.{◌≡◌, ◌≤◌, ◌<◌, ◌+◌, ◌*◌, ◌-◌, ℕ, true};
ghost use Rattle.lemmas.specs.Sums.{one_if};
ghost use Rattle.tree.specs.Tree.{most_size};
ghost use Rattle.tree.specs.Space.{zones_of};
ghost use Rattle.image.specs.Contents.{contents};
ghost use Rattle.fsck.specs.Form.{version_2};
ghost use Rattle.migrate.specs.Holds.{IsSound};
ghost use Rattle.fsck.specs.Nodes.{nodes_of};
ghost use Rattle.migrate.specs.Used.{blocks_over, most_below, name_count, zones_below, zones_for, zones_in, zones_of_all, SizesAreGood};

use crate::moving::level_of;
use crate::new_zones::NUMBERS;
use crate::old_volume::entries::{entry, entry_count, is_free};
use crate::volume_blocks::{BLOCK, VolumeBlocks};
use image::is_directory_mode;
use volume::Inode;

/// How many zones the tree uses.
pub(crate) fn zones_used(old: &VolumeBlocks) -> usize
    requires sound { IsSound version_2 old.now.image.geometry (contents old.now.image) }
    requires sizes { SizesAreGood old.now.image }
    ensures { result ≡ zones_of_all old.now.image.geometry (nodes_of version_2 old.now.image.geometry (contents old.now.image)) }
{
    let mut used = 0;
    for n in 0..old.image.geometry().inodes + 1 {
        used += zones_of_node(old, n);
    }
    used
}

/// How many zones node n uses, if there is one.
fn zones_of_node(old: &VolumeBlocks, n: u32) -> usize
    requires sound { IsSound version_2 old.now.image.geometry (contents old.now.image) }
    requires sizes { SizesAreGood old.now.image }
    ensures value { result ≡ zones_of old.now.image.geometry (nodes_of version_2 old.now.image.geometry (contents old.now.image) n) }
    ensures few { result ≤ 268435456 }
{
    if !old.image.is_marked(n) {
        return 0;
    }
    let inode = old.image.inode(n);
    if is_directory_mode(inode.mode) {
        let bytes = 64 * (name_count(old, &inode) as usize + 2);
        zones_for((bytes + BLOCK - 1) / BLOCK)
    } else {
        zones_of_file(old, &inode)
    }
}

/// How many zones an inode's numbers lead to.
fn zones_of_file(old: &VolumeBlocks, inode: &Inode) -> usize
    ensures value { result ≡ zones_in (contents old.now.image) inode.now }
    ensures few { result ≤ 268435456 }
{
    let mut used = 0;
    for slot in 0..10 {
        used += zones_below(old, inode.zones[slot], level_of(slot));
    }
    used
}

/// How many zones stand at a number of a level and below it.
fn zones_below(old: &VolumeBlocks, zone: u32, level: usize) -> usize
    requires low { level < 4 }
    ensures value { result ≡ zones_below (contents old.now.image) level zone }
    ensures few { result ≤ most_below level }
{
    if zone == 0 {
        return 0;
    }
    if level == 0 {
        return 1;
    }
    let mut used = 1;
    for j in 0..NUMBERS {
        used += zones_below(old, old.image.number(zone, j), level - 1);
    }
    used
}

/// How many entries of a directory past the first two aren't free.
fn name_count(old: &VolumeBlocks, inode: &Inode) -> u32
    requires { inode.now.size ≤ most_size }
    ensures value { result ≡ name_count old.now.image.geometry (contents old.now.image) inode.now }
    ensures few { result ≤ 134217728 }
{
    let mut names = 0;
    for number in 2..entry_count(inode) {
        let entry = entry(&old.image, inode, number);
        if is_free(&entry, number) {
            continue;
        }
        names += 1;
    }
    names
}

/// How many zones the first pages of a file take, their indirect blocks among them.
fn zones_for(pages: usize) -> usize
    requires { pages ≤ 16777216 }
    ensures value { result ≡ zones_for pages }
    ensures few { result ≤ 268435456 }
{
    let triple = if pages > 65799 { 1 } else { 0 };
    pages + blocks_over(pages, 7, 256) + blocks_over(pages, 263, 65536) + triple
}

/// How many blocks, each of so many pages, cover those from a first one on.
fn blocks_over(pages: usize, first: usize, width: usize) -> usize
    requires pages { pages ≤ 16777216 }
    requires some { 1 ≤ width }
    requires small { width ≤ 65536 }
    ensures value { result ≡ blocks_over pages first width }
    ensures few { result ≤ 16842752 }
{
    (pages.saturating_sub(first) + width - 1) / width
}
