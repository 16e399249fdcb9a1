//! Moving the nodes of an old volume to fresh zones of a new one.

ghost use Rattle.std.specs.Prelude.{◌≡◌, ◌≤◌, ◌<◌, ◌+◌, ◌*◌, ◌/◌, IfOk, OnOk, length, true};
ghost use Rattle.volume.specs.Nodes.{is_marked, slot};
ghost use Rattle.image.specs.Contents.{contents};
ghost use Rattle.image.specs.Entered.{level_of};
ghost use Rattle.tree.specs.Tree.{most_size};
ghost use Rattle.tree.specs.Space.{zones_of};
ghost use Rattle.fsck.specs.Form.{version_2};
ghost use Rattle.fsck.specs.Nodes.{entry_count_of, nodes_of};
ghost use Rattle.migrate.specs.Holds.{IsSound};
ghost use Rattle.migrate.specs.Pages.{first_page, pages_for, pages_in};
ghost use Rattle.migrate.specs.Used.{SizesAreGood, name_count, zones_for, zones_in};
ghost use Rattle.migrate.specs.Written.{IsMoved, IsMovedDirectory, IsMovedNode};
ghost use Rattle.migrate.specs.Zones.{Takes, zone_bytes};

use crate::directory::new_entries;
use crate::new_zones::{NUMBERS, NewZones};
use crate::volume_blocks::VolumeBlocks;
use image::is_directory_mode;
use std::alloc::{AllocError, Global};
use volume::Inode;

/// Inode n with all that it leads to moved to fresh zones; a directory's entries are rewritten.
pub(crate) fn moved(
    alloc: Global,
    old: &VolumeBlocks,
    n: u32,
    zones: &mut NewZones,
) -> Result<Inode, AllocError>
    requires sound { IsSound version_2 old.now.image.geometry (contents old.now.image) }
    requires marked { is_marked old.now.image.geometry (contents old.now.image) n ≡ true }
    requires sizes { SizesAreGood old.now.image }
    requires room { length zones.old.image.items
        + 1024 * zones_of old.now.image.geometry (nodes_of version_2 old.now.image.geometry (contents old.now.image) n) ≤ zones.old.limit }
    ensures takes { OnOk result (Takes
        (zones_of old.now.image.geometry (nodes_of version_2 old.now.image.geometry (contents old.now.image) n))
        zones.old.limit zones.new.limit zones.old.image.items zones.new.image.items) }
    ensures node { IfOk result (λ y. IsMovedNode old.now.image.geometry (contents old.now.image) (zone_bytes zones.new.image.items)
        (length zones.old.image.items / 1024) ((contents old.now.image).inodes n) y) }
{
    let inode = old.image.inode(n);
    if is_directory_mode(inode.mode) {
        moved_directory(alloc, old, &inode, zones)
    } else {
        moved_file(old, &inode, zones)
    }
}

/// A directory's inode, with its entries as version 3 has them.
fn moved_directory(
    alloc: Global,
    old: &VolumeBlocks,
    inode: &Inode,
    zones: &mut NewZones,
) -> Result<Inode, AllocError>
    requires small { inode.now.size ≤ most_size }
    requires two { 2 ≤ entry_count_of version_2 inode.now }
    requires room { length zones.old.image.items
        + 1024 * zones_for (pages_for (64 * (name_count old.now.image.geometry (contents old.now.image) inode.now + 2))) ≤ zones.old.limit }
    ensures takes { OnOk result (Takes
        (zones_for (pages_for (64 * (name_count old.now.image.geometry (contents old.now.image) inode.now + 2))))
        zones.old.limit zones.new.limit zones.old.image.items zones.new.image.items) }
    ensures moved { IfOk result (λ y. IsMovedDirectory old.now.image.geometry (contents old.now.image) (zone_bytes zones.new.image.items)
        (length zones.old.image.items / 1024) inode.now y) }
{
    let entries = new_entries(alloc, &old.image, inode)?;
    let mut numbers = [0; 10];
    for slot in 0..10 {
        numbers[slot] = zones.lay(&entries, first_page(slot), level_of(slot))?;
    }
    Ok(Inode {
        size: entries.len() as u32,
        zones: numbers,
        ..*inode
    })
}

/// The inode of what is no directory, with its zones copied.
fn moved_file(old: &VolumeBlocks, inode: &Inode, zones: &mut NewZones) -> Result<Inode, AllocError>
    requires { length zones.old.image.items + 1024 * zones_in (contents old.now.image) inode.now ≤ zones.old.limit }
    ensures takes { OnOk result (Takes (zones_in (contents old.now.image) inode.now) zones.old.limit zones.new.limit
        zones.old.image.items zones.new.image.items) }
    ensures moved { IfOk result (λ y. IsMoved (pages_in (contents old.now.image)) (slot inode.now) inode.now.size
        (zone_bytes zones.new.image.items) (length zones.old.image.items / 1024) inode.now y) }
{
    let mut numbers = [0; 10];
    for slot in 0..10 {
        numbers[slot] = zones.copy(old, inode.zones[slot], level_of(slot))?;
    }
    Ok(Inode {
        zones: numbers,
        ..*inode
    })
}

/// The level of a slot's zone: 0 is a page, 1 to 3 are the indirect blocks.
pub(crate) fn level_of(slot: usize) -> usize
    ensures { result ≡ level_of slot }
{
    if slot < 7 { 0 } else { slot - 6 }
}

/// The first page to which a slot leads.
fn first_page(slot: usize) -> usize
    requires { slot < 10 }
    ensures { result ≡ first_page slot }
{
    match slot {
        8 => 7 + NUMBERS,
        9 => 7 + NUMBERS + NUMBERS * NUMBERS,
        _ => slot,
    }
}
