//! Zones past the end of a file, and indirect blocks without any number.

ghost use Rattle.std.specs.Prelude.{◌≡◌, ◌≤◌, ◌<◌, ◌+◌, ◌-◌, ◌*◌, ◌^◌};
ghost use Rattle.tree.specs.Space.{pages_of};
ghost use Rattle.volume.specs.Places.{has_number, zone_at};
ghost use Rattle.volume.specs.Findings.{has_spare_zone};
ghost use Rattle.volume.specs.Verdict.{place_limit};
ghost use Rattle.image.specs.Contents.{contents};
ghost use Rattle.image.specs.Least.{least_of};
ghost use Rattle.image.specs.Spare.{first_place, index_of, is_spare};

use crate::enter::level_of;
use crate::{Image, least_passing};

/// The least inode with a zone at or past the file's end, or with an indirect block without any number.
pub fn spare_zone(image: &Image) -> Option<u32>
    ensures { result ≡ least_of (has_spare_zone image.now.geometry (contents image.now)) (place_limit image.now.geometry) }
{
    least_passing(image.geometry().inodes + 1, |n| has_spare_zone(image, n))
}

/// Whether inode n is marked and has such a zone.
fn has_spare_zone(image: &Image, n: u32) -> bool
    ensures { result ≡ has_spare_zone image.now.geometry (contents image.now) n }
{
    if !image.is_marked(n) {
        return false;
    }
    let inode = image.inode(n);
    let pages = image.pages(&inode);
    for s in 0..10 {
        if is_spare(image, n, pages, level_of(s), index_of(s), inode.zones[s]) {
            return true;
        }
    }
    false
}

/// The place of a slot among those of its level.
fn index_of(slot: usize) -> usize
    ensures { result ≡ index_of slot }
{
    if slot < 7 { slot } else { 0 }
}

/// Whether the zone at a place of inode n, which has so many pages, or one below it, is past the end or without any number.
fn is_spare(image: &Image, n: u32, pages: usize, level: usize, index: usize, zone: u32) -> bool
    requires low { level < 4 }
    requires near { index + 8 ≤ 1024 ^ (4 - level) }
    requires pages { pages ≡ pages_of image.now.geometry ((contents image.now).inodes n).size }
    requires zone { zone ≡ zone_at image.now.geometry (contents image.now) ((contents image.now).inodes n) level index }
    ensures { result ≡ is_spare image.now n level index }
{
    if zone == 0 {
        return false;
    }
    if level == 0 {
        return pages <= index;
    }
    if !has_number(image, zone) {
        return true;
    }
    let first = first_place(level - 1);
    for j in 0..image.numbers() {
        let below = first + (index * image.numbers() + j);
        if is_spare(image, n, pages, level - 1, below, image.number(zone, j)) {
            return true;
        }
    }
    false
}

/// The place of a level at which the numbers of blocks begin: those in the inode come before.
fn first_place(level: usize) -> usize
    ensures { result ≡ first_place level }
{
    if level == 0 { 7 } else { 1 }
}

/// Whether some number but 0 stands in a zone.
fn has_number(image: &Image, zone: u32) -> bool
    ensures { result ≡ has_number image.now.geometry (contents image.now) zone }
{
    for j in 0..image.numbers() {
        if image.number(zone, j) != 0 {
            return true;
        }
    }
    false
}
