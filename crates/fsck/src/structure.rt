//! Findings 2 to 6: bit 0 of both maps, the root, modes and sizes.

ghost use Rattle.std.specs.Prelude.{◌≡◌, ◌*◌, ◌%◌, ◌==◌, ◌||◌, nat_lt, not};
ghost use Rattle.volume.specs.Nodes.{is_mode};
ghost use Rattle.volume.specs.Findings.{has_bad_mode, lacks_inode_bit, lacks_root, lacks_zone_bit};
ghost use Rattle.fsck.specs.Findings.{has_bad_size, is_bad_directory_size};
ghost use Rattle.volume.specs.Verdict.{place_limit};
ghost use Rattle.image.specs.Contents.{contents};
ghost use Rattle.image.specs.Least.{least_of};
ghost use Rattle.fsck.specs.Form.{form_of};
ghost use Rattle.fsck.specs.Parts.{first_of, structure_tests};

use crate::version::Version;
use image::{Image, least_passing};
use volume::Finding;

/// The first of these findings.
pub(crate) fn structure(version: Version, image: &Image) -> Option<Finding>
    ensures { result
        ≡ first_of (place_limit image.now.geometry) 2 (structure_tests (form_of version) image.now.geometry (contents image.now)) }
{
    if let Some(place) = inode_bit(image) {
        return Some(Finding { number: 2, place });
    }
    if let Some(place) = zone_bit(image) {
        return Some(Finding { number: 3, place });
    }
    if let Some(place) = root(image) {
        return Some(Finding { number: 4, place });
    }
    if let Some(place) = bad_mode(image) {
        return Some(Finding { number: 5, place });
    }
    if let Some(place) = bad_size(version, image) {
        return Some(Finding { number: 6, place });
    }
    None
}

/// Place 0, where bit 0 of the inode map is clear.
fn inode_bit(image: &Image) -> Option<u32>
    ensures { result ≡ least_of (lacks_inode_bit image.now.geometry (contents image.now)) (place_limit image.now.geometry) }
{
    if image.has_inode_bit(0) {
        None
    } else {
        Some(0)
    }
}

/// Place 0, where bit 0 of the zone map is clear.
fn zone_bit(image: &Image) -> Option<u32>
    ensures { result ≡ least_of (lacks_zone_bit image.now.geometry (contents image.now)) (place_limit image.now.geometry) }
{
    if image.has_zone_bit(0) { None } else { Some(0) }
}

/// Inode 1, where it isn't marked or is no directory.
fn root(image: &Image) -> Option<u32>
    ensures { result ≡ least_of (lacks_root image.now.geometry (contents image.now)) (place_limit image.now.geometry) }
{
    if image.is_directory(1) { None } else { Some(1) }
}

/// The least inode with a mode of no known type, or with bits past the permissions.
fn bad_mode(image: &Image) -> Option<u32>
    ensures { result ≡ least_of (has_bad_mode image.now.geometry (contents image.now)) (place_limit image.now.geometry) }
{
    least_passing(image.geometry().inodes + 1, |n| has_bad_mode(image, n))
}

/// Whether n is such an inode.
fn has_bad_mode(image: &Image, n: u32) -> bool
    ensures { result ≡ has_bad_mode image.now.geometry (contents image.now) n }
{
    image.is_marked(n) && !is_mode(image.mode(n))
}

/// Whether a mode is of a known type, with permissions alone.
fn is_mode(mode: u16) -> bool
    ensures { result ≡ is_mode mode }
{
    (mode / 4096 == 4 || mode / 4096 == 8 || mode / 4096 == 10) && mode % 4096 < 512
}

/// The least inode with a size over the greatest, or with one that no directory has.
fn bad_size(version: Version, image: &Image) -> Option<u32>
    ensures { result ≡ least_of (has_bad_size (form_of version) image.now.geometry (contents image.now)) (place_limit image.now.geometry) }
{
    least_passing(
        image.geometry().inodes + 1,
        |n| has_bad_size(version, image, n),
    )
}

/// Whether n is such an inode.
fn has_bad_size(version: Version, image: &Image, n: u32) -> bool
    ensures { result ≡ has_bad_size (form_of version) image.now.geometry (contents image.now) n }
{
    if !image.is_marked(n) {
        return false;
    }
    let size = image.size(n);
    if 2147483647 < size {
        return true;
    }
    image.is_directory(n) && is_bad_directory_size(version, size)
}

/// Whether a directory can't have this size: it is under two entries, or no whole number of them.
fn is_bad_directory_size(version: Version, size: u32) -> bool
    ensures { result ≡ (nat_lt size (2 * (form_of version).size) || not (size % (form_of version).size == 0)) }
{
    size < 2 * version.entry_size() || size % version.entry_size() != 0
}
