//! Findings 12 to 17: the entries of directories, where directories stand, link counts, and symbolic links.

ghost use Rattle.std.specs.Prelude.{◌≡◌, ◌+◌, ℕ, IfOk, false, length, slice_index, slice_index_or};
ghost use Rattle.fsck.specs.Findings.{has_bad_size};
ghost use Rattle.volume.specs.Verdict.{place_limit};
ghost use Rattle.image.specs.Contents.{contents};
ghost use Rattle.fsck.specs.Form.{form_of};
ghost use Rattle.fsck.specs.Parts.{entry_tests, first_of, tree_tests};

use crate::scan::{
    bad_dots, bad_entry, bad_link, bad_links, bad_target, count_names, mark_reached, misplaced,
};
use crate::version::Version;
use image::Image;
use std::alloc::{AllocError, Global};
use volume::Finding;

/// The first of findings 12 to 14, where no size is bad.
pub(crate) fn entries(
    version: Version,
    alloc: Global,
    image: &Image,
) -> Result<Option<Finding>, AllocError>
    requires { (n : ℕ) → has_bad_size (form_of version) image.now.geometry (contents image.now) n ≡ false }
    ensures { IfOk result (λ r. r
        ≡ first_of (place_limit image.now.geometry) 12 (entry_tests (form_of version) image.now.geometry (contents image.now))) }
{
    if let Some(place) = bad_dots(version, image) {
        return Ok(Some(Finding { number: 12, place }));
    }
    if let Some(place) = bad_entry(version, alloc, image)? {
        return Ok(Some(Finding { number: 13, place }));
    }
    if let Some(place) = bad_target(version, image) {
        return Ok(Some(Finding { number: 14, place }));
    }
    Ok(None)
}

/// The first of findings 15 to 17, where no size is bad.
pub(crate) fn tree(
    version: Version,
    alloc: Global,
    image: &Image,
) -> Result<Option<Finding>, AllocError>
    requires { (n : ℕ) → has_bad_size (form_of version) image.now.geometry (contents image.now) n ≡ false }
    ensures { IfOk result (λ r. r
        ≡ first_of (place_limit image.now.geometry) 15 (tree_tests (form_of version) image.now.geometry (contents image.now))) }
{
    let numbers = image.geometry().inodes as usize + 1;
    let mut named = vec![in alloc; 0u16; numbers]?;
    let mut namer = vec![in alloc; 0u16; numbers]?;
    let mut seen = vec![in alloc; false; numbers]?;
    tree_with(
        version,
        alloc,
        image,
        named.as_mut_slice(),
        namer.as_mut_slice(),
        seen.as_mut_slice(),
    )
}

/// The same, with room for a few bytes of each inode.
fn tree_with(
    version: Version,
    alloc: Global,
    image: &Image,
    named: &mut [u16],
    namer: &mut [u16],
    seen: &mut [bool],
) -> Result<Option<Finding>, AllocError>
    requires sizes { (n : ℕ) → has_bad_size (form_of version) image.now.geometry (contents image.now) n ≡ false }
    requires named_size { length named.old ≡ image.now.geometry.inodes + 1 }
    requires named_fresh { (m : ℕ) → slice_index named.old m ≡ 0 }
    requires namer_size { length namer.old ≡ image.now.geometry.inodes + 1 }
    requires seen_size { length seen.old ≡ image.now.geometry.inodes + 1 }
    requires seen_fresh { (n : ℕ) → slice_index_or seen.old n false ≡ false }
    ensures { IfOk result (λ r. r
        ≡ first_of (place_limit image.now.geometry) 15 (tree_tests (form_of version) image.now.geometry (contents image.now))) }
{
    count_names(version, image, named, namer);
    mark_reached(version, alloc, image, seen)?;
    if let Some(place) = misplaced(version, image, named, namer, seen) {
        return Ok(Some(Finding { number: 15, place }));
    }
    if let Some(place) = bad_links(version, image, named, namer) {
        return Ok(Some(Finding { number: 16, place }));
    }
    if let Some(place) = bad_link(image) {
        return Ok(Some(Finding { number: 17, place }));
    }
    Ok(None)
}
