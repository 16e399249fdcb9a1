//! Checking volumes: the verdict on an image, whatever its bytes are.
#![tactic(auto)]

mod blocks;
pub mod entries;
mod names;
mod scan;
mod structure;
mod verdict;
mod version;
mod zones;

ghost use Rattle.std.specs.Prelude.{◌≡◌, IfOk};
ghost use Rattle.volume.specs.Verdict.{place_limit, verdict_of};
ghost use Rattle.image.specs.Contents.{contents};
ghost use Rattle.fsck.specs.Shown.{HasItsGeometry, TellsWhetherTree, shown};
ghost use Rattle.fsck.specs.Form.{form_of};
ghost use Rattle.fsck.specs.Parts.{first_of};
ghost use Rattle.fsck.specs.Verdict.{tests};

use image::Image;
use std::alloc::{AllocError, Global};
pub use verdict::{Clean, OutOfMemory, Verdict};
pub use version::Version;
use volume::Finding;

/// The verdict on an image: the true finding with the least number, and of these the least place, or clean. It answers for any bytes,
/// whatever they are. It is clean exactly where the image holds a tree without an open file. `OutOfMemory` says that no
/// memory was found, and nothing of the image.
pub fn check(alloc: Global, image: &[u8]) -> Result<Verdict, OutOfMemory>
    ensures verdict { IfOk result (λ v. shown v ≡ verdict_of image.now) }
    ensures geometry { IfOk result (HasItsGeometry image.now) }
    ensures tree { IfOk result (TellsWhetherTree image.now) }
{
    let volume = match Image::parse(image) {
        Ok(volume) => volume,
        Err(refusal) => {
            return Ok(Verdict::Found(Finding {
                number: 1,
                place: refusal.number(),
            }));
        }
    };
    match finding(Version::V3, alloc, &volume)? {
        Some(finding) => Ok(Verdict::Found(finding)),
        None => Ok(Verdict::Clean(Clean::of(volume.geometry()))),
    }
}

/// The first finding from 2 on of a volume of this version. A version 2 volume has version 3's superblock in place of its own.
pub fn finding(
    version: Version,
    alloc: Global,
    image: &Image,
) -> Result<Option<Finding>, AllocError>
    ensures { IfOk result (λ r. r
        ≡ first_of (place_limit image.now.geometry) 2 (tests (form_of version) image.now.geometry (contents image.now))) }
{
    if let Some(finding) = structure::structure(version, image) {
        return Ok(Some(finding));
    }
    if let Some(finding) = zones::zones(alloc, image)? {
        return Ok(Some(finding));
    }
    if let Some(finding) = blocks::blocks(image) {
        return Ok(Some(finding));
    }
    if let Some(finding) = names::entries(version, alloc, image)? {
        return Ok(Some(finding));
    }
    Ok(names::tree(version, alloc, image)?)
}
