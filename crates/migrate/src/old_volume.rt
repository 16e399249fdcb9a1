//! Version 2 volumes of the MINIX file system: what their bytes say, and their check.
//!
//! A version 2 volume has the maps, the inodes and the zones of a version 3 volume with blocks of 1024 bytes, in the same places. Only
//! its superblock and the entries of its directories are others. So what reads version 3 volumes reads the rest, once the superblock is
//! stamped.

pub mod entries;
mod stamp;
mod superblock;

ghost use Rattle.std.specs.Prelude.{◌≡◌, IfOk};
ghost use Rattle.volume.specs.Verdict.{place_limit};
ghost use Rattle.image.specs.Contents.{contents};
ghost use Rattle.fsck.specs.Parts.{first_of};
ghost use Rattle.fsck.specs.Form.{version_2};
ghost use Rattle.fsck.specs.Verdict.{tests};
ghost use Rattle.migrate.specs.OneDefinition.{OneDefinition};
ghost use Rattle.migrate.specs.Laws.{CleanIsSound};

use fsck::Version;
use image::Image;
pub use stamp::stamped;
use std::alloc::{AllocError, Global};
pub use superblock::{OldRefusal, parse};
use volume::Finding;

/// The first finding from 2 on of a version 2 volume whose superblock is stamped.
pub fn finding(alloc: Global, image: &Image) -> Result<Option<Finding>, AllocError>
    ensures { IfOk result (λ r. r ≡ first_of (place_limit image.now.geometry) 2 (tests version_2 image.now.geometry (contents image.now))) }
{
    fsck::finding(Version::V2, alloc, image)
}

/// What is said of a volume by the form of its entries is, with version 3's form, what is said of version 3 volumes.
pub fn one_definition()
    ensures { OneDefinition }
{}

/// A volume in which the check finds nothing keeps the rules of the format that a tree doesn't show.
pub fn clean_is_sound()
    ensures { CleanIsSound }
{}
