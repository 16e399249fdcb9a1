//! The sizes of symbolic links, and the bytes of their targets.

ghost use Rattle.std.specs.Prelude.{◌≡◌};
ghost use Rattle.volume.specs.Findings.{has_bad_link};
ghost use Rattle.volume.specs.Verdict.{place_limit};
ghost use Rattle.image.specs.Contents.{contents};
ghost use Rattle.image.specs.Least.{least_of};

use image::{Image, least_passing};

/// The least symbolic link whose target has no byte or over 1023, has no zone at page 0, or has a zero byte.
pub(crate) fn bad_link(image: &Image) -> Option<u32>
    ensures { result ≡ least_of (has_bad_link image.now.geometry (contents image.now)) (place_limit image.now.geometry) }
{
    least_passing(image.geometry().inodes + 1, |n| has_bad_link(image, n))
}

/// Whether n is such a link. Of what is no link the mode alone is read.
fn has_bad_link(image: &Image, n: u32) -> bool
    ensures { result ≡ has_bad_link image.now.geometry (contents image.now) n }
{
    if !image.is_link(n) {
        return false;
    }
    let inode = image.inode(n);
    if inode.size == 0 {
        return true;
    }
    if 1023 < inode.size {
        return true;
    }
    match image.target(&inode) {
        Some(target) => target.contains(&0),
        None => true,
    }
}
