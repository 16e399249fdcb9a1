//! Whether a volume without the nodes that have no link takes its place.

ghost use Rattle.std.specs.Prelude.{◌≡◌, ◌↔◌, IfNone, IfOk, IfSome, IsTrue, length};
ghost use Rattle.fsck.specs.Shown.{shown};
ghost use Rattle.volume.specs.Verdict.{Clean, verdict_of};
ghost use Rattle.release.specs.Released.{HoldsTree, IsFoundBy, IsReleased};

use crate::refusal::ReleaseRefusal;
use crate::remains::{Remains, given_back};
use fsck::{Verdict, check};
use image::Image;
use std::alloc::Global;

/// The number of the finding of wrong links.
const WRONG_LINKS: u32 = 16;

/// Whether the check found wrong links before all else.
fn is_found_by_links(verdict: &Verdict) -> bool
    ensures { IsTrue result ↔ IsFoundBy (shown verdict.now) }
{
    match verdict {
        Verdict::Clean(_) => false,
        Verdict::Found(finding) => finding.number == WRONG_LINKS,
    }
}

/// The volume without the nodes that have no link. None where the check doesn't find wrong links before all else, or finds anything without
/// those nodes: then the volume is clean, or holds no tree.
pub(crate) fn released(alloc: Global, volume: &[u8]) -> Result<Option<Remains>, ReleaseRefusal>
    ensures some { IfOk result (λ o. IfSome o (λ r. IsReleased r.count volume.now r.blocks.image.items)) }
    ensures length { IfOk result (λ o. IfSome o (λ r. length r.blocks.image.items ≡ length volume.now)) }
    ensures none { IfOk result (λ o. IfNone o (HoldsTree volume.now → verdict_of volume.now ≡ Clean)) }
{
    if !is_found_by_links(&check(alloc, volume)?) {
        return Ok(None);
    }
    let Ok(image) = Image::parse(volume) else {
        return Ok(None);
    };
    let released = given_back(alloc, &image, volume)?;
    match check(alloc, released.blocks.image())? {
        Verdict::Clean(_) => Ok(Some(released)),
        Verdict::Found(_) => Ok(None),
    }
}
