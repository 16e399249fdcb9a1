//! Files that were removed while they were open, in an image that was taken then: they are given back before a server starts on it.
//!
//! A removed file stays until its last descriptor is closed. An image that is taken before has an inode in use without a link, which the
//! check finds (16), and no server starts on what isn't clean.
#![tactic(auto)]

mod giving;
mod judging;
mod place;
mod refusal;
mod remains;
mod telling;

ghost use Rattle.std.specs.Prelude.{◌≡◌, IfErr, IfOk};
ghost use Rattle.release.specs.Released.{IsReleasedIn, MustRelease, Releases};

use crate::judging::released;
use crate::place::place_of;
pub use refusal::ReleaseRefusal;
use std::alloc::Global;
pub use telling::{Released, start_on};

/// Gives back the nodes without a link in the volume of this minor, which lies in an image where `volume_mount` looks for it: how many there
/// were. Only if the check says finding 16 before, and clean after; else the image stays as it is, and the answer is 0. What is refused
/// leaves the image as it is.
pub fn release(alloc: Global, image: &mut [u8], minor: u8) -> Result<u32, ReleaseRefusal>
    ensures ok { IfOk result (λ count. Releases minor count image.old image.new) }
    ensures refused { IfErr result (λ e. image.new ≡ image.old) }
    ensures must { MustRelease minor image.old → IfOk result (λ count. IsReleasedIn minor count image.old image.new) }
{
    let Some((start, size)) = place_of(image, minor) else {
        return Ok(0);
    };
    match released(alloc, &image[start..start + size])? {
        Some(released) => {
            image[start..start + size].copy_from_slice(released.blocks.image());
            Ok(released.count)
        }
        None => Ok(0),
    }
}
