//! The volume of an image, checked where its bytes lie: nothing is read through a driver.

ghost use Rattle.std.specs.Prelude.{◌≡◌, ◌+◌, ◌≤◌, IfErr, IfOk, length, slice_index};
ghost use Rattle.std.specs.List.{concat};
ghost use Rattle.volume_mount.specs.Laws.{sizes_in};
ghost use Rattle.volume_mount.specs.Starting.{bytes_of};
ghost use Rattle.volume_mount.specs.Checked.{HoldsTree, IsUnfit};

use crate::MountRefusal;
use crate::checking::checked;
use fsck::Clean;
use layout::{Geometry, LayoutRefusal};
use media::{Media, SECTOR};
use std::alloc::Global;

/// The bytes of these sectors, the first and how many.
fn bytes_in(media: &Media, range: (u32, u32)) -> &[u8]
    requires { range.0 + range.1 ≤ length media.now.sectors }
    ensures { result.now ≡ bytes_of (concat media.now.sectors) range }
{
    let first = SECTOR * range.0 as usize;
    &media.as_sectors().as_flattened()[first..first + SECTOR * range.1 as usize]
}

/// Checks the volume in these sectors of the media, the first and how many, as they are: it is clean, or why it isn't served. `Eio` where
/// it passes the end of them, and so wherever they have under 2048 bytes; else `Layout` where its superblock is refused, or `Inconsistent`
/// with what the check finds. `OutOfMemory` whenever memory is wanted. No byte is copied.
pub fn check_volume(alloc: Global, media: &Media, range: (u32, u32)) -> Result<Clean, MountRefusal>
    requires { range.0 + range.1 ≤ length media.now.sectors }
    ensures holds { IfOk result (λ clean. HoldsTree (bytes_of (concat media.now.sectors) range) clean.geometry) }
    ensures sizes { IfOk result (λ clean. clean.geometry ≡ sizes_in (slice_index (bytes_of (concat media.now.sectors) range))) }
    ensures refused { IfErr result (IsUnfit (bytes_of (concat media.now.sectors) range)) }
{
    let volume = bytes_in(media, range);
    if volume.len() < 2048 {
        return Err(MountRefusal::Eio);
    }
    match Geometry::parse(volume) {
        Ok(_) => checked(alloc, volume),
        Err(LayoutRefusal::DoesNotFit) => Err(MountRefusal::Eio),
        Err(refusal) => Err(MountRefusal::Layout(refusal)),
    }
}
