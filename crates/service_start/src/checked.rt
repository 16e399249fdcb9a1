//! The volume of an image, checked before a service is started on it.

ghost use Rattle.std.specs.Prelude.{◌≡◌, IfErr, IfOk, map};
ghost use Rattle.std.specs.List.{concat};
ghost use Rattle.records.specs.Opening.{contents_at};
ghost use Rattle.true_replies.specs.Events.{opening_media};
ghost use Rattle.volume_mount.specs.Laws.{sizes_in};
ghost use Rattle.volume_mount.specs.Starting.{opening_of};
ghost use Rattle.service_start.specs.Servable.{IsNotServable, IsServable};

use crate::opened::refusal_of;
use bdev::BlockDriver;
use reincarnate::policy::Setup;
use std::alloc::Global;
use volume_mount::{Clean, Prepared, StartRefusal, check_volume, prepare};

/// What a service starts on.
#[derive(Drop)]
pub struct CheckedImage {
    /// The media, and where the volume lies on them.
    pub prepared: Prepared,
    /// The volume, which is clean.
    pub clean: Clean,
}

/// What a service needs to start on an image with drivers that stand ready: the media, and the volume of the setup's minor on them, which
/// is checked where it lies. The image's bytes become the media: none is copied.
///
/// It is refused as `prepare` is, which is looked at first; `Mount` as `check_volume` refuses the volume; or `OutOfMemory`. A refusal lets
/// the image's bytes go.
pub fn prepare_checked<D: BlockDriver>(
    alloc: Global,
    image: Vec<u8>,
    setup: &Setup,
    supply: &[D],
) -> Result<CheckedImage, StartRefusal>
    ensures refused { IfErr result (IsNotServable image.items setup.now (map D.state supply.now)) }
    ensures servable { IfOk result (λ c. IsServable image.items setup.now (map D.state supply.now) c.clean.geometry c.prepared.range) }
    ensures sizes { IfOk result (λ c. c.clean.geometry ≡ sizes_in (contents_at (opening_of image.items setup.now.minor c.prepared.range))) }
    ensures bytes { IfOk result (λ c. concat c.prepared.media.sectors ≡ image.items) }
    ensures contents { IfOk result (λ c. c.prepared.media ≡ opening_media (opening_of image.items setup.now.minor c.prepared.range)) }
{
    let prepared = prepare(image, setup, supply)?;
    match check_volume(alloc, &prepared.media, prepared.range) {
        Ok(clean) => Ok(CheckedImage { prepared, clean }),
        Err(refusal) => Err(refusal_of(refusal)),
    }
}
