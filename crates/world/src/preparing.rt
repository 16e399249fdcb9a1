//! The volume in an image, which was checked, and drivers that are ready for it.

ghost use Rattle.std.specs.Prelude.{◌≡◌, ◌≢◌, ◌/◌, ◌+◌, ◌<◌, ◌≤◌, ◌^◌, [], All, IfErr, IfOk, OnOk, None, length, map};
ghost use Rattle.layout.specs.Places.{IsGeometry};
ghost use Rattle.tree.specs.Tree.{Tree};
ghost use Rattle.media.specs.Contents.{sectors_of};
ghost use Rattle.bdev.specs.Promises.{IsDriver};
ghost use Rattle.media.specs.Places.{volume_place as place_by};
ghost use Rattle.synchronous_driver.specs.Inline.{IsReady};
ghost use Rattle.true_replies.specs.Events.{IsOnMedia, opening_media};
ghost use Rattle.volume_mount.specs.Starting.{opening_of};
ghost use Rattle.schedule.specs.Refusals.{IsGoodSetup, media_refusal_of};
ghost use Rattle.world.specs.Beginning.{IsBegun, IsChecked, IsNoMedia, IsNoPlace, IsNotBegun, IsNotSetUp, range_of, setup_refusal_of};

use crate::run_refusal::RunRefusal;
use fsck::{Clean, Verdict, check};
use media::partition::volume_place;
use media::{Media, MediaRefusal, SECTOR};
use reincarnate::policy::Setup;
use std::alloc::Global;
use synchronous_driver::local::LocalDriver;
use volume_mount::StartRefusal;
use volume_mount::prepared::check_setup;

/// What a run starts on: media on which no driver was started, and the volume on them, which was checked.
#[derive(Drop)]
pub struct PreparedRun {
    /// All the image's sectors.
    pub media: Media,
    /// The volume, which is clean.
    pub clean: Clean,
    /// The volume's first sector, and how many sectors its range has.
    pub range: (u32, u32),
}

/// The media that hold an image.
fn media_of(alloc: Global, image: &[u8]) -> Result<Media, RunRefusal>
    ensures refusal { IfErr result (IsNoMedia image.now) }
    ensures fine { OnOk result (media_refusal_of image.now ≡ None) }
    ensures ok { IfOk result (λ m. m ≡ record { sectors = sectors_of image.now; generation = 0 }) }
{
    match Media::from_bytes(alloc, image) {
        Ok(media) => Ok(media),
        Err(MediaRefusal::OutOfMemory) => Err(RunRefusal::OutOfMemory),
        Err(refusal) => Err(RunRefusal::Media(refusal)),
    }
}

/// Where the volume of this minor lies.
fn place_in(sectors: &[[u8; 512]], minor: u8) -> Result<(u32, u32), RunRefusal>
    requires { length sectors.now < 2 ^ 32 }
    ensures refusal { IfErr result (IsNoPlace sectors.now minor) }
    ensures place { IfOk result (λ range. place_by sectors.now minor ≡ Ok range) }
    ensures inside { IfOk result (λ range. range.0 + range.1 ≤ length sectors.now) }
{
    match volume_place(sectors, minor) {
        Ok(range) => Ok(range),
        Err(refusal) => Err(RunRefusal::Partition(refusal)),
    }
}

/// The volume in these bytes, if it is clean.
fn checked(alloc: Global, volume: &[u8]) -> Result<Clean, RunRefusal>
    ensures { IsChecked volume.now result }
{
    match check(alloc, volume) {
        Ok(Verdict::Clean(clean)) => Ok(clean),
        Ok(Verdict::Found(finding)) => Err(RunRefusal::NotClean(finding)),
        Err(_) => Err(RunRefusal::OutOfMemory),
    }
}

/// The refusal of a setup, as runs have it.
fn setup_refusal(refusal: StartRefusal) -> RunRefusal
    ensures { result ≡ setup_refusal_of refusal }
{
    match refusal {
        StartRefusal::NoDriver => RunRefusal::NoDriver,
        _ => RunRefusal::BadSetup,
    }
}

/// Whether the setup fits and there are drivers, all of them ready.
fn set_up<D: LocalDriver>(setup: &Setup, range: (u32, u32), supply: &[D]) -> Result<(), RunRefusal>
    ensures refusal { IfErr result (IsNotSetUp setup.now (range_of range) (map D.state supply.now)) }
    ensures fits { OnOk result (IsGoodSetup setup.now (range_of range) (map D.state supply.now)) }
    ensures some { OnOk result (map D.state supply.now ≢ []) }
    ensures drivers { OnOk result (All (λ d. IsDriver (D.state d)) supply.now) }
{
    match check_setup(setup, range, supply) {
        Ok(()) => Ok(()),
        Err(refusal) => Err(setup_refusal(refusal)),
    }
}

/// What a run needs to start on an image with drivers that stand ready: the media, and the volume of the setup's minor on them.
///
/// It is refused where the image makes no media; where there is no such partition; where the volume breaks a rule of the format; where
/// a number of the setup isn't in its range, or a driver isn't ready for the volume's sectors; and where there is no driver. The first of
/// these that holds is answered. Where the image makes media, it may also be refused for want of memory, whatever else holds.
pub fn prepare_run<D: LocalDriver>(
    alloc: Global,
    image: &[u8],
    setup: &Setup,
    supply: &[D],
) -> Result<PreparedRun, RunRefusal>
    ensures refusal { IfErr result (IsNotBegun image.now setup.now (map D.state supply.now)) }
    ensures begun { IfOk result (λ p. (tree : Tree) × IsBegun image.now setup.now (map D.state supply.now)
        (range_of p.range) p.clean.geometry tree) }
    ensures contents { IfOk result (λ p. p.media ≡ opening_media (opening_of image.now setup.now.minor p.range)) }
    ensures sizes { IfOk result (λ p. IsGeometry p.clean.geometry) }
    ensures ready { IfOk result (λ p. All (IsReady (opening_of image.now setup.now.minor p.range)) (map D.state supply.now)) }
    ensures on_media { IfOk result (λ p. IsOnMedia (opening_of image.now setup.now.minor p.range)) }
{
    let media = media_of(alloc, image)?;
    let (sectors, _) = image.as_chunks::<SECTOR>();
    let range = place_in(sectors, setup.minor)?;
    let first = SECTOR * range.0 as usize;
    let clean = checked(alloc, &image[first..first + SECTOR * range.1 as usize])?;
    set_up(setup, range, supply)?;
    Ok(PreparedRun {
        media,
        clean,
        range,
    })
}
