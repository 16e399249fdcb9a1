//! The media that hold an image, where the volume lies on them, and drivers that are ready for it.

ghost use Rattle.std.specs.Prelude.{◌≡◌, ◌≢◌, ◌↔◌, ◌/◌, ◌+◌, ◌^◌, ◌<◌, ◌≤◌, [], IfErr, IfOk, OnOk, IsTrue, None, Some, Ok, Err, All, length, map};
ghost use Rattle.std.specs.Bool.{OnTrue};
ghost use Rattle.std.specs.List.{concat, list_all};
ghost use Rattle.media.specs.Contents.{sectors_of};
ghost use Rattle.bdev.specs.Promises.{IsDriver};
ghost use Rattle.synchronous_driver.specs.Inline.{IsReady};
ghost use Rattle.true_replies.specs.Events.{IsOnMedia, opening_media};
ghost use Rattle.volume_mount.specs.Starting.{opening_of, place_in as place_by, is_ready_for, IsInRanges, why_no_media, IsNotSetUp, IsWellSetUp, IsPrepared, IsRefused};

use crate::refusal::StartRefusal;
use media::Media;
use media::partition::volume_place;
use reincarnate::policy::Setup;
use synchronous_driver::local::LocalDriver;

/// What a server starts on: media on which no driver was started, and where the volume lies on them.
#[derive(Drop)]
pub struct Prepared {
    /// All the image's sectors.
    pub media: Media,
    /// The volume's first sector, and how many sectors its range has.
    pub range: (u32, u32),
}

/// The media that hold an image.
#[tactic(auto, using(crate::proofs::Starts::many_sectors))]
fn media_of(image: Vec<u8>) -> Result<Media, StartRefusal>
    ensures refusal { IfErr result (λ e. why_no_media image.items ≡ Some e) }
    ensures exact { (e : StartRefusal) → why_no_media image.items ≡ Some e → result ≡ Err e }
    ensures ok { IfOk result (λ m. (why_no_media image.items ≡ None) × (m ≡ record { sectors = sectors_of image.items; generation = 0 })) }
    ensures bytes { IfOk result (λ m. concat m.sectors ≡ image.items) }
    ensures sectors { IfOk result (λ m. length m.sectors ≡ length image.items / 512) }
{
    match Media::from_vec(image) {
        Ok(media) => Ok(media),
        Err(refusal) => Err(StartRefusal::Media(refusal)),
    }
}

/// Where the volume of this minor lies.
fn place_in(sectors: &[[u8; 512]], minor: u8) -> Result<(u32, u32), StartRefusal>
    requires { length sectors.now < 2 ^ 32 }
    ensures place { result ≡ place_by sectors.now minor }
    ensures inside { IfOk result (λ r. r.0 + r.1 ≤ length sectors.now) }
{
    match volume_place(sectors, minor) {
        Ok(range) => Ok(range),
        Err(refusal) => Err(StartRefusal::from(refusal)),
    }
}

/// Whether each driver serves these sectors as this minor, and took nothing and didn't fail.
fn are_ready<D: LocalDriver>(supply: &[D], minor: u8, range: (u32, u32)) -> bool
    ensures value { result ≡ list_all (λ d. is_ready_for minor range (D.state d)) supply.now }
    ensures drivers { OnTrue result (All (λ d. IsDriver (D.state d)) supply.now) }
{
    for driver in supply {
        if driver.ready_here(minor) != Some(range) {
            return false;
        }
    }
    true
}

/// Whether the setup's numbers are in their ranges.
fn has_ranges(setup: &Setup) -> bool
    ensures { IsTrue result ↔ IsInRanges setup.now }
{
    let fits = 16 <= setup.frames && setup.frames <= 4096;
    fits && setup.policy.is_allowed()
}

/// Whether the setup fits and there are drivers, all of them ready.
pub fn check_setup<D: LocalDriver>(
    setup: &Setup,
    range: (u32, u32),
    supply: &[D],
) -> Result<(), StartRefusal>
    ensures refusal { IfErr result (IsNotSetUp setup.now range (map D.state supply.now)) }
    ensures fits { OnOk result (IsWellSetUp setup.now range (map D.state supply.now)) }
    ensures some { OnOk result (map D.state supply.now ≢ []) }
    ensures drivers { OnOk result (All (λ d. IsDriver (D.state d)) supply.now) }
{
    if !has_ranges(setup) {
        return Err(StartRefusal::BadSetup);
    }
    if !are_ready(supply, setup.minor, range) {
        return Err(StartRefusal::BadSetup);
    }
    if supply.is_empty() {
        return Err(StartRefusal::NoDriver);
    }
    Ok(())
}

/// What a server needs to start on an image with drivers that stand ready: the media, and where the volume of the setup's minor
/// lies on them. The image's bytes become the media: none is copied, and no memory is taken.
///
/// It is refused where the image makes no media; where there is no such partition; where a number of the setup isn't in its
/// range, or a driver isn't ready for the volume's sectors; and where there is no driver. The first of these that holds is answered. A
/// refusal lets the image's bytes go. Nothing else of the image is looked at: the volume in it is read, and checked, through the drivers.
pub fn prepare<D: LocalDriver>(
    image: Vec<u8>,
    setup: &Setup,
    supply: &[D],
) -> Result<Prepared, StartRefusal>
    ensures refusal { IfErr result (IsRefused image.items setup.now (map D.state supply.now)) }
    ensures media { (e : StartRefusal) → why_no_media image.items ≡ Some e → result ≡ Err e }
    ensures never { result ≢ Err StartRefusal.OutOfMemory }
    ensures ok { IfOk result (λ p. IsPrepared image.items setup.now (map D.state supply.now) p.range) }
    ensures contents { IfOk result (λ p. p.media ≡ opening_media (opening_of image.items setup.now.minor p.range)) }
    ensures bytes { IfOk result (λ p. concat p.media.sectors ≡ image.items) }
    ensures ready { IfOk result (λ p. All (IsReady (opening_of image.items setup.now.minor p.range)) (map D.state supply.now)) }
    ensures on_media { IfOk result (λ p. IsOnMedia (opening_of image.items setup.now.minor p.range)) }
{
    let media = media_of(image)?;
    let range = place_in(media.as_sectors(), setup.minor)?;
    check_setup(setup, range, supply)?;
    Ok(Prepared { media, range })
}
