//! What is left of a service that was stopped.

ghost use Rattle.std.specs.Prelude.{◌≡◌, List, IfErr, IfOk, Some};
ghost use Rattle.media.specs.Contents.{IsWhole};
ghost use Rattle.shared_media.specs.Confined.{KeepsBut, KeepsOutside};
ghost use Rattle.shared_server.specs.Finishing.{finish_end};
ghost use Rattle.shared_server.specs.Stopping.{Went};
ghost use Rattle.volume_reading.specs.Pieces.{Piece};
ghost use Rattle.serve.specs.Stopping.{IsAsRead, IsImageOf, IsLeftAfter, IsNoImageOf, Tells, is_as_read as as_read, no_image_name, stop_refusal_number};

use board::counting::parameters::ServiceParameters;
use changes::Marks;
use driver_threads::comparing::has_range;
use driver_threads::watch::Likeness;
use media::Media;
use shared_server::finishing::Finish;
use shared_server::locked::LastSync;
use std::fmt;

/// Why a service that is stopped gives no image of a synced volume. `S` is the service.
#[derive(Drop)]
pub enum StopRefusal<S> {
    /// A session is left: the service goes on, its flusher too, and nothing was done but what the call did before it asked.
    SessionsLeft(S),
    /// The device was given up, so not all may have been written. With it comes the image, as the media stand.
    GivenUp(Vec<u8>),
    /// A handle of the media is left: the service goes on, as with SessionsLeft. Once the handle was let go it can be stopped.
    OutOfMemory(S),
    /// The link to the drivers has ended, so not all may have been written. With it comes the image, as the media stand.
    LinkEnded(Vec<u8>),
    /// The volume was synced, and the media aren't as it was read back then: a driver lost writes, and didn't say so. With it comes the
    /// image, as the media stand.
    NotAsRead(Vec<u8>),
    /// The volume was synced, and not read back: no memory was found for that, or a driver may have written where no request asked it to.
    /// With it comes the image, as the media stand.
    NotRead(Vec<u8>),
}

impl<S> StopRefusal<S> {
    /// Its number: 1 to 6.
    pub fn number(&self) -> u32
        ensures { result ≡ stop_refusal_number self.now }
    {
        match self {
            StopRefusal::SessionsLeft(_) => 1,
            StopRefusal::GivenUp(_) => 2,
            StopRefusal::OutOfMemory(_) => 3,
            StopRefusal::LinkEnded(_) => 4,
            StopRefusal::NotAsRead(_) => 5,
            StopRefusal::NotRead(_) => 6,
        }
    }
}

/// Whether the media are as the volume was read back, for all that a last sync says: not where they differ, nor where it wasn't read back.
pub fn is_as_read(last: LastSync) -> bool
    ensures { result ≡ as_read last }
{
    !matches!(last, LastSync::NotAsRead | LastSync::NotRead)
}

/// Why no image is left of a service that was to be stopped.
#[derive(Clone, Copy, Debug, PartialEq, Eq)]
pub enum NoImage {
    /// The service isn't stopped, since a session is left.
    SessionsLeft,
    /// A handle of the media is left.
    OutOfMemory,
}

/// Writes the name.
impl fmt::Display for NoImage {
    ghost output = { λ why. Some (no_image_name why) };

    fn fmt<W: fmt::Write>(&self, f: &mut fmt::Formatter<W>) -> fmt::Result {
        f.write_str(match self {
            NoImage::SessionsLeft => "SessionsLeft",
            NoImage::OutOfMemory => "OutOfMemory",
        })
    }
}

/// What stopping a service gave: how its last sync went, and the image as the media stand. Else why there is no image; the service, which
/// came back with the refusal, is let go.
pub fn image_left<S: Drop>(
    stopped: Result<Vec<u8>, StopRefusal<S>>,
) -> Result<(LastSync, Vec<u8>), NoImage>
    ensures image { IfOk result (λ left. IsImageOf stopped left.0 left.1) }
    ensures none { IfErr result (IsNoImageOf stopped) }
{
    match stopped {
        Ok(image) => Ok((LastSync::Done, image)),
        Err(StopRefusal::GivenUp(image)) => Ok((LastSync::GivenUp, image)),
        Err(StopRefusal::LinkEnded(image)) => Ok((LastSync::Cut, image)),
        Err(StopRefusal::NotAsRead(image)) => Ok((LastSync::NotAsRead, image)),
        Err(StopRefusal::NotRead(image)) => Ok((LastSync::NotRead, image)),
        Err(StopRefusal::SessionsLeft(_)) => Err(NoImage::SessionsLeft),
        Err(StopRefusal::OutOfMemory(_)) => Err(NoImage::OutOfMemory),
    }
}

/// The sectors of media are whole, whichever media these are.
fn has_whole_sectors(media: &Media)
    ensures { IsWhole media.now.sectors }
{
    let _ = media.sectors();
}

/// The image of the media that a service leaves whose last sync came to this, or why it is none of a synced volume. The volume's range of
/// the media has this first sector and so many; drivers may have written in these units of eight of them; what was read back is beside the
/// media as is told. Where the media don't have the whole range, it wasn't read back.
///
/// It takes no memory: the media become the image.
pub(crate) fn image_of<N: ServiceParameters, S>(
    finish: Finish,
    media: Media,
    written: Marks,
    range: (u32, u32),
    likeness: Likeness,
) -> Result<Vec<u8>, StopRefusal<S>>
    requires kept { KeepsBut N.opening written media }
    requires outside { KeepsOutside N.opening media }
    requires range { (range.0 ≡ N.opening.first) × (range.1 ≡ N.opening.count) }
    ensures image { (pieces : List Piece) → (finish_end finish ≡ Went → Tells N.opening likeness pieces media.sectors)
        → IfOk result (λ image. IsAsRead N.opening finish pieces image.items) }
    ensures refused { (pieces : List Piece) → (finish_end finish ≡ Went → Tells N.opening likeness pieces media.sectors)
        → IfErr result (IsLeftAfter N.opening finish pieces) }
{
    has_whole_sectors(&media);
    let image = media.into_image();
    let (first, count) = range;
    match finish {
        Finish::Read(units) => {
            if !has_range(first, count, &image) {
                return Err(StopRefusal::NotRead(image));
            }
            if !units.covers(&written) {
                return Err(StopRefusal::NotRead(image));
            }
            match likeness {
                Likeness::Same => Ok(image),
                Likeness::Differs => Err(StopRefusal::NotAsRead(image)),
                Likeness::Unsure => Err(StopRefusal::NotRead(image)),
            }
        }
        Finish::Unread => Err(StopRefusal::NotRead(image)),
        Finish::GivenUp => Err(StopRefusal::GivenUp(image)),
        Finish::Cut => Err(StopRefusal::LinkEnded(image)),
    }
}
