//! The image that a mount keeps: what it begins with, and what is left of it.

use archive::FileArchive;
use host::play_words::mount::MountWords;
use host::whole_file::read_front;
use image_file::Kept;
use locked_image::FilesRefusal;
use locked_image::beside::Beside;
use locked_image::locked::LockedImage;
use locked_image::reading::read_image;
use locked_image::reasons::why;
use locked_image::storing::ImageFiles;
use mount_service::handing::hand_left;
use mount_service::mount::{Ended, MountStatus};
use output::tell;
use release::{Released, release, start_on};
use std::io;
use volume_commands::verify::{Verified, verify};

/// The image that is kept.
pub(crate) type KeptImage = FileArchive<ImageFiles<HostRuntime>>;

/// What a mount begins with.
#[derive(Drop)]
pub(crate) struct Begun {
    /// The image's bytes; none where it can't be read.
    pub(crate) image: Option<Vec<u8>>,
    /// Where the image of each sync goes, if anywhere.
    pub(crate) archive: Option<KeptImage>,
}

/// How a mount ended that was refused, as a line on standard error says.
pub(crate) fn refused(rt: HostRuntime, refusal: &FilesRefusal<'_>) -> MountStatus {
    MountStatus::Refused(tell(rt.alloc(), &mut rt.stderr(), refusal))
}

/// The image that the words name, with what its log asks for, and without files that have no name; nothing is kept.
pub(crate) fn begin(rt: HostRuntime, words: &MountWords<'_>) -> Result<Begun, MountStatus> {
    match read_image(&rt, words.image) {
        Ok(image) => Ok(Begun {
            image: start_on(rt.alloc(), Some(image), words.minor, &mut rt.stderr()),
            archive: None,
        }),
        Err(refusal) => Err(refused(rt, &refusal)),
    }
}

/// The same, and the locked image, which has this name, is kept. Where it is another one than the words name, it becomes that one first, if
/// that one is clean; one that isn't is served by no mount, and the locked one stays.
pub(crate) fn begin_to_keep(
    rt: HostRuntime,
    words: &MountWords<'_>,
    locked: &mut LockedImage,
    name: &str,
) -> Result<Begun, MountStatus> {
    if locked.is_image(&rt, words.image) {
        return begin_in_place(rt, words, locked, name);
    }
    let Begun { image, .. } = begin(rt, words)?;
    let archive = match &image {
        Some(bytes) if is_served(rt, words, bytes)? => Some(kept_copy(rt, locked, name, bytes)?),
        _ => None,
    };
    Ok(Begun { image, archive })
}

/// What a mount begins with that keeps the image which it serves. Files without a name are given back in the file, too: what changes from
/// then on changes the same image in both.
fn begin_in_place(
    rt: HostRuntime,
    words: &MountWords<'_>,
    locked: &LockedImage,
    name: &str,
) -> Result<Begun, MountStatus> {
    let mut kept = kept_image(rt, locked, name)?;
    let mut image = read_front(&rt, words.image).map_err(|error| unread(rt, words.image, &error))?;
    if gives_back(rt, words, &mut image) {
        kept.put_image(&image)
            .map_err(|error| unwritten(rt, name, &error))?;
    }
    Ok(Begun {
        image: Some(image),
        archive: Some(FileArchive::new(kept)),
    })
}

/// How a mount ended whose image of this name can't be read.
fn unread(rt: HostRuntime, name: &str, error: &io::Error) -> MountStatus {
    refused(rt, &FilesRefusal::CannotRead(name, why(error)))
}

/// How one ended whose image of this name can't be written.
fn unwritten(rt: HostRuntime, name: &str, error: &io::Error) -> MountStatus {
    refused(rt, &FilesRefusal::CannotWrite(name, why(error)))
}

/// Whether files without a name were given back in an image, as a line on standard error says.
fn gives_back(rt: HostRuntime, words: &MountWords<'_>, image: &mut [u8]) -> bool {
    match release(rt.alloc(), image, words.minor) {
        Ok(count) if count > 0 => {
            tell(rt.alloc(), &mut rt.stderr(), &Released { count });
            true
        }
        _ => false,
    }
}

/// The locked image, which is kept from now on.
fn kept_image(
    rt: HostRuntime,
    locked: &LockedImage,
    name: &str,
) -> Result<Kept<ImageFiles<HostRuntime>>, MountStatus> {
    locked
        .keep(&rt, name)
        .map_err(|refusal| refused(rt, &refusal))
}

/// The same, once these bytes have taken the place of the locked image.
fn kept_copy(
    rt: HostRuntime,
    locked: &mut LockedImage,
    name: &str,
    bytes: &[u8],
) -> Result<KeptImage, MountStatus> {
    if let Err(refusal) = locked.settle(&rt, name) {
        return Err(refused(rt, &refusal));
    }
    match locked.replace(&rt, bytes, bytes.len() as u64) {
        Ok(()) => Ok(FileArchive::new(kept_image(rt, locked, name)?)),
        Err(error) => Err(unwritten(rt, name, &error)),
    }
}

/// Whether a mount may serve an image: the check finds its volume clean. Where nothing can be said of it, a line on standard error says why,
/// and that is how the mount ended.
fn is_served(rt: HostRuntime, words: &MountWords<'_>, image: &[u8]) -> Result<bool, MountStatus> {
    let (alloc, name, minor) = (rt.alloc(), words.image, words.minor);
    match verify(
        alloc,
        name,
        Some(image),
        minor,
        &mut io::sink(),
        &mut rt.stderr(),
    ) {
        Verified::IsClean => Ok(true),
        Verified::HasFinding | Verified::HasWrongLinks => Ok(false),
        Verified::Refused(told) => Err(MountStatus::Refused(told)),
    }
}

/// How a mount ended that was to keep the image of this name, once the image that it left was handed on: the one beside it takes an image
/// that isn't as it was read back, or whose volume isn't clean, and the image of this name is then that of the last sync.
pub(crate) fn finished<I: Drop, O: Drop, C: Drop, W: Drop, E: io::Write>(
    rt: HostRuntime,
    words: &MountWords<'_>,
    mounted: Ended<I, O, C, KeptImage, W>,
    name: &str,
    err: &mut E,
) -> MountStatus {
    let mut beside = Beside::of(rt, name);
    hand_left(rt.alloc(), mounted, words.minor, name, &mut beside, err).status
}
