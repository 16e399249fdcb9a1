//! Plays that are refused, and which fault is told first.
use crate::plays::{Faults, Play};
use fixtures::{changed, new_volume};
use std::alloc::{AllocError, Global};
use std::sync::Wait;
use std::test::Fail;
use std::thread::Threads;
use std::time::Clock;

/// An image: one that can't be read, the first bytes of a new volume's, or a new volume's with a byte at a place changed to another.
#[derive(Clone, Copy)]
pub enum PlayedImage {
    /// It can't be read.
    Unread,
    /// So many bytes of a new volume's.
    First(usize),
    /// A new volume's, whose byte at this place is this one.
    Changed(usize, u8),
}

/// An image, how many sectors each driver serves, the scripts' bytes if they can be read, the drivers, and the fault that is told.
pub type Refused = (
    PlayedImage,
    usize,
    &'static [Option<&'static [u8]>],
    Faults<'static>,
    &'static str,
);

/// An image's bytes, if it can be read.
fn bytes_of(alloc: Global, image: PlayedImage) -> Result<Option<Vec<u8>>, AllocError> {
    Ok(match image {
        PlayedImage::Unread => None,
        PlayedImage::Changed(at, byte) => Some(changed(alloc, at, byte)?),
        PlayedImage::First(length) => {
            let mut image = new_volume(alloc, 1024)?;
            image.truncate(length);
            Some(image)
        },
    })
}

/// The fault of a row is told, of an image whose bytes are these.
fn is_first<R: Threads + Wait + Clock + Copy + Send + Sync + 'static>(
    alloc: Global,
    rt: R,
    image: Option<&[u8]>,
    row: &Refused,
) -> Result<(), Fail> {
    let (_, sectors, scripts, faults, line) = *row;
    let play = Play {
        image,
        sectors,
        faults,
        ..Play::new(&[], scripts)
    };
    play.gives(alloc, rt, 1, "", line)
}

/// The fault of each row is told.
pub fn are_first<R: Threads + Wait + Clock + Copy + Send + Sync + 'static>(
    alloc: Global,
    rt: R,
    rows: &[Refused],
) -> Result<(), Fail> {
    for row in rows {
        let image = bytes_of(alloc, row.0)?;
        is_first(alloc, rt, image.as_deref(), row)?;
    }
    Ok(())
}

/// How many scripts are played, 65 at most, the last one, which may be bad, and what is told.
pub type Count = (usize, &'static [u8], &'static str);

/// A play of so many scripts over a driver of other media is refused.
fn is_refused<R: Threads + Wait + Clock + Copy + Send + Sync + 'static>(
    alloc: Global,
    rt: R,
    image: &[u8],
    each: &'static [u8],
    row: &Count,
) -> Result<(), Fail> {
    let (count, last, line) = *row;
    let mut scripts = [Some(each); 65];
    let (scripts, _) = scripts.split_at_mut(count.min(65));
    if let Some(place) = scripts.last_mut() {
        *place = Some(last);
    }
    let play = Play {
        sectors: 127,
        ..Play::new(image, scripts)
    };
    play.gives(alloc, rt, 1, "", line)
}

/// Each of these plays on a new volume, of scripts that are the same but for the last one, is refused over a driver of other media.
pub fn are_refused<R: Threads + Wait + Clock + Copy + Send + Sync + 'static>(
    alloc: Global,
    rt: R,
    each: &'static [u8],
    rows: &[Count],
) -> Result<(), Fail> {
    let image = new_volume(alloc, 1024)?;
    for row in rows {
        is_refused(alloc, rt, &image, each, row)?;
    }
    Ok(())
}
