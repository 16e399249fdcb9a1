//! Plays into writers that fail, or take little at a time; and images that plays leave.

ghost use Rattle.std.specs.Prelude.{◌≡◌, ◌↔◌, IsOk};

use crate::left::has_left;
use crate::plays::{Play, Played, WriterLimits};
use crate::shelf::Shelf;
use fixtures::{changed, new_volume};
use std::alloc::Global;
use std::sync::Wait;
use std::test::Fail;
use std::thread::Threads;
use std::time::Clock;
use tools::handing::{hand_left, let_go};
use tools::play::{Ended, ImageLeft, LastSync, PlayStatus};

/// Whether there is an image, a script, how many bytes are taken at a call, on standard output and on standard error, how the play ends,
/// what is written, and what bytes the image has then, if it is there.
pub type Narrow = (
    bool,
    &'static [u8],
    (usize, usize, usize),
    PlayStatus,
    (&'static str, &'static str),
    Option<&'static str>,
);

/// Looks at what a play gave, and at how it ended, which is an error where it is something else than a row says.
fn is_as_said(
    alloc: Global,
    played: &Played,
    status: PlayStatus,
    row: &Narrow,
) -> Result<(), Fail> {
    let (_, _, _, ended, (told, line), left) = *row;
    let is_told = played.out.as_slice() == told.as_bytes()
        && played.err.as_slice() == line.as_bytes();
    let number = if ended == PlayStatus::Done { 0 } else { 1 };
    let is_ended = status == ended && played.status == number;
    if is_told && is_ended && played.image.is_some() == left.is_some() {
        return has_left(alloc, played.left(), left.unwrap_or(""));
    }
    Err(Fail::from(told))
}

/// A row comes out as it says, on a new volume.
fn comes_out<R: Threads + Wait + Clock + Copy + Send + Sync + 'static>(
    alloc: Global,
    rt: R,
    image: &[u8],
    row: &Narrow,
) -> Result<(), Fail> {
    let (has_image, script, (most, out, err), _, _, _) = *row;
    let scripts = [Some(script)];
    let play = Play {
        image: has_image.then_some(image),
        ..Play::new(image, &scripts)
    };
    let (played, status) = play.played_into(alloc, rt, WriterLimits { most, out, err })?;
    is_as_said(alloc, &played, status, row)
}

/// Each row comes out as it says.
pub fn all_come_out<R: Threads + Wait + Clock + Copy + Send + Sync + 'static>(
    alloc: Global,
    rt: R,
    rows: &[Narrow],
) -> Result<(), Fail> {
    let image = new_volume(alloc, 1024)?;
    for row in rows {
        comes_out(alloc, rt, &image, row)?;
    }
    Ok(())
}

/// What is changed of a new volume, a byte at a place, if anything; the minor; whether the image's place takes one, and what is beside.
pub type Left = (Option<(usize, u8)>, u8, (bool, bool));

/// How a play ended that left such an image, how it ended once that was handed on, what was told of it, and whether it is in its place
/// then, and beside.
pub type HandedOn = (PlayStatus, Left, PlayStatus, &'static str, (bool, bool));

/// Looks at how a row ended, and at what was told.
fn has_ended(ended: PlayStatus, told: &[u8], status: PlayStatus, line: &str) -> Result<(), Fail>
    ensures { IsOk result ↔ ((ended ≡ status) × (told.now ≡ line.now)) }
{
    if ended == status && told == line.as_bytes() {
        return Ok(());
    }
    Err(Fail::new(format_args!("no line as this: {line}")))
}

/// Looks at whether a place has this image, or none.
fn has_taken(shelf: &Shelf, image: &[u8], taken: bool) -> Result<(), Fail> {
    let wanted = if taken { image } else { &[] };
    if shelf.image.as_slice() == wanted {
        return Ok(());
    }
    Err(Fail::from("another image"))
}

/// A row ends as it says, whose last sync went so.
fn is_handed_on(
    alloc: Global,
    name: &str,
    last_sync: LastSync,
    row: &HandedOn,
) -> Result<(), Fail> {
    let (played, (change, minor, (place, beside)), ended, line, (there, aside)) = *row;
    let image = match change {
        Some((at, byte)) => changed(alloc, at, byte)?,
        None => new_volume(alloc, 1024)?,
    };
    let left = Ended {
        status: played,
        image: Some(ImageLeft {
            last_sync,
            bytes: Vec::from_slice(alloc, &image)?,
        }),
    };
    let (mut place, mut beside) = (Shelf::new(alloc, place), Shelf::new(alloc, beside));
    let mut err = Vec::new(alloc);
    let status = hand_left(alloc, left, minor, name, &mut place, &mut beside, &mut err);
    has_ended(status, err.as_slice(), ended, line)?;
    has_taken(&place, &image, there)?;
    has_taken(&beside, &image, aside)
}

/// Each row ends as it says, whose image's place is the file of this name, and whose last sync went so.
pub fn are_handed_on(
    alloc: Global,
    name: &str,
    last_sync: LastSync,
    rows: &[HandedOn],
) -> Result<(), Fail> {
    for row in rows {
        is_handed_on(alloc, name, last_sync, row)?;
    }
    Ok(())
}

/// A play ended so, whose last sync went so; its image is handed on nowhere: it ends as it says, with this line.
pub fn is_let_go(
    alloc: Global,
    played: PlayStatus,
    last_sync: LastSync,
    ended: PlayStatus,
    line: &str,
) -> Result<(), Fail> {
    let left = Ended {
        status: played,
        image: Some(ImageLeft {
            last_sync,
            bytes: Vec::new(alloc),
        }),
    };
    let mut err = Vec::new(alloc);
    let status = let_go(alloc, left, &mut err);
    has_ended(status, err.as_slice(), ended, line)
}
