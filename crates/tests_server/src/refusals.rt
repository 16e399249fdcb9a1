//! Why a mount is refused.
use crate::answered::{mounted_over, reads_of};
use fixtures::changed;
use layout::LayoutRefusal;
use message::Incoming;
use std::alloc::{AllocError, Global};
use std::test::Fail;
use tests_texts::is_told;
use volume::Finding;
use volume_mount::MountRefusal;

/// A new volume with a byte that is changed, how many of its reads the driver answers once it is started, or that none is started,
/// whether the device is given up then or the link ends, the frames, and why the mount is refused.
static ROWS: [(usize, u8, Option<usize>, bool, u32, &str); 14] = [
    // frames are looked at first
    (0, 0, None, false, 15, "6 BadFrames"),
    (0, 0, None, false, 16, "5 LinkEnded"),
    (0, 0, None, false, 4096, "5 LinkEnded"),
    (0, 0, None, false, 4097, "6 BadFrames"),
    // a bad superblock is told once the first 2048 bytes have come, and of a bad volume all of it has to
    (1048, 0, Some(1), false, 64, "1 Layout BadMagic"),
    (
        3072,
        7,
        Some(17),
        false,
        64,
        "2 Inconsistent finding 9 at 7",
    ),
    (3072, 7, Some(16), false, 64, "5 LinkEnded"),
    // the device is given up, or the link ends, before the first start, before the head was read, behind it, and before the last bytes
    (0, 0, None, true, 64, "4 Eio"),
    (0, 0, Some(0), true, 64, "4 Eio"),
    (0, 0, Some(0), false, 64, "5 LinkEnded"),
    (0, 0, Some(1), true, 64, "4 Eio"),
    (0, 0, Some(1), false, 64, "5 LinkEnded"),
    (0, 0, Some(16), true, 64, "4 Eio"),
    (0, 0, Some(16), false, 64, "5 LinkEnded"),
];

/// The refusals, with their numbers and names.
static NAMES: [(MountRefusal, &str); 6] = [
    (
        MountRefusal::Layout(LayoutRefusal::BadMagic),
        "1 Layout BadMagic",
    ),
    (
        MountRefusal::Inconsistent(Finding {
            number: 9,
            place: 7,
        }),
        "2 Inconsistent finding 9 at 7",
    ),
    (MountRefusal::OutOfMemory, "3 OutOfMemory"),
    (MountRefusal::Eio, "4 Eio"),
    (MountRefusal::LinkEnded, "5 LinkEnded"),
    (MountRefusal::BadFrames, "6 BadFrames"),
];

/// The messages of a link to the driver of an image, of whose reads it answers so many.
fn messages(
    alloc: Global,
    image: &[u8],
    answers: Option<usize>,
    gives_up: bool,
) -> Result<Vec<Incoming>, AllocError> {
    let mut messages = match answers {
        Some(count) => reads_of(alloc, image, count)?,
        None => Vec::new(alloc),
    };
    if gives_up {
        messages.push(Incoming::GaveUp)?;
    }
    Ok(messages)
}

/// The number and the name of a refusal.
fn said(alloc: Global, refusal: &MountRefusal) -> Result<String, AllocError> {
    let number = refusal.number();
    format!(in alloc; "{number} {refusal}")
}

/// What comes of a mount over a link that gives these messages.
fn came(alloc: Global, messages: Vec<Incoming>, frames: u32) -> Result<String, AllocError> {
    match mounted_over(alloc, messages, frames)? {
        Ok(_) => "mounted".to_string(alloc),
        Err(refusal) => said(alloc, &refusal),
    }
}

/// Mounts are refused for these reasons.
fn are_refused(alloc: Global) -> Result<(), Fail> {
    for (at, byte, answers, gives_up, frames, text) in &ROWS {
        let image = changed(alloc, *at, *byte)?;
        let messages = messages(alloc, &image, *answers, *gives_up)?;
        is_told(came(alloc, messages, *frames)?.as_str(), text)?;
    }
    Ok(())
}

/// The refusals have these numbers and names.
fn are_named(alloc: Global) -> Result<(), Fail> {
    for (refusal, text) in &NAMES {
        is_told(said(alloc, refusal)?.as_str(), text)?;
    }
    Ok(())
}

#[test]
fn mounts_are_refused(rt: HostRuntime) -> Result<(), Fail> {
    are_refused(rt.alloc())?;
    are_named(rt.alloc())
}
