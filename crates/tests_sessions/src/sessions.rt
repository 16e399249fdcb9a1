//! Sessions of one service: their replies, their numbers, and what they have seen; and services that are stopped.

use crate::programs::{What, served};
use fixtures::new_volume;
use modeldisk::FaultKind;
use std::alloc::Global;
use std::sync::Wait;
use std::test::Fail;
use std::thread::Threads;
use std::time::Clock;
use tests_texts::is_told;
use tree::{Call, PathFrom, Start};

/// The directory.
const DIRECTORY: PathFrom<'static> = PathFrom {
    start: Start::Root,
    bytes: b"/d",
};

/// What is done, whether the driver dies in its first request after those of the mount, the lines that come of it, and whether a service
/// was stopped and its image stays as it was.
type Row = (What, bool, &'static str, bool);

/// Rows on a new volume; the last one makes a directory.
static ROWS: [Row; 5] = [
    // a start, the answers to the mount's 17 reads and to the first call's read of the root's inode, and six calls' marks
    (
        What::InTurn,
        false,
        "inode 1 mode 0040755 links 2 uid 0 gid 0 size 128 times 50 50 50
inode 1 mode 0040755 links 2 uid 0 gid 0 size 128 times 50 50 50
inode 1 mode 0040755 links 2 uid 0 gid 0 size 128 times 50 50 50
inode 1 mode 0040755 links 2 uid 0 gid 0 size 128 times 50 50 50
inode 1 mode 0040755 links 2 uid 0 gid 0 size 128 times 50 50 50
inode 1 mode 0040755 links 2 uid 0 gid 0 size 128 times 50 50 50
24 25
25 25
Live Live
",
        false,
    ),
    // a start, the answers to the mount's 17 reads, the giving up, and six calls' marks: both are told of the giving up
    (
        What::InTurn,
        true,
        "EIO\nEIO\nEIO\nEIO\nEIO\nEIO\n24 25\n25 25\nGivenUp GivenUp\n",
        false,
    ),
    // the last one was refused before, and the one after wasn't, and 63 sessions are left
    (What::Many, false, "Some(TooMany) None 63\n", false),
    // the image of a given up device is as it was
    (
        What::Stops(
            Call::Mkdir {
                path: DIRECTORY,
                mode: 0o755,
            },
            true,
        ),
        true,
        "EIO\ngiven up\n",
        true,
    ),
    (
        What::Stops(
            Call::Mkdir {
                path: DIRECTORY,
                mode: 0o755,
            },
            false,
        ),
        false,
        "ok\nsynced\n",
        false,
    ),
];

/// Another service finds what was made, and leaves the image as it is.
static AGAIN: [Row; 1] = [(
    What::Stops(Call::Stat { path: DIRECTORY }, true),
    false,
    "inode 2 mode 0040755 links 2 uid 0 gid 0 size 128 times 100 100 100\nsynced\n",
    true,
)];

/// A row comes out as it says over the volume in an image. The image that is left.
fn comes_out<R: Threads + Wait + Clock + Copy + Send + Sync + 'static>(
    alloc: Global,
    rt: R,
    image: &[u8],
    row: &'static Row,
) -> Result<Vec<u8>, Fail> {
    let (what, dies, lines, is_left) = row;
    let fault = if *dies {
        Some((0, FaultKind::Die))
    } else {
        None
    };
    let Some(came) = served(alloc, rt, image, fault, what)? else {
        return Err(Fail::from("not served"));
    };
    is_told(came.lines.as_str(), lines)?;
    if (came.image.as_slice() == image) == *is_left {
        return Ok(came.image);
    }
    Err(Fail::from(*lines))
}

/// Rows come out one after the other, each over this image; the image that the last one leaves.
fn come_out<R: Threads + Wait + Clock + Copy + Send + Sync + 'static>(
    alloc: Global,
    rt: R,
    image: &[u8],
    rows: &'static [Row],
) -> Result<Vec<u8>, Fail> {
    let mut left = Vec::new(alloc);
    for row in rows {
        left = comes_out(alloc, rt, image, row)?;
    }
    Ok(left)
}

#[test]
fn sessions_are_served_and_services_stopped(rt: HostRuntime) -> Result<(), Fail> {
    let image = new_volume(rt.alloc(), 1024)?;
    let left = come_out(rt.alloc(), rt, &image, &ROWS)?;
    come_out(rt.alloc(), rt, &left, &AGAIN)?;
    Ok(())
}

/// A call and a last sync on a new volume, whose image isn't looked at.
static MADE: What = What::Stops(
    Call::Mkdir {
        path: DIRECTORY,
        mode: 0o755,
    },
    true,
);

/// What was written is read back when the service is stopped, and is what the media have.
#[test]
fn stopped_services_are_read_back(rt: HostRuntime) -> Result<(), Fail> {
    let image = new_volume(rt.alloc(), 1024)?;
    let Some(came) = served(rt.alloc(), rt, &image, None, &MADE)? else {
        return Err(Fail::from("not served"));
    };
    is_told(came.lines.as_str(), "ok\nsynced\n")
}
