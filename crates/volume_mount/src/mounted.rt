//! A file server is mounted on the volume behind a link, or opened on one that was checked.

ghost use Rattle.std.specs.Prelude.{◌≡◌, ◌≤◌, ◌^◌, IfOk, IfErr, true, false};
ghost use Rattle.std.specs.Bool.{OnTrue, OnFalse};
ghost use Rattle.records.specs.Mount.{is_frame_count};
ghost use Rattle.layout.specs.Places.{IsGeometry};
ghost use Rattle.records.specs.Told.{took_end};
ghost use Rattle.volume_mount.specs.Mounts.{in_words};
ghost use Rattle.vfs.specs.OverLink.{IsIdleOver, IsReadyOver, line_of};
ghost use Rattle.volume_mount.specs.Opening.{refusal_of};
ghost use Rattle.volume_mount.specs.Mounted.{IsMounted, IsNotMounted, OpensClean};

use crate::opening::{open as open_over, over};
use crate::{MountRefusal, read_volume};
use cache::CacheRefusal;
use cached_blocks::Stored;
use fsck::Clean;
use reissue::{Link, Transfers};
use std::alloc::Global;
use vfs::Server;

/// Whether a cache may have so many frames: 16 to 4096.
fn is_allowed(frames: u32) -> bool
    ensures allowed { OnTrue result (is_frame_count frames ≡ true) }
    ensures refused { OnFalse result (is_frame_count frames ≡ false) }
{
    (16..=4096).contains(&frames)
}

/// The refusal of an opening, as mounting has it.
fn refused_by(refusal: CacheRefusal) -> MountRefusal
    ensures { in_words result ≡ refusal_of refusal }
{
    match refusal {
        CacheRefusal::BadFrames => MountRefusal::BadFrames,
        CacheRefusal::OutOfMemory => MountRefusal::OutOfMemory,
    }
}

/// A server with so many frames for the volume of this minor, which was found clean: it serves the tree that the link's disk holds. That
/// the disk holds the image that the check accepted is the caller's part. The link hasn't ended, and gives at most 2^58 messages. Nothing
/// is done at the link: `BadFrames` unless the frames are 16 to 4096, looked at first; `OutOfMemory`. The link is let go then.
pub fn open<L: Link>(
    alloc: Global,
    link: L,
    minor: u8,
    clean: Clean,
    frames: u32,
) -> Result<Server<Stored<L>>, MountRefusal>
where
    L: Drop,
    requires sizes { IsGeometry clean.geometry }
    requires live { took_end (L.history link) ≡ false }
    requires budget { L.budget_left link ≤ 2 ^ 58 }
    ensures opens { OpensClean L.Link link minor clean.geometry frames result }
    ensures link { IfOk result (λ s. line_of s ≡ link) }
    ensures ready { IfOk result (IsReadyOver L.Link) }
    ensures idle { IfOk result (IsIdleOver L.Link) }
    ensures none_absorbed { IfOk result (λ s. s.absorbed ≡ 0) }
{
    match open_over(alloc, link, minor, clean.geometry(), frames) {
        Ok(server) => Ok(server),
        Err(refusal) => Err(refused_by(refusal)),
    }
}

/// Mounts the volume of this minor, with so many frames: reads its first 2048 bytes through the link, then all others, checks what was
/// read, and makes a server that serves the tree in it. The link hasn't ended, and gives at most 2^57 messages.
///
/// `BadFrames` unless the frames are 16 to 4096, looked at before anything is done at the link; `Layout` where the superblock is refused;
/// `Inconsistent` with what the check finds; `Eio` where the device was given up before all was read, and so where the volume passes the
/// device's end; `LinkEnded` where the link ended before; of these the least. `OutOfMemory` whenever memory is wanted. The link is let go
/// then, and nothing is left due at it.
pub fn mount<L: Link>(
    alloc: Global,
    link: L,
    minor: u8,
    frames: u32,
) -> Result<Server<Stored<L>>, MountRefusal>
where
    L: Drop,
    requires live { took_end (L.history link) ≡ false }
    requires budget { L.budget_left link ≤ 2 ^ 57 }
    ensures mounted { IfOk result (IsMounted L.Link link minor frames) }
    ensures refused { IfErr result (IsNotMounted L.Link link minor frames) }
{
    if !is_allowed(frames) {
        return Err(MountRefusal::BadFrames);
    }
    let mut transfers = match Transfers::new(alloc, link) {
        Ok(transfers) => transfers,
        Err(_) => return Err(MountRefusal::OutOfMemory),
    };
    let clean = match read_volume(alloc, &mut transfers, minor) {
        Ok(clean) => clean,
        Err(refusal) => return Err(refusal),
    };
    match over(alloc, transfers, minor, clean.geometry(), frames) {
        Ok(server) => Ok(server),
        Err(_) => Err(MountRefusal::OutOfMemory),
    }
}
