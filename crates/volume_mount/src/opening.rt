//! Opening a file server over a link.

ghost use Rattle.std.specs.Prelude.{◌≡◌, ◌≤◌, ◌+◌, ◌^◌, [], IfOk, IsErrOf, ◌↔◌, false};
ghost use Rattle.layout.specs.Places.{IsGeometry};
ghost use Rattle.records.specs.Mount.{is_frame_count};
ghost use Rattle.records.specs.Told.{took_end};
ghost use Rattle.reissue.specs.Posts.{HasRoom};
ghost use Rattle.reissue.specs.Transfers.{link_of, table_of};
ghost use Rattle.vfs.specs.OverLink.{IsIdleOver, IsReadyOver, line_of};
ghost use Rattle.volume_mount.specs.Opening.{IsNewOver, Opens};

use cache::{Cache, CacheRefusal};
use cached_blocks::Stored;
use descriptors::Descriptors;
use layout::Geometry;
use reissue::{Link, Transfers};
use std::alloc::Global;
use vfs::Server;

/// A server with so many frames, over transfers with nothing pending, for a volume of these sizes in a range of the media. It does
/// nothing at the link. All memory that it needs, but for frames past the first 64, the bytes that a read gives and the names of a
/// readdir, is taken here: BadFrames unless the frames are 16 to 4096, looked at first; OutOfMemory. The transfers are let go then.
pub fn over<L: Link>(
    alloc: Global,
    transfers: Transfers<L>,
    minor: u8,
    geometry: Geometry,
    frames: u32,
) -> Result<Server<Stored<L>>, CacheRefusal>
where
    L: Drop,
    requires sizes { IsGeometry geometry }
    requires live { took_end (L.history (link_of transfers)) ≡ false }
    requires idle { (table_of transfers).pending ≡ [] }
    requires room { HasRoom (table_of transfers) (L.room (link_of transfers)) }
    requires ids { (table_of transfers).ids + L.budget_left (link_of transfers) + 1 ≤ 2 ^ 59 }
    ensures made { IfOk result (IsNewOver L.Link transfers minor geometry frames) }
    ensures bad_frames { IsErrOf result CacheRefusal.BadFrames ↔ (is_frame_count frames ≡ false) }
{
    let cache = Cache::new(alloc, transfers, minor, &geometry, frames)?;
    let opens = match Descriptors::new(alloc) {
        Ok(opens) => opens,
        Err(_) => return Err(CacheRefusal::OutOfMemory),
    };
    Ok(Server::new(alloc, Stored::new(cache), geometry, opens))
}

/// A server that has asked nothing yet, with so many frames, for a volume of these sizes in a range of the media: it serves the tree
/// that the link's disk holds, whichever that is. The link hasn't ended, and gives at most 2^58 messages. It does nothing at the
/// link: BadFrames unless the frames are 16 to 4096, looked at first; OutOfMemory. The link is let go then.
pub fn open<L: Link>(
    alloc: Global,
    link: L,
    minor: u8,
    geometry: Geometry,
    frames: u32,
) -> Result<Server<Stored<L>>, CacheRefusal>
where
    L: Drop,
    requires sizes { IsGeometry geometry }
    requires live { took_end (L.history link) ≡ false }
    requires budget { L.budget_left link ≤ 2 ^ 58 }
    ensures opens { Opens L.Link link minor geometry frames result }
    ensures link { IfOk result (λ s. line_of s ≡ link) }
    ensures ready { IfOk result (IsReadyOver L.Link) }
    ensures idle { IfOk result (IsIdleOver L.Link) }
    ensures none_absorbed { IfOk result (λ s. s.absorbed ≡ 0) }
{
    if !(16..=4096).contains(&frames) {
        return Err(CacheRefusal::BadFrames);
    }
    match Transfers::new(alloc, link) {
        Ok(transfers) => over(alloc, transfers, minor, geometry, frames),
        Err(_) => Err(CacheRefusal::OutOfMemory),
    }
}
