//! Bytes that are written: as many as there is room for.
#![tactic(auto, using(crate::proofs::Asking::goes_on, crate::proofs::Asking::stays))]

ghost use Rattle.std.specs.Prelude.{◌≡◌, ◌<◌, ◌≤◌, pos, min, length, take, IfOk};
ghost use Rattle.tree.specs.declared.Call.TheVariants as call;
ghost use Rattle.fuse_server.specs.Asking.{SoughtFor, Talked};
ghost use Rattle.fuse_server.specs.Plans.{May};
ghost use Rattle.fuse_server.specs.Plans.Kind.{Seek, Write};
ghost use Rattle.fuse_server.specs.Reach.{CalledFrom};
ghost use Rattle.fuse_server.specs.Tries.{WroteSome, fewer, room_reply};

use crate::bounds::within;
use crate::files::seek;
use crate::talk::calling;
use crate::work::Work;
use errno::Errno;
use fuse_nodes::node::Descriptor;
use talks::refused::Refused;
use talks::sessions::Sessions;
use tree::{Call, MAX_TRANSFER};

/// Where a write ends that has no room for all its bytes: at a multiple of this, as blocks of all sizes do.
const PART: u64 = 1024;

/// How many bytes are tried, from an offset on, where there was no room for so many: half of them, down to a multiple of 1024, but no fewer
/// than up to the next one.
fn fewer(offset: u64, size: u64) -> u64
    requires low { offset ≤ 2147483647 }
    requires few { size ≤ 65536 }
    ensures { result ≡ fewer offset size }
{
    let next = PART - offset % PART;
    let half = ((offset + size / 2) / PART * PART).saturating_sub(offset);
    if next < half { half } else { next }
}

/// The first of some bytes for which there was no room; ENOSPC where there are no fewer that are tried.
fn less(offset: u64, given: &[u8]) -> Result<&[u8], Refused>
    requires low { offset ≤ 2147483647 }
    requires few { length given.now ≤ 65536 }
    ensures first { IfOk result (λ less. less.now ≡ take (fewer offset (length given.now)) given.now) }
    ensures fewer { IfOk result (λ less. fewer offset (length given.now) < length given.now) }
    ensures shorter { IfOk result (λ less. length less.now < length given.now) }
{
    let count = fewer(offset, given.len() as u64) as usize;
    if count < given.len() {
        Ok(&given[..count])
    } else {
        Err(Refused::By(Errno::ENOSPC))
    }
}

/// Writes at a position: how many bytes were written; none where there is no room for them all.
fn write_at<S: Sessions>(
    sessions: &mut S,
    work: Work,
    descriptor: Descriptor,
    offset: i64,
    bytes: &[u8],
) -> Result<Option<u32>, Refused>
    requires seeks { May work.reach.plan Seek }
    requires writes { May work.reach.plan Write }
    ensures asked { Talked (CalledFrom work.reach S.called) S.entered S.left work.now sessions.old sessions.new }
    ensures told { IfOk result (λ told. SoughtFor (CalledFrom work.reach S.called) S.entered S.left work.now sessions.old descriptor
        offset (call.Write descriptor.fd bytes.entry) (room_reply told) sessions.new) }
{
    seek(sessions, work, descriptor, offset)?;
    let call = Call::Write {
        fd: descriptor.fd,
        bytes,
    };
    let heard = calling(sessions, work, descriptor.session, &call);
    match heard.wrote() {
        Ok(count) => Ok(Some(count)),
        Err(Refused::By(Errno::ENOSPC)) => Ok(None),
        Err(refused) => Err(refused),
    }
}

/// Writes at a position as many of some bytes as there is room for: how many were written. As many as a call takes are tried, and, where
/// there is no room for those, fewer. ENOSPC where there is none for the fewest.
pub(crate) fn write_some<S: Sessions>(
    sessions: &mut S,
    work: Work,
    descriptor: Descriptor,
    position: i64,
    offset: u64,
    bytes: &[u8],
) -> Result<u32, Refused>
    requires seeks { May work.reach.plan Seek }
    requires writes { May work.reach.plan Write }
    requires at { position ≡ pos offset }
    requires low { offset ≤ 2147483647 }
    ensures asked { Talked (CalledFrom work.reach S.called) S.entered S.left work.now sessions.old sessions.new }
    ensures written { IfOk result (λ count. WroteSome (CalledFrom work.reach S.called) S.entered S.left work.now sessions.old descriptor
        offset bytes.now count sessions.new) }
{
    let mut given = within(bytes, MAX_TRANSFER);
    'tries: loop {
        if let Some(count) = write_at(sessions, work, descriptor, position, given)? {
            return Ok(count);
        }
        given = less(offset, given)?;
    }
}
