//! A link that answers the requests of a mount, and servers over it.
ghost use Rattle.std.specs.Prelude.{IfOk};
ghost use Rattle.cached_blocks.specs.World.{stored_caching};
ghost use Rattle.vfs.specs.Server.{IsOpen};

use cached_blocks::Stored;
use fixtures::lists::{driver, started};
use message::{BlockReply, Incoming};
use reissue::link::Link;
use reissue::list_link::ListLink;
use std::alloc::{AllocError, Global};
use vfs::Server;
use volume_mount::MountRefusal;
use volume_mount::mounted::mount;

/// The first driver's answer to this request: all these bytes, 4096 at most, were moved.
pub(crate) fn gives(id: u64, piece: &[u8]) -> Incoming {
    let mut bytes = [0; 4096];
    for (place, byte) in bytes.iter_mut().zip(piece) {
        *place = *byte;
    }
    Incoming::Reply(BlockReply {
        from: driver(1),
        id,
        outcome: Ok(u32::try_from(piece.len()).unwrap_or(0)),
        bytes,
    })
}

/// The first driver is started, and answers the requests for a volume's first 2048 bytes and then for all others, 4096 at a time, until it
/// gave so many answers.
pub(crate) fn reads_of(
    alloc: Global,
    image: &[u8],
    count: usize,
) -> Result<Vec<Incoming>, AllocError> {
    let mut messages = vec![in alloc; started(1); 1]?;
    let (head, rest) = image.split_at(2048.min(image.len()));
    if count != 0 {
        messages.push(gives(1, head))?;
    }
    for piece in rest.chunks(4096).take(count.saturating_sub(1)) {
        let id = messages.len() as u64;
        messages.push(gives(id, piece))?;
    }
    Ok(messages)
}

/// What a mount with so many frames comes to over a link that gives these messages.
pub(crate) fn mounted_over(
    alloc: Global,
    messages: Vec<Incoming>,
    frames: u32,
) -> Result<Result<Server<Stored<ListLink>>, MountRefusal>, AllocError>
    ensures open { IfOk result (λ r. IfOk r (IsOpen (stored_caching ⟦<ListLink as Link>⟧))) }
{
    Ok(mount(alloc, ListLink::new(alloc, messages)?, 0, frames))
}
