//! The call that moves a name.

ghost use Rattle.std.specs.Prelude.{◌≡◌, ◌≢◌, IfErr, OnOk};
ghost use Rattle.tree.specs.Answers.{answer_of, refused};
ghost use Rattle.tree.specs.NameCalls.{is_same, rename};
ghost use Rattle.descriptors.specs.Files.{HasFiles};
ghost use Rattle.descriptors.specs.Table.{files_of};
ghost use Rattle.block_store.specs.World.{Turns};
ghost use Rattle.block_store.specs.Volume.{IsOn};
ghost use Rattle.block_store.specs.Halts.{IsHalt};
ghost use Rattle.calls_attributes.specs.Does.{Meets};

use crate::carrying::{carry, fits};
use crate::{Asked, find_asked, why_barred};
use block_store::{Blocks, Halt};
use calls_names::named::are_bytes;
use descriptors::Descriptors;
use errno::Errno;
use layout::Geometry;
use path::NameCache;
use tree::{PathFrom, Reply, User};

/// Whether the node at the new name is the one that was to move.
fn is_same(asked: &Asked) -> bool
    ensures { result ≡ is_same asked.now.what.number asked.now.there }
{
    match asked.there {
        Some(there) => asked.what.number == there,
        None => false,
    }
}

/// rename: a node has another name, in the same or another directory, and what had that name has lost it. Two names of one inode change
/// nothing. In this order: the refusals of the old path and of the new, EINVAL where one of them has no last name, those of the walk to the
/// old place, ENOENT where no such name is there, those of the walk to the new place, EACCES of an old directory that the user may not
/// write, EACCES of a new one, EINVAL of a directory that would lie in itself; where nothing has the new name, EMLINK of a directory that
/// comes to another parent with as many links as may be; where a node has it, ENOTDIR of a directory over a file, EISDIR of a file over a
/// directory, ENOTEMPTY over a directory with names, EBUSY over one that is open; ENOSPC. What is refused changes nothing.
pub fn rename<B: Blocks>(
    blocks: &mut B,
    names: &mut NameCache,
    opens: &Descriptors,
    geometry: &Geometry,
    user: User,
    now: u32,
    old: PathFrom,
    new: PathFrom,
    reply: &mut Reply,
) -> Result<(), Halt>
    requires on { IsOn B.world geometry.now blocks.old }
    ensures turns { let f = files_of opens.now in Turns B.world blocks.old blocks.new (λ d e.
        Meets geometry.now (λ t. rename geometry.now t user now old.entry new.entry) result reply.new (HasFiles f) (HasFiles f) d e) }
    ensures halt { IfErr result (λ h. IsHalt B.world blocks.new h) }
    ensures proper { OnOk result (answer_of reply.new ≢ refused Errno.EIO) }
{
    are_bytes(new.bytes);
    let asked = match find_asked(blocks, names, geometry, user, now, old, new)? {
        Ok(asked) => asked,
        Err(errno) => {
            *reply = Reply::Refused(errno);
            return Ok(());
        }
    };
    if is_same(&asked) {
        *reply = Reply::Done;
        return Ok(());
    }
    if let Some(errno) = why_barred(blocks, opens, geometry, &asked)? {
        *reply = Reply::Refused(errno);
        return Ok(());
    }
    if !fits(blocks, geometry, &asked)? {
        *reply = Reply::Refused(Errno::ENOSPC);
        return Ok(());
    }
    carry(blocks, opens, geometry, &asked)?;
    *reply = Reply::Done;
    Ok(())
}
