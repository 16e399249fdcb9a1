//! Seeks in open files.

ghost use Rattle.std.specs.Prelude.{◌≡◌, ◌≢◌, ◌<◌, ◌≤◌, IfErr, OnOk, IfSome};
ghost use Rattle.tree.specs.Tree.{most_sessions, most_size};
ghost use Rattle.tree.specs.FileCalls.{seek, seek_place};
ghost use Rattle.tree.specs.Answers.{answer_of, refused};
ghost use Rattle.descriptors.specs.Files.{HasFiles};
ghost use Rattle.descriptors.specs.Table.{files_of};
ghost use Rattle.block_store.specs.World.{Turns};
ghost use Rattle.block_store.specs.Volume.{IsOn};
ghost use Rattle.block_store.specs.Halts.{IsHalt};
ghost use Rattle.calls_attributes.specs.Does.{Meets};
ghost use Rattle.calls_files.specs.Seeking.{base_of, may_lie};

use block_store::{Blocks, Halt};
use calls_attributes::found::{Found, find, is_directory};
use descriptors::Descriptors;
use errno::Errno;
use layout::Geometry;
use tree::{MAX_SIZE, Reply, Whence};

/// The place from which a seek counts.
fn base(file: &Found, whence: Whence) -> u32
    ensures { result ≡ base_of file.now whence }
{
    match whence {
        Whence::Set => 0,
        Whence::Cur => file.position,
        Whence::End => file.inode.size,
    }
}

/// So far on or back from a place, if that isn't before the start.
fn shifted(base: u32, offset: i64) -> Option<u64>
    ensures { result ≡ seek_place base offset }
{
    if offset < 0 {
        u64::from(base).checked_sub(offset.unsigned_abs())
    } else {
        Some(u64::from(base) + offset.unsigned_abs())
    }
}

/// The same, if a position may lie there.
fn place(base: u32, offset: i64) -> Option<u32>
    ensures place { result ≡ may_lie (seek_place base offset) }
    ensures within { IfSome result (λ at. at ≤ most_size) }
{
    let at = shifted(base, offset)?;
    if at > u64::from(MAX_SIZE) {
        return None;
    }
    Some(at as u32)
}

/// seek: the new position of an open file, which may lie behind the end of the file. EBADF where the descriptor leads to no open file,
/// else EISDIR of a directory, else EINVAL where the position would lie before the start or behind 2147483647.
pub fn seek<B: Blocks>(
    blocks: &mut B,
    opens: &mut Descriptors,
    geometry: &Geometry,
    session: u8,
    fd: u32,
    whence: Whence,
    offset: i64,
    reply: &mut Reply,
) -> Result<(), Halt>
    requires on { IsOn B.world geometry.now blocks.old }
    requires session { session < most_sessions }
    ensures turns { Turns B.world blocks.old blocks.new (λ d e. Meets geometry.now (λ t. seek t session fd whence offset) result reply.new
        (HasFiles (files_of opens.old)) (HasFiles (files_of opens.new)) d e) }
    ensures looks { B.world.looks blocks.old blocks.new }
    ensures halt { IfErr result (λ h. IsHalt B.world blocks.new h) }
    ensures proper { OnOk result (answer_of reply.new ≢ refused Errno.EIO) }
{
    let Some(file) = find(blocks, opens, geometry, session, fd)? else {
        *reply = Reply::Refused(Errno::EBADF);
        return Ok(());
    };
    if is_directory(&file.inode) {
        *reply = Reply::Refused(Errno::EISDIR);
        return Ok(());
    }
    match place(base(&file, whence), offset) {
        Some(position) => {
            opens.set_position(session, fd, position);
            *reply = Reply::At(position);
            Ok(())
        }
        None => {
            *reply = Reply::Refused(Errno::EINVAL);
            Ok(())
        }
    }
}
